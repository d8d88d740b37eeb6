// A recorded run as bytes: its set-up numbers and entries, written to a place of a slice. Each function answers the place behind
// what it wrote, or nothing where the buffer is too short.
#![tactic(auto)]

mod number;
mod writing;

pub use writing::{write_cancel, write_packet, write_post, write_set_up};
