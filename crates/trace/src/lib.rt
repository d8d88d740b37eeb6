// A recorded run as bytes: its numbers and entries, read at a place of a slice.
#![tactic(auto)]

mod number;
mod reading;
mod types;

pub use number::{MORE, number_at};
pub use reading::{entry_at, set_up_at};
pub use types::SetUp;
