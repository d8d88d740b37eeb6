// A recorded run, replayed: a line of text for each entry.
#![tactic(auto)]

mod entries;
mod lines;
mod replaying;
mod types;

pub use replaying::replay;
pub use types::{Ending, Replayed};
