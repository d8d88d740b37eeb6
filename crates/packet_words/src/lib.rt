// A packet's values as 64-bit words, for callers in other languages.
#![tactic(auto)]

mod reading;
mod types;
mod writing;

pub use reading::read;
pub use types::VALUES;
pub use writing::write;
