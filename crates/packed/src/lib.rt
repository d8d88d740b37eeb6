// The engine for callers who keep its state as words: lists of calls, each call and each answer in
// eight words.
#![tactic(auto)]

mod answers;
mod calls;
mod running;
mod starting;
mod types;

pub use running::run;
pub use starting::set_up;
pub use types::Ran;
