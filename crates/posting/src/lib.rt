// Post and cancel of one peer. They serve `lending`; nothing that is lent changes.
#![tactic(auto)]

mod ages;
mod calls;
mod places;

pub use calls::{cancel, post};
