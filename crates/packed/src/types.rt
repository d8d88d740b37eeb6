// How many words a call has, and what a run answers.
use engine::Engine;

// The words of a call, and of its answer.
pub(crate) const WORDS: usize = 8;

// The engine after some calls, and how many they were.
#[derive(Clone, Copy)]
pub struct Ran {
    pub engine: Engine,
    pub taken: usize,
}
