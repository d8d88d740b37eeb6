// What a replay answers.
use protocol::Refusal;

// Why a replay ended: the trace did, or it may take no more entries; an entry is bad that starts at
// this place; the set-up was refused; or the text has too little room, and nothing was done.
#[derive(Clone, Copy)]
pub enum Ending {
    End,
    Stopped,
    Bad(usize),
    NotSetUp(Refusal),
    NoRoom,
}

// The number of entries taken, the bytes of text written, and why it ended.
#[derive(Clone, Copy)]
pub struct Replayed {
    pub taken: usize,
    pub written: usize,
    pub ending: Ending,
}
