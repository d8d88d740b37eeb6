// The state of one peer, what a packet says, and what a call answers.
use protocol::{Refusal, Shape, Span};

// What a post asks for: a range of the peer's area, for messages of a kind and a tag.
// Tag and ignore stand beside `tagged` and not within it: a plain receive has them too, in a trace and in a
// state's words (`post_entry`, `phase_words`).
#[derive(Clone, Copy)]
pub struct Receive {
    pub tagged: bool,
    pub tag: u64,
    pub ignore: u64,
    pub start: usize,
    pub capacity: usize,
}

// What a packet says of its message, and of the segment that it carries: shape and tagged as the
// table has them for its type.
#[derive(Clone, Copy)]
pub struct Incoming {
    pub shape: Shape,
    pub tagged: bool,
    pub id: u32,
    pub tag: u64,
    pub length: usize,
    pub offset: usize,
    pub size: usize,
    pub send_id: u32,
    pub credit_request: u32,
    pub cq_data: Option<u64>,
}

// An open message, as the matching packet began it: shape and tagged are the type's. CTSDATA may
// reach up to `granted`.
// It shares eight fields with `Incoming` and is no part of it: the definitions and 01 name each field of a message plainly.
#[derive(Clone, Copy)]
pub struct Message {
    pub shape: Shape,
    pub tagged: bool,
    pub id: u32,
    pub tag: u64,
    pub length: usize,
    pub granted: usize,
    pub send_id: u32,
    pub credit_request: u32,
    pub cq_data: Option<u64>,
}

// An open message in its receive.
#[derive(Clone, Copy)]
pub struct Inbound {
    pub receive: Receive,
    pub message: Message,
}

// What a slot is used for. Of two posted receives the one with the lower age was posted first.
#[derive(Clone, Copy)]
pub enum Phase {
    Free,
    Posted(Receive, u64),
    Open(Inbound),
}

#[derive(Clone, Copy)]
pub struct Slot {
    pub phase: Phase,
}

#[derive(Clone, Copy)]
pub struct Peer {
    pub next: u32,
    pub slots: [Slot; Peer::SLOTS],
}

// What is to be done with a packet.
#[derive(Clone, Copy)]
pub enum Verdict {
    Refuse(Refusal),
    Truncate(usize),
    Begin(usize, Receive),
    More(usize, Inbound),
}

// How far an open message is: every byte is in, all that was granted is, or neither.
#[derive(Clone, Copy)]
pub enum Progress {
    Whole,
    Due,
    Partial,
}

// What a call answers. A refusal is one of the answers, as 01 counts it, and no error beside them (`said`).
#[derive(Clone, Copy)]
pub enum Answer {
    Refused(Refusal),
    Posted(usize),
    Cancelled(usize),
    Stored,
    Granted(usize),
    Done {
        slot: usize,
        id: u32,
        length: usize,
        cq_data: Option<u64>,
    },
    Truncated {
        slot: usize,
        id: u32,
        length: usize,
    },
    Missing {
        received: usize,
        first: usize,
    },
}

// A call of one peer that writes nothing of what is lent.
#[derive(Clone, Copy)]
pub enum LocalCall {
    Post(Receive),
    Cancel(usize),
    Report(usize),
}

// Any call of one peer. A packet and its reply buffer are told by where they lie in what is lent, since
// an enum holds no slice.
#[derive(Clone, Copy)]
pub enum Call {
    Local(LocalCall),
    Packet(Span, Span),
}

// A call, with its peer's number.
#[derive(Clone, Copy)]
pub struct Request {
    pub peer: usize,
    pub call: Call,
}

// What a call leaves of one slot, and the call's answer.
#[derive(Clone, Copy)]
pub struct SlotStep {
    pub phase: Phase,
    pub answer: Answer,
}

// The peer after a call, and the call's answer.
#[derive(Clone, Copy)]
pub struct Step {
    pub peer: Peer,
    pub answer: Answer,
}
