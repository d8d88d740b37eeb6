// One peer: its slots and their steps, the definitions of its calls, and what is proved of them.
// The code of the calls stands in `posting`, `receiving` and `lending`.
#![tactic(auto)]

mod state;
mod types;

pub use types::{
    Answer, Call, Inbound, Incoming, LocalCall, Message, Peer, Phase, Progress, Receive, Request,
    Slot, SlotStep, Step, Verdict,
};
