// The state of the whole engine, and what its calls answer.
ghost use Rattle.std.specs.Prelude.{◌≡◌};
ghost use Rattle.engine.specs.SetUp.{engine_of};

use peer::{Answer, Peer};
use protocol::Refusal;

// The peers are an array with a count, since nothing is allocated.
//
// All peers, of which the first n are in use, with the other set-up numbers: bytes of an area,
// and the longest packet.
#[derive(Clone, Copy)]
pub struct Engine {
    pub peers: [Peer; Engine::PEERS],
    pub n: usize,
    pub area: usize,
    pub limit: usize,
}

// What a set-up answers, and the engine to start with. `set_up` of specs/ has an engine of no peers for a
// refused one, and the guarantees speak of it: so this is no Result of an engine.
#[derive(Clone, Copy)]
pub struct Started {
    pub answer: Result<(), Refusal>,
    pub engine: Engine,
}

// The engine after a call, and the call's answer.
#[derive(Clone, Copy)]
pub struct Outcome {
    pub engine: Engine,
    pub answer: Answer,
}

impl Engine {
    // The peers that an engine has room for.
    pub const PEERS: usize = 8;

    // An engine with these set-up numbers, whose peers are fresh. Of no peers, every call refuses it.
    pub fn fresh(n: usize, area: usize, limit: usize) -> Engine
        ensures { result ≡ engine_of n area limit }
    {
        Engine {
            peers: [Peer::fresh(); Engine::PEERS],
            n,
            area,
            limit,
        }
    }
}
