// How many words a state has.
use engine::Engine;
use peer::Peer;

// The words of a slot, of a peer and of the whole state.
pub const SLOT: usize = 16;

pub const PEER: usize = 1 + SLOT * Peer::SLOTS;

pub const STATE: usize = 3 + PEER * Engine::PEERS;
