// The engine's state, read from words.
ghost use Rattle.std.specs.Prelude.{◌≡◌, ◌+◌, ◌≤◌, length};
ghost use Rattle.peer.specs.State.{slot_with};
ghost use Rattle.state_words.specs.Saving.{peer_size, state_size};
ghost use Rattle.state_words.specs.Loading.{receive_in, cq_in, shape_in, message_in, phase_in, peer_in, engine_in, loaded};

// The words of a slot are a slice and a place, and no array of 16: the definitions (`phase_in`) read them at a place of the
// whole state's.
use crate::saving;
use crate::types::{PEER, SLOT, STATE};
use engine::Engine;
use peer::{Inbound, Message, Peer, Phase, Receive, Slot};
use protocol::Shape;

// A receive is made of numbers here, of a trace's in `trace` and of a call's in `packed`: each reads another form.
fn receive_in(words: &[u64], at: usize) -> Receive
    requires { at + 16 ≤ length words.now }
    ensures { result ≡ receive_in words.now at }
{
    Receive {
        tagged: words[at + 1] == 1,
        tag: words[at + 2],
        ignore: words[at + 3],
        start: words[at + 4] as usize,
        capacity: words[at + 5] as usize,
    }
}

#[tactic(auto, unfolding(laws::specs::Choose::pick))]
fn cq_in(words: &[u64], at: usize) -> Option<u64>
    requires { at + 16 ≤ length words.now }
    ensures { result ≡ cq_in words.now at }
{
    (words[at + 14] == 1).then_some(words[at + 15])
}

// The shape with this number. It is no `From`: `Shape` is another crate's, and a number past the last shape's is taken for
// the last here, which `load` refuses when it writes the words again.
#[tactic(auto, unfolding(laws::specs::Choose::pick))]
fn shape_in(number: u64) -> Shape
    ensures { result ≡ shape_in number }
{
    match number {
        0 => Shape::Cts,
        1 => Shape::CtsData,
        2 => Shape::Eager,
        3 => Shape::Medium,
        _ => Shape::LongCts,
    }
}

fn message_in(words: &[u64], at: usize) -> Message
    requires { at + 16 ≤ length words.now }
    ensures { result ≡ message_in words.now at }
{
    let cq_data = cq_in(words, at);
    let sort = words[at + 7];
    let shape = shape_in(sort / 2);
    Message {
        shape,
        tagged: sort % 2 == 1,
        id: (words[at + 8] % 0x1_0000_0000) as u32,
        tag: words[at + 9],
        length: words[at + 10] as usize,
        granted: words[at + 11] as usize,
        send_id: (words[at + 12] % 0x1_0000_0000) as u32,
        credit_request: (words[at + 13] % 0x1_0000_0000) as u32,
        cq_data,
    }
}

#[tactic(auto, unfolding(crate::specs::Loading::phase_in, laws::specs::Choose::pick))]
fn slot_in(words: &[u64], at: usize) -> Slot
    requires { at + 16 ≤ length words.now }
    ensures { result ≡ slot_with (phase_in words.now at) }
{
    let number = words[at];
    if number == 1 {
        let receive = receive_in(words, at);
        return Slot {
            phase: Phase::Posted(receive, words[at + 6]),
        };
    }
    if number == 2 {
        let receive = receive_in(words, at);
        let message = message_in(words, at);
        return Slot {
            phase: Phase::Open(Inbound { receive, message }),
        };
    }
    Slot { phase: Phase::Free }
}

fn peer_in(words: &[u64], at: usize) -> Peer
    requires { at + peer_size ≤ length words.now }
    ensures { result ≡ peer_in words.now at }
{
    let mut peer = Peer::fresh();
    peer.next = (words[at] % 0x1_0000_0000) as u32;
    for (i, slot) in peer.slots.iter_mut().enumerate() {
        *slot = slot_in(words, at + 1 + SLOT * i);
    }
    peer
}

// The engine that the words are read as, whether or not they are a state's words.
fn engine_in(words: &[u64]) -> Engine
    requires { length words.now ≡ state_size }
    ensures { result ≡ engine_in words.now }
{
    let mut engine = Engine::fresh(words[0] as usize, words[1] as usize, words[2] as usize);
    for (p, peer) in engine.peers.iter_mut().enumerate() {
        *peer = peer_in(words, 3 + PEER * p);
    }
    engine
}

// The engine of a state's words: those that are written again for the engine that is read.
pub fn load(words: &[u64]) -> Option<Engine>
    ensures { result ≡ loaded words.now }
{
    if words.len() != STATE {
        return None;
    }
    let engine = engine_in(words);
    let mut again = [0u64; STATE];
    saving::save(&mut again, engine);
    if words == again.as_slice() {
        Some(engine)
    } else {
        None
    }
}
