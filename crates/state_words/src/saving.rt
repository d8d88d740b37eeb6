// The engine's state, written as words.
ghost use Rattle.std.specs.Prelude.{◌≡◌, ◌+◌, ◌≤◌, length};
ghost use Rattle.laws.specs.Parts.{store_at};
ghost use Rattle.state_words.specs.Saving.{sort_word, phase_words, slot_words, peer_words, engine_words, peer_size, state_size};

use crate::types::{PEER, SLOT};
use engine::Engine;
use peer::{Inbound, Peer, Phase, Receive, Slot};
use protocol::Shape;

// Shape and tagged in one word, the shape by its place among the shapes.
fn sort_word(shape: Shape, tagged: bool) -> u64
    ensures { result ≡ sort_word shape tagged }
{
    2 * (shape as u64) + u64::from(tagged)
}

// The words of an open slot.
#[tactic(auto, unfolding(crate::specs::Saving::phase_words))]
fn open_words(inbound: Inbound) -> [u64; SLOT]
    ensures { result ≡ phase_words (Phase.Open inbound) }
{
    let receive = inbound.receive;
    let message = inbound.message;
    let shape = message.shape;
    let cq = message.cq_data;
    [
        2,
        words::bit_of(receive.tagged),
        receive.tag,
        receive.ignore,
        receive.start as u64,
        receive.capacity as u64,
        0,
        sort_word(shape, message.tagged),
        message.id as u64,
        message.tag,
        message.length as u64,
        message.granted as u64,
        message.send_id as u64,
        message.credit_request as u64,
        words::option_bit(cq),
        words::option_value(cq),
    ]
}

// The words of a slot with a receive of this age.
#[tactic(auto, unfolding(crate::specs::Saving::phase_words))]
fn posted_words(receive: Receive, age: u64) -> [u64; SLOT]
    ensures { result ≡ phase_words (Phase.Posted receive age) }
{
    [
        1,
        words::bit_of(receive.tagged),
        receive.tag,
        receive.ignore,
        receive.start as u64,
        receive.capacity as u64,
        age,
        0,
        0,
        0,
        0,
        0,
        0,
        0,
        0,
        0,
    ]
}

#[tactic(auto, unfolding(crate::specs::Saving::phase_words))]
fn slot_words(slot: Slot) -> [u64; SLOT]
    ensures { result ≡ slot_words slot }
{
    let phase = slot.phase;
    match phase {
        Phase::Free => [0; SLOT],
        Phase::Posted(receive, age) => posted_words(receive, age),
        Phase::Open(inbound) => open_words(inbound),
    }
}

fn put_peer(words: &mut [u64], at: usize, peer: Peer)
    requires { at + peer_size ≤ length words.old }
    ensures { words.new ≡ store_at words.old at (peer_words peer) }
{
    words[at] = peer.next as u64;
    for (i, slot) in peer.slots.iter().enumerate() {
        words::put_words(words, at + 1 + SLOT * i, &slot_words(*slot));
    }
}

// The words of an engine, over all that are there.
pub fn save(words: &mut [u64], engine: Engine)
    requires { length words.old ≡ state_size }
    ensures { words.new ≡ engine_words engine }
{
    words[0] = engine.n as u64;
    words[1] = engine.area as u64;
    words[2] = engine.limit as u64;
    for (p, peer) in engine.peers.iter().enumerate() {
        put_peer(words, 3 + PEER * p, *peer);
    }
}
