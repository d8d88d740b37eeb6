// Any call of a peer, carried out by the function of its kind.
ghost use Rattle.std.specs.Prelude.{◌≡◌, ℕ, ◌*◌, ◌/◌, length};
ghost use Rattle.laws.specs.Parts.{part};
ghost use Rattle.peer.specs.Calls.{call_of, peer_step};
ghost use Rattle.peer.specs.Effects.{quiet};
ghost use Rattle.peer.specs.LentCalls.{LiesWithin, lent_call_of, local_call_of, reply_place};
ghost use Rattle.lending.specs.Lending.{Owned, WordsOwned, leaves_at};

use crate::{packet_at, report_at};
use peer::{Call, LocalCall, Peer, Step};

// One call of peer p that writes nothing lent, whose gate is open. Of the map only the peer's own part is
// lent on, to be read. No packet comes in, so that no limit on packets counts.
#[tactic(auto, unfolding(peer::specs::Calls::peer_step))]
pub fn local(there: Peer, p: usize, area: usize, call: LocalCall, map: &[u64]) -> Step
    requires { WordsOwned area p (length map.now) there }
    ensures { (limit : ℕ) → quiet result.peer (part map.now (p * (area / 64)) (area / 64)) result.answer ≡ peer_step area limit there (part map.now (p * (area / 64)) (area / 64)) (local_call_of call) }
{
    match call {
        LocalCall::Post(receive) => posting::post(there, area, receive),
        LocalCall::Cancel(slot) => posting::cancel(there, slot),
        LocalCall::Report(slot) => Step {
            peer: there,
            answer: report_at(&there, p, slot, area, map),
        },
    }
}

// One call of peer p, whose gate is open. Of arena and map only the peer's own part is lent on, and
// of bytes and replies only the call's own packet and reply buffer.
pub fn step(
    there: Peer,
    p: usize,
    area: usize,
    limit: usize,
    call: Call,
    bytes: &[u8],
    arena: &mut [u8],
    map: &mut [u64],
    replies: &mut [u8],
) -> Step
    requires owned { Owned area limit p (length arena.old) (length map.old) there }
    requires lies_within { LiesWithin (length bytes.now) (length replies.old) call }
    ensures { record { step = result; arena = arena.new; map = map.new; reply = replies.new } ≡ leaves_at (reply_place call) area p arena.old map.old replies.old (peer_step area limit there (part map.old (p * (area / 64)) (area / 64)) (call_of (lent_call_of bytes.now replies.old call))) }
{
    match call {
        Call::Local(local_call) => local(there, p, area, local_call, map),
        Call::Packet(sent, reply) => {
            let from = sent.at;
            let to = from + sent.size;
            let first = reply.at;
            let last = first + reply.size;
            packet_at(
                there,
                p,
                area,
                limit,
                &bytes[from..to],
                arena,
                map,
                &mut replies[first..last],
            )
        }
    }
}
