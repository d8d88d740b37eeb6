// What is lent on to one peer: its own part of the arena and of the map. These serve `calls`,
// `replay` and `packed`, whose checks show what they require.
//
// Arena, map and replies are handed on one by one, as in `receiving::effects`; `Owned` and `WordsOwned` are the records of what a
// peer, its number and its area must be.
#![tactic(auto)]

mod dispatch;
mod reporting;

ghost use Rattle.std.specs.Prelude.{◌≡◌, length, ◌*◌, ◌/◌};
ghost use Rattle.peer.specs.Calls.{packet_effect, report_effect};
ghost use Rattle.peer.specs.Effects.{quiet};
ghost use Rattle.laws.specs.Parts.{part};
ghost use Rattle.lending.specs.Lending.{Owned, WordsOwned, leaves_at};

pub use dispatch::{local, step};
use peer::{Answer, Peer, Step};

// A packet of peer p. Only bytes p×A to p×A+A−1 of the arena are lent on, and their words of the map.
pub(crate) fn packet_at(
    there: Peer,
    p: usize,
    area: usize,
    limit: usize,
    bytes: &[u8],
    arena: &mut [u8],
    map: &mut [u64],
    reply: &mut [u8],
) -> Step
    requires { Owned area limit p (length arena.old) (length map.old) there }
    ensures { record { step = result; arena = arena.new; map = map.new; reply = reply.new } ≡ leaves_at 0 area p arena.old map.old reply.old (packet_effect limit there (part map.old (p * (area / 64)) (area / 64)) bytes.now (length reply.old)) }
{
    let base = p * area;
    let end = base + area;
    let words = area / 64;
    let first = p * words;
    let last = first + words;
    receiving::packet(
        there,
        limit,
        bytes,
        &mut arena[base..end],
        &mut map[first..last],
        reply,
    )
}

// The missing-byte report of a slot of peer p.
#[tactic(auto, using(laws::proofs::Storing::lent_part))]
pub(crate) fn report_at(there: &Peer, p: usize, slot: usize, area: usize, map: &[u64]) -> Answer
    requires { WordsOwned area p (length map.now) there.now }
    ensures { quiet there.now (part map.now (p * (area / 64)) (area / 64)) result ≡ report_effect there.now (part map.now (p * (area / 64)) (area / 64)) slot }
{
    let words = area / 64;
    let first = p * words;
    let last = first + words;
    reporting::report(there, slot, &map[first..last])
}
