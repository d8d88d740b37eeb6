// The missing-byte report of one peer's slot, from its own map words.
ghost use Rattle.std.specs.Prelude.{◌≡◌, ◌*◌, length};
ghost use Rattle.receiving.specs.Preconditions.{Mapped, Mapping};
ghost use Rattle.peer.specs.Calls.{missing_in, report_effect};
ghost use Rattle.peer.specs.Effects.{quiet};

use peer::{Answer, Inbound, Peer, Phase};
use protocol::Refusal;

// How many bytes of the message are in, and the first that is not.
fn missing(inbound: Inbound, words: &[u64]) -> Answer
    requires { Mapping (length words.now) inbound }
    ensures { result ≡ missing_in words.now inbound }
{
    let Inbound { receive, message } = inbound;
    let length = message.length;
    Answer::Missing {
        received: bitmap::count_set(words, receive.start, length),
        first: bitmap::first_clear(words, receive.start, length),
    }
}

// The missing-byte report of an open slot. Nothing changes.
#[tactic(auto, using(crate::proofs::OpenSlots::open_mapped), unfolding(peer::specs::Calls::report_effect, peer::specs::Calls::report_slot, laws::specs::Choose::pick))]
pub(crate) fn report(peer: &Peer, slot: usize, words: &[u64]) -> Answer
    requires { Mapped (64 * length words.now) (length words.now) peer.now }
    ensures { quiet peer.now words.now result ≡ report_effect peer.now words.now slot }
{
    if Peer::SLOTS <= slot {
        return Answer::Refused(Refusal::BadSlot);
    }
    match peer.slots[slot].phase {
        Phase::Free | Phase::Posted(_, _) => Answer::Refused(Refusal::BadSlot),
        Phase::Open(inbound) => missing(inbound, words),
    }
}
