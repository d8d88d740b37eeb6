// A receive posted, and a slot cancelled.
ghost use Rattle.std.specs.Prelude.{◌≡◌, List, ℕ};
ghost use Rattle.peer.specs.Calls.{post_effect, cancel_effect};
ghost use Rattle.peer.specs.Effects.{quiet};

use crate::{ages, places};
use peer::{Answer, Peer, Phase, Receive, SlotStep, Step};
use protocol::Refusal;

// A receive is posted in the lowest free slot. Nothing that is lent changes.
pub fn post(peer: Peer, area: usize, receive: Receive) -> Step
    ensures { (words : List ℕ) → quiet result.peer words result.answer ≡ post_effect area peer words receive }
{
    if !wire::ends_by(receive.start, receive.capacity, area) {
        return peer.refused(Refusal::BadLength);
    }
    if places::overlaps_some(&peer, receive) {
        return peer.refused(Refusal::Overlaps);
    }
    let Some(i) = places::find_vacancy(&peer) else {
        return peer.refused(Refusal::NoSlot);
    };
    Step {
        peer: ages::placed(peer, receive, i),
        answer: Answer::Posted(i),
    }
}

// A posted or open slot is freed. Nothing that is lent changes.
#[tactic(auto, unfolding(peer::specs::Calls::cancel_effect, peer::specs::Calls::cancel_slot, laws::specs::Choose::pick))]
pub fn cancel(peer: Peer, slot: usize) -> Step
    ensures { (words : List ℕ) → quiet result.peer words result.answer ≡ cancel_effect peer words slot }
{
    if Peer::SLOTS <= slot {
        return peer.refused(Refusal::BadSlot);
    }
    if peer.slots[slot].is_free() {
        return peer.refused(Refusal::BadSlot);
    }
    let step = SlotStep {
        phase: Phase::Free,
        answer: Answer::Cancelled(slot),
    };
    peer.stepped(slot, step)
}
