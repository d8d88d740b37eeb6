// A slot by itself, and two of them.
ghost use Rattle.std.specs.Prelude.{◌≡◌};
ghost use Rattle.peer.specs.State.{phase_fits, clash};

use crate::open;
use peer::{Inbound, Phase, Receive, Slot};

// Whether the slot by itself can be in a peer with this area.
#[inline(always)]
#[tactic(auto, unfolding(peer::specs::State::phase_fits))]
pub(crate) fn fits(slot: &Slot, area: usize) -> bool
    ensures { result ≡ phase_fits area slot.now.phase }
{
    match slot.phase {
        Phase::Free => true,
        Phase::Posted(receive, _) => wire::ends_by(receive.start, receive.capacity, area),
        Phase::Open(inbound) => open::fits(inbound, area),
    }
}

// Whether a posted receive and a slot cannot stand together.
#[inline(always)]
#[tactic(auto, unfolding(peer::specs::State::clash))]
fn clashes_posted(slot: &Slot, receive: Receive, age: u64) -> bool
    ensures { result ≡ clash (Phase.Posted receive age) slot.now.phase }
{
    match slot.phase {
        Phase::Free => false,
        Phase::Posted(other, other_age) => receive.overlaps(other) || age == other_age,
        Phase::Open(inbound) => receive.overlaps(inbound.receive),
    }
}

// Whether an open message and a slot cannot stand together.
#[inline(always)]
#[tactic(auto, unfolding(peer::specs::State::clash))]
fn clashes_open(slot: &Slot, inbound: Inbound) -> bool
    ensures { result ≡ clash (Phase.Open inbound) slot.now.phase }
{
    match slot.phase {
        Phase::Free => false,
        Phase::Posted(other, _) => inbound.receive.overlaps(other),
        Phase::Open(other) => open::clashes(inbound, other),
    }
}

// Whether two slots cannot stand together.
#[inline(always)]
#[tactic(auto, unfolding(peer::specs::State::clash))]
pub(crate) fn clashes(slot: &Slot, other: &Slot) -> bool
    ensures { result ≡ clash slot.now.phase other.now.phase }
{
    match slot.phase {
        Phase::Free => false,
        Phase::Posted(receive, age) => clashes_posted(other, receive, age),
        Phase::Open(inbound) => clashes_open(other, inbound),
    }
}
