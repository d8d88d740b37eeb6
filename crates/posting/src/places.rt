// Where a receive can be placed: it overlaps no used range, and the lowest free slot.
ghost use Rattle.std.specs.Prelude.{◌≡◌};
ghost use Rattle.peer.specs.Calls.{overlaps_some};
ghost use Rattle.peer.specs.State.{overlaps_use};
ghost use Rattle.peer.specs.Matching.{vacancy};

use peer::{Peer, Phase, Receive, Slot};

// Whether the slot's range shares a byte with a receive's.
#[inline(always)]
#[tactic(auto, unfolding(peer::specs::State::overlaps_use))]
fn overlaps_use(slot: &Slot, receive: Receive) -> bool
    ensures { result ≡ overlaps_use receive slot.now.phase }
{
    match slot.phase {
        Phase::Free => false,
        Phase::Posted(other, _) => receive.overlaps(other),
        Phase::Open(inbound) => receive.overlaps(inbound.receive),
    }
}

// Whether a used range shares a byte with a receive's.
#[inline(always)]
pub(crate) fn overlaps_some(peer: &Peer, receive: Receive) -> bool
    ensures { result ≡ overlaps_some receive peer.now.slots }
{
    peer.slots.iter().any(|slot| overlaps_use(slot, receive))
}

// The lowest free slot.
#[inline(always)]
pub(crate) fn find_vacancy(peer: &Peer) -> Option<usize>
    ensures { result ≡ vacancy 0 peer.now.slots }
{
    peer.slots.iter().position(|slot| slot.is_free())
}
