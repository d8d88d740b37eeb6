// Whether a peer is one that can be: each slot by itself, then each pair of slots once. It serves
// `engine`, whose calls refuse 2 where a peer is not.
#![tactic(auto)]

mod open;
mod slots;

ghost use Rattle.std.specs.Prelude.{◌≡◌};
ghost use Rattle.peer.specs.State.{all_fit, none_clash, pairs_apart, peer_fits};

use peer::{Peer, Slot};

// Whether each slot by itself can be.
fn slots_fit(slots: &[Slot], area: usize) -> bool
    ensures { result ≡ all_fit area slots.now }
{
    slots.iter().all(|slot| slots::fits(slot, area))
}

// Whether a slot clashes with none of these. A free one does not, and none is looked at for it.
#[tactic(auto, using(peer::proofs::Slots::SlotTurns::free_apart))]
fn apart(slot: &Slot, others: &[Slot]) -> bool
    ensures { result ≡ none_clash slot.now.phase others.now }
{
    slot.is_free() || others.iter().all(|other| !slots::clashes(slot, other))
}

// Whether no two slots clash: each pair is looked at once.
fn pairs_apart(slots: &[Slot]) -> bool
    ensures { result ≡ pairs_apart slots.now }
{
    for (i, slot) in slots.iter().enumerate() {
        if !apart(slot, &slots[i + 1..]) {
            return false;
        }
    }
    true
}

// Whether this is a peer that can be, with an area of this length.
#[tactic(auto, unfolding(peer::specs::State::peer_fits))]
pub fn fits(peer: &Peer, area: usize) -> bool
    ensures { result ≡ peer_fits area peer.now }
{
    slots_fit(&peer.slots, area) && pairs_apart(&peer.slots)
}
