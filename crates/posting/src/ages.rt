// The ages of posted receives, counted anew at each post so that they never run out.
ghost use Rattle.std.specs.Prelude.{◌≡◌, ◌<◌};
ghost use Rattle.peer.specs.Calls.{is_posted, count_posted, is_older, count_older, renumbered_phase, renumbered, placed};
ghost use Rattle.peer.specs.State.{slot_count, slot_with};

use peer::{Peer, Phase, Receive, Slot};

// Whether a receive is posted here.
#[inline(always)]
fn is_posted(slot: &Slot) -> bool
    ensures { result ≡ is_posted slot.now.phase }
{
    matches!(slot.phase, Phase::Posted(_, _))
}

// How many receives are posted.
#[inline(always)]
#[tactic(auto, using(peer::proofs::Slots::SlotTurns::posted_counted))]
fn count_posted(peer: &Peer) -> u64
    ensures { result ≡ count_posted peer.now.slots }
{
    peer.slots.iter().filter(|slot| is_posted(*slot)).count() as u64
}

// Whether a receive is posted here that is older than this age.
#[inline(always)]
fn is_older(slot: &Slot, age: u64) -> bool
    ensures { result ≡ is_older age slot.now.phase }
{
    matches!(slot.phase, Phase::Posted(_, own) if own < age)
}

// How many posted receives are older than this age.
#[inline(always)]
#[tactic(auto, using(peer::proofs::Slots::SlotTurns::older_counted))]
fn count_older(peer: &Peer, age: u64) -> u64
    ensures { result ≡ count_older age peer.now.slots }
{
    peer.slots
        .iter()
        .filter(|slot| is_older(*slot, age))
        .count() as u64
}

// The slot, with the number of older receives among all as its receive's age.
#[inline(always)]
fn renumbered_slot(slot: Slot, all: &Peer) -> Slot
    ensures { result ≡ slot_with (renumbered_phase all.now.slots slot.phase) }
{
    match slot.phase {
        Phase::Posted(receive, age) => Slot {
            phase: Phase::Posted(receive, count_older(all, age)),
        },
        Phase::Free | Phase::Open(_) => slot,
    }
}

// The peer, with ages from 0 on in the order of posting.
#[inline(always)]
fn renumbered(all: Peer) -> Peer
    ensures { result ≡ record { next = all.next; slots = renumbered all.slots all.slots } }
{
    let mut peer = all;
    for slot in &mut peer.slots {
        *slot = renumbered_slot(*slot, &all);
    }
    peer
}

// The peer with a receive in slot i, the youngest there.
#[inline(always)]
#[tactic(auto, unfolding(peer::specs::Calls::placed))]
pub(crate) fn placed(peer: Peer, receive: Receive, i: usize) -> Peer
    requires { i < slot_count }
    ensures { result ≡ placed peer receive i }
{
    let age = count_posted(&peer);
    renumbered(peer).with_phase(i, Phase::Posted(receive, age))
}
