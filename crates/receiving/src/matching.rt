// Which message a packet belongs to, and which receive it fits.
ghost use Rattle.std.specs.Prelude.{◌≡◌, None};
ghost use Rattle.peer.specs.Matching.{open_here, find_open, fits, older, older_here, oldest, ahead, same_medium, same_message};

use crate::shapes;
use peer::{Inbound, Incoming, Message, Phase, Receive, Slot};

// How far an id is ahead of the next one, round at 2^32.
#[inline(always)]
#[tactic(auto, unfolding(peer::specs::Matching::ahead))]
pub(crate) fn ahead_of(id: u32, next: u32) -> u32
    ensures { result ≡ ahead id next }
{
    id.wrapping_sub(next)
}

// Whether a packet is of this message's type, and that a medium one.
#[inline(always)]
#[tactic(auto, unfolding(peer::specs::Matching::same_medium))]
fn same_medium(message: Message, h: Incoming) -> bool
    ensures { result ≡ same_medium message h }
{
    shapes::is_medium(h.shape) && shapes::is_medium(message.shape) && h.tagged == message.tagged
}

// Whether a packet is a further segment of this message.
#[inline(always)]
#[tactic(auto, unfolding(peer::specs::Matching::same_message))]
pub(crate) fn goes_on(message: Message, h: Incoming) -> bool
    ensures { result ≡ same_message message h }
{
    same_medium(message, h) && h.length == message.length && h.tag == message.tag
}

// Whether a packet is of this receive's kind, with a tag that it takes.
#[inline(always)]
#[tactic(auto, unfolding(peer::specs::Matching::fits, peer::specs::Matching::same_outside, laws::specs::Choose::pick))]
fn takes(receive: Receive, h: Incoming) -> bool
    ensures { result ≡ fits h receive }
{
    if h.tagged {
        receive.tagged && (h.tag | receive.ignore) == (receive.tag | receive.ignore)
    } else {
        !receive.tagged
    }
}

// The older of the best so far, with its slot and its age, and a receive in slot i.
#[inline(always)]
#[tactic(auto, unfolding(peer::specs::Matching::older, laws::specs::Choose::pick))]
fn older(
    best: Option<(usize, Receive, u64)>,
    i: usize,
    receive: Receive,
    age: u64,
) -> Option<(usize, Receive, u64)>
    ensures { result ≡ older best i receive age }
{
    match best {
        Some((_, _, best_age)) if best_age <= age => best,
        _ => Some((i, receive, age)),
    }
}

// The same, with slot i, if it has a receive that the packet fits.
#[inline(always)]
#[tactic(auto, unfolding(peer::specs::Matching::older_here, laws::specs::Choose::pick))]
fn older_here(
    best: Option<(usize, Receive, u64)>,
    i: usize,
    slot: &Slot,
    h: Incoming,
) -> Option<(usize, Receive, u64)>
    ensures { result ≡ older_here h best i slot.now.phase }
{
    match slot.phase {
        Phase::Posted(receive, age) if takes(receive, h) => older(best, i, receive, age),
        _ => best,
    }
}

// The message that is open here, in slot i, under an id.
#[inline(always)]
#[tactic(auto, unfolding(peer::specs::Matching::open_here, laws::specs::Choose::pick))]
fn open_under(slot: &Slot, id: u32, i: usize) -> Option<(usize, Inbound)>
    ensures { result ≡ open_here id i slot.now.phase }
{
    match slot.phase {
        Phase::Open(inbound) if inbound.message.id == id => Some((i, inbound)),
        _ => None,
    }
}

// The message that is open under an id among the slots, with its slot.
#[inline(always)]
#[tactic(auto, using(peer::proofs::Slots::SlotTurns::open_turn, peer::proofs::Slots::SlotTurns::open_end))]
pub(crate) fn find_open(slots: &[Slot], id: u32) -> Option<(usize, Inbound)>
    ensures { result ≡ find_open id 0 slots.now }
{
    for (i, slot) in slots.iter().enumerate() {
        let found = open_under(slot, id, i);
        if found.is_some() {
            return found;
        }
    }
    None
}

// The oldest receive among the slots that a packet fits, with its slot and its age.
#[inline(always)]
#[tactic(auto, using(peer::proofs::Slots::SlotTurns::oldest_turn, peer::proofs::Slots::SlotTurns::oldest_end))]
pub(crate) fn find_oldest(slots: &[Slot], h: Incoming) -> Option<(usize, Receive, u64)>
    ensures { result ≡ oldest h 0 None slots.now }
{
    let mut best = None;
    for (i, slot) in slots.iter().enumerate() {
        best = older_here(best, i, slot, h);
    }
    best
}
