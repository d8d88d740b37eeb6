// An open message by itself, and two of them.
ghost use Rattle.std.specs.Prelude.{◌≡◌};
ghost use Rattle.peer.specs.State.{phase_fits, clash};

use peer::{Inbound, Phase};

// Whether the receive lies in the area, the message in the receive, and its granted end in the message.
#[inline(always)]
#[tactic(auto, unfolding(peer::specs::State::phase_fits))]
pub(crate) fn fits(inbound: Inbound, area: usize) -> bool
    ensures { result ≡ phase_fits area (Phase.Open inbound) }
{
    let Inbound { receive, message } = inbound;
    wire::ends_by(receive.start, receive.capacity, area)
        && message.length <= receive.capacity
        && message.granted <= message.length
}

// Whether two open messages have ranges that share a byte, or one id.
#[inline(always)]
#[tactic(auto, unfolding(peer::specs::State::clash))]
pub(crate) fn clashes(inbound: Inbound, other: Inbound) -> bool
    ensures { result ≡ clash (Phase.Open inbound) (Phase.Open other) }
{
    inbound.receive.overlaps(other.receive) || inbound.message.id == other.message.id
}
