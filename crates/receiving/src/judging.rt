// What is to be done with a packet: all its tests after the reader's. The area is not read.
ghost use Rattle.std.specs.Prelude.{◌≡◌, ◌+◌, true, length, nat_le};
ghost use Rattle.receiving.specs.Preconditions.{Placed, MayJudge};
ghost use Rattle.peer.specs.Matching.{same_message};
ghost use Rattle.peer.specs.Judging.{judge_more, judge_again, judge_data, judge_fit, judge_new, judge};

use crate::{matching, shapes};
use peer::{Inbound, Incoming, Peer, Receive, Verdict};
use protocol::Refusal;

// A segment of this message, which is open in slot i, is taken if none of its bytes is in.
#[inline(always)]
fn judge_more(inbound: Inbound, i: usize, h: Incoming, words: &[u64]) -> Verdict
    requires { Placed (length words.now) inbound h }
    ensures { result ≡ judge_more words.now i inbound h }
{
    let at = inbound.receive.start + h.offset;
    let size = h.size;
    if bitmap::is_touched(words, at, size) {
        Verdict::Refuse(Refusal::Repeated)
    } else {
        Verdict::More(i, inbound)
    }
}

// A packet that names this message by its id.
#[inline(always)]
#[tactic(auto, unfolding(peer::specs::Judging::judge_again, laws::specs::Choose::pick))]
fn judge_again(inbound: Inbound, i: usize, h: Incoming, words: &[u64]) -> Verdict
    requires { same_message inbound.message h ≡ true → Placed (length words.now) inbound h }
    ensures { result ≡ judge_again words.now i inbound h }
{
    if matching::goes_on(inbound.message, h) {
        judge_more(inbound, i, h, words)
    } else {
        Verdict::Refuse(Refusal::Differs)
    }
}

// CTSDATA that names this message.
#[inline(always)]
#[tactic(auto, unfolding(peer::specs::Judging::judge_data, laws::specs::Choose::pick))]
fn judge_data(inbound: Inbound, i: usize, h: Incoming, words: &[u64]) -> Verdict
    requires { nat_le (h.offset + h.size) inbound.message.granted ≡ true → Placed (length words.now) inbound h }
    ensures { result ≡ judge_data words.now i inbound h }
{
    let message = inbound.message;
    if !shapes::is_long(message.shape) {
        return Verdict::Refuse(Refusal::Late);
    }
    if wire::ends_by(h.offset, h.size, message.granted) {
        judge_more(inbound, i, h, words)
    } else {
        Verdict::Refuse(Refusal::BeyondGrant)
    }
}

// A packet with the next id, by the oldest receive that it fits.
#[inline(always)]
#[tactic(auto, unfolding(peer::specs::Judging::judge_fit, laws::specs::Choose::pick))]
fn judge_fit(fit: Option<(usize, Receive, u64)>, h: Incoming) -> Verdict
    ensures { result ≡ judge_fit h fit }
{
    match fit {
        None => Verdict::Refuse(Refusal::NoReceive),
        Some((i, receive, _)) if receive.capacity < h.length => Verdict::Truncate(i),
        Some((i, receive, _)) => Verdict::Begin(i, receive),
    }
}

// A packet whose id is open nowhere.
#[inline(always)]
#[tactic(auto, unfolding(peer::specs::Judging::judge_new, laws::specs::Choose::pick))]
fn judge_new(peer: &Peer, h: Incoming) -> Verdict
    ensures { result ≡ judge_new peer.now h }
{
    let ahead = matching::ahead_of(h.id, peer.next);
    if 0x8000_0000 <= ahead {
        return Verdict::Refuse(Refusal::Late);
    }
    if 1 <= ahead {
        return Verdict::Refuse(Refusal::Early);
    }
    judge_fit(matching::find_oldest(&peer.slots, h), h)
}

// A packet that was read.
#[inline(always)]
pub(crate) fn judge(peer: &Peer, h: Incoming, words: &[u64]) -> Verdict
    requires { MayJudge (length words.now) peer.now h }
    ensures { result ≡ judge peer.now words.now h }
{
    let rtm = shapes::is_rtm(h.shape);
    match matching::find_open(&peer.slots, h.id) {
        Some((i, inbound)) if rtm => judge_again(inbound, i, h, words),
        Some((i, inbound)) => judge_data(inbound, i, h, words),
        None if rtm => judge_new(peer, h),
        None => Verdict::Refuse(Refusal::Late),
    }
}
