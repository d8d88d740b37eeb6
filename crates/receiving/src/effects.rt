// A verdict is carried out: bytes and bits of a segment, and what it makes of its message.
// Area, words and reply are handed on one by one: a struct of `&mut` slices asks for a clause more on each
// function and for each slice, that it is the same slice still.
ghost use Rattle.std.specs.Prelude.{◌≡◌, ◌+◌, ◌*◌, ◌≤◌, length};
ghost use Rattle.receiving.specs.Preconditions.{MayGrant, Mapping, MayAccept, MayStore, MayBegin, MayCarry};
ghost use Rattle.peer.specs.Effects.{opened, extended, progress_of, finished, granting, holding, settled_as, accept, begun, carry};
ghost use Rattle.peer.specs.Judging.{judge};
ghost use Rattle.receiving.specs.Leaves.{packet_leaves, replies, segment_leaves};
ghost use Rattle.peer.specs.declared.types.Answer.{Answer};
ghost use Rattle.peer.specs.declared.types.Phase.{Phase};

use crate::{grants, judging, segment, shapes};
use peer::{
    Answer, Inbound, Incoming, Message, Peer, Phase, Progress, Receive, SlotStep, Step, Verdict,
};

// The message that a packet begins in this receive.
fn opened(receive: Receive, h: Incoming) -> Inbound
    ensures { result ≡ opened receive h }
{
    let message = Message {
        shape: h.shape,
        tagged: h.tagged,
        id: h.id,
        tag: h.tag,
        length: h.length,
        granted: h.size,
        send_id: h.send_id,
        credit_request: h.credit_request,
        cq_data: h.cq_data,
    };
    Inbound { receive, message }
}

// One search of the map: every byte is in, all that was granted is, or neither.
#[tactic(auto, unfolding(peer::specs::Effects::progress_of, laws::specs::Choose::pick))]
fn progress(inbound: Inbound, words: &[u64]) -> Progress
    requires { Mapping (length words.now) inbound }
    ensures { result ≡ progress_of words.now inbound }
{
    let Inbound { receive, message } = inbound;
    let first = bitmap::first_clear(words, receive.start, message.length);
    if first == message.length {
        Progress::Whole
    } else if shapes::is_long(message.shape) && message.granted <= first {
        Progress::Due
    } else {
        Progress::Partial
    }
}

// The granted end moves on by n.
fn extended(mut inbound: Inbound, n: usize) -> Inbound
    requires { inbound.message.granted + n ≤ inbound.message.length }
    ensures { result ≡ extended n inbound }
{
    inbound.message.granted += n;
    inbound
}

// Every byte of the message in slot i is in: the slot is freed.
fn finish(i: usize, inbound: Inbound) -> SlotStep
    ensures { result ≡ record { phase = (finished i inbound).phase; answer = (finished i inbound).answer } }
{
    let message = inbound.message;
    SlotStep {
        phase: Phase::Free,
        answer: Answer::Done {
            slot: i,
            id: message.id,
            length: message.length,
            cq_data: message.cq_data,
        },
    }
}

// The message waits for more.
fn hold(inbound: Inbound) -> SlotStep
    ensures { result ≡ record { phase = (holding inbound).phase; answer = (holding inbound).answer } }
{
    SlotStep {
        phase: Phase::Open(inbound),
        answer: Answer::Stored,
    }
}

// The message is granted more: a CTS is written, and its granted end moves on.
#[tactic(auto, using(crate::proofs::Asking::grant_one, peer::proofs::PeerSteps::Kept::grant_le))]
fn grant(limit: usize, inbound: Inbound, reply: &mut [u8]) -> SlotStep
    requires may_grant { MayGrant limit inbound.message }
    requires in_bounds { 24 ≤ length reply.old }
    ensures { record { step = result; reply = reply.new } ≡ replies reply.old (granting limit inbound) }
{
    let message = inbound.message;
    let n = grants::grant_of(message, limit);
    grants::write_cts(reply, message.send_id, message.id, n);
    SlotStep {
        phase: Phase::Open(extended(inbound, n)),
        answer: Answer::Granted(n),
    }
}

// What the map says of the message in slot i after a segment: done, granted or stored.
#[tactic(auto, using(crate::proofs::Asking::due_remains, laws::proofs::Storing::store_nothing), unfolding(peer::specs::Effects::settled_as))]
fn settle(limit: usize, i: usize, inbound: Inbound, words: &[u64], reply: &mut [u8]) -> SlotStep
    requires { MayAccept limit inbound (64 * length words.now) (length words.now) (length reply.old) }
    ensures { record { step = result; reply = reply.new } ≡ replies reply.old (settled_as limit i inbound (progress_of words.now inbound)) }
{
    match progress(inbound, words) {
        Progress::Whole => finish(i, inbound),
        Progress::Due => grant(limit, inbound, reply),
        Progress::Partial => hold(inbound),
    }
}

// A segment is written and marked, and its message settled.
#[tactic(auto, using(crate::proofs::Asking::within), unfolding(peer::specs::Effects::accept))]
fn accept(
    limit: usize,
    i: usize,
    inbound: Inbound,
    offset: usize,
    bytes: &[u8],
    area: &mut [u8],
    words: &mut [u64],
    reply: &mut [u8],
) -> SlotStep
    requires { MayStore limit inbound offset (length bytes.now) (length area.old) (length words.old) (length reply.old) }
    ensures { record { step = result; area = area.new; words = words.new; reply = reply.new } ≡ segment_leaves area.old reply.old (accept limit words.old i inbound offset bytes.now) }
{
    let at = inbound.receive.start + offset;
    segment::write_segment(area, at, bytes);
    bitmap::mark(words, at, bytes.len());
    settle(limit, i, inbound, words, reply)
}

// A message begins in the receive of slot i, whose bits are cleared first.
#[tactic(auto, unfolding(peer::specs::Effects::begun))]
fn begin(
    limit: usize,
    i: usize,
    receive: Receive,
    h: Incoming,
    bytes: &[u8],
    area: &mut [u8],
    words: &mut [u64],
    reply: &mut [u8],
) -> SlotStep
    requires { MayBegin limit receive h (length bytes.now) (length area.old) (length words.old) (length reply.old) }
    ensures { record { step = result; area = area.new; words = words.new; reply = reply.new } ≡ segment_leaves area.old reply.old (begun limit words.old i receive h bytes.now) }
{
    let inbound = opened(receive, h);
    bitmap::clear(words, receive.start, receive.capacity);
    accept(limit, i, inbound, h.offset, bytes, area, words, reply)
}

// The message is longer than the receive in slot i, which is freed.
fn truncate(i: usize, h: Incoming) -> SlotStep
    ensures { result ≡ record { phase = Phase.Free; answer = Answer.Truncated i h.id h.length } }
{
    SlotStep {
        phase: Phase::Free,
        answer: Answer::Truncated {
            slot: i,
            id: h.id,
            length: h.length,
        },
    }
}

// A packet is judged, and the verdict carried out; a match moves the next id on. The peer is put
// together here, once.
pub(crate) fn carry(
    peer: Peer,
    limit: usize,
    h: Incoming,
    bytes: &[u8],
    area: &mut [u8],
    words: &mut [u64],
    reply: &mut [u8],
) -> Step
    requires { MayCarry limit peer h (length bytes.now) (length area.old) (length words.old) (length reply.old) }
    ensures { record { step = result; area = area.new; words = words.new; reply = reply.new } ≡ packet_leaves area.old reply.old (carry limit peer words.old h bytes.now (judge peer words.old h)) }
{
    match judging::judge(&peer, h, words) {
        Verdict::Refuse(refusal) => peer.refused(refusal),
        Verdict::Truncate(i) => peer.advanced().stepped(i, truncate(i, h)),
        Verdict::Begin(i, receive) => {
            let step = begin(limit, i, receive, h, bytes, area, words, reply);
            peer.advanced().stepped(i, step)
        }
        Verdict::More(i, inbound) => {
            let step = accept(limit, i, inbound, h.offset, bytes, area, words, reply);
            peer.stepped(i, step)
        }
    }
}
