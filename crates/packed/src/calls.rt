// A call, read from its eight words.
ghost use Rattle.std.specs.Prelude.{◌≡◌, ◌+◌, ◌≤◌, length};
ghost use Rattle.packed.specs.Calls.{packed_packet, packed_post, request_at, words_each};

// A call's words are a slice and a place, and no array of 8: the definitions (`request_at`) read them at a place of all.
use peer::{Call, LocalCall, Receive, Request};
use protocol::Span;

#[tactic(auto, unfolding(crate::specs::Calls::packed_post, laws::specs::Choose::pick))]
fn post_at(calls: &[u64], at: usize) -> Option<Request>
    requires { at + words_each ≤ length calls.now }
    ensures { result ≡ packed_post calls.now at }
{
    let kind = calls[at + 2];
    if 1 < kind {
        return None;
    }
    let peer = calls[at + 1] as usize;
    let receive = Receive {
        tagged: kind == 1,
        tag: calls[at + 3],
        ignore: calls[at + 4],
        start: calls[at + 5] as usize,
        capacity: calls[at + 6] as usize,
    };
    let call = Call::Local(LocalCall::Post(receive));
    Some(Request { peer, call })
}

// A packet lies in the lent bytes, and its reply buffer in the lent replies.
#[tactic(auto, unfolding(crate::specs::Calls::packed_packet, laws::specs::Choose::pick))]
fn packet_at(calls: &[u64], at: usize, bytes: usize, replies: usize) -> Option<Request>
    requires { at + words_each ≤ length calls.now }
    ensures { result ≡ packed_packet calls.now bytes replies at }
{
    let peer = calls[at + 1] as usize;
    let place = calls[at + 2] as usize;
    let size = calls[at + 3] as usize;
    let start = calls[at + 4] as usize;
    let room = calls[at + 5] as usize;
    if !wire::ends_by(place, size, bytes) {
        return None;
    }
    if !wire::ends_by(start, room, replies) {
        return None;
    }
    let sent = Span { at: place, size };
    let reply = Span {
        at: start,
        size: room,
    };
    let call = Call::Packet(sent, reply);
    Some(Request { peer, call })
}

// The call of the words from `at` on, where so many bytes and reply bytes are lent.
// The kinds are the numbers of `quagfeather_run`'s words.
#[tactic(auto, unfolding(crate::specs::Calls::request_at, laws::specs::Choose::pick))]
pub(crate) fn request_at(calls: &[u64], at: usize, bytes: usize, replies: usize) -> Option<Request>
    requires { at + words_each ≤ length calls.now }
    ensures { result ≡ request_at calls.now bytes replies at }
{
    let peer = calls[at + 1] as usize;
    let slot = calls[at + 2] as usize;
    match calls[at] {
        1 => post_at(calls, at),
        2 => packet_at(calls, at, bytes, replies),
        3 => {
            let call = Call::Local(LocalCall::Cancel(slot));
            Some(Request { peer, call })
        }
        4 => {
            let call = Call::Local(LocalCall::Report(slot));
            Some(Request { peer, call })
        }
        _ => None,
    }
}
