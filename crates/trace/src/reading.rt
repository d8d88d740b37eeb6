// The set-up numbers and the entries, at a place of a slice: each with the place behind it, or nothing where it is bad.
ghost use Rattle.std.specs.Prelude.{◌≡◌};
ghost use Rattle.trace.specs.Entries.{pair_at, set_up_at, receive_at, post_at, packet_at, cancel_at, entry_at};

use crate::number::number_at;
use crate::types::SetUp;
use peer::{Call, LocalCall, Receive, Request};
use protocol::Span;

#[tactic(auto, unfolding(crate::specs::Entries::pair_at))]
fn pair_at(s: &[u8], at: usize) -> Option<(u64, u64, usize)>
    ensures { result ≡ pair_at s.now at }
{
    let (a, next) = number_at(s, at)?;
    let (b, end) = number_at(s, next)?;
    Some((a, b, end))
}

// The first three numbers of a trace.
#[tactic(auto, unfolding(crate::specs::Entries::set_up_at))]
pub fn set_up_at(s: &[u8], at: usize) -> Option<(SetUp, usize)>
    ensures { result ≡ set_up_at s.now at }
{
    let (n, area, next) = pair_at(s, at)?;
    let (limit, end) = number_at(s, next)?;
    let set_up = SetUp {
        n: n as usize,
        area: area as usize,
        limit: limit as usize,
    };
    Some((set_up, end))
}

// The receive of a post, behind its peer and its kind.
#[tactic(auto, unfolding(crate::specs::Entries::receive_at))]
fn receive_at(s: &[u8], at: usize, kind: u64) -> Option<(Receive, usize)>
    ensures { result ≡ receive_at s.now at kind }
{
    let (tag, ignore, next) = pair_at(s, at)?;
    let (start, capacity, end) = pair_at(s, next)?;
    let receive = Receive {
        tagged: kind == 1,
        tag,
        ignore,
        start: start as usize,
        capacity: capacity as usize,
    };
    Some((receive, end))
}

#[tactic(auto, unfolding(crate::specs::Entries::post_at, laws::specs::Choose::pick))]
fn post_at(s: &[u8], at: usize) -> Option<(Request, usize)>
    ensures { result ≡ post_at s.now at }
{
    let (peer, kind, next) = pair_at(s, at)?;
    if 1 < kind {
        return None;
    }
    let (receive, end) = receive_at(s, next, kind)?;
    let request = Request {
        peer: peer as usize,
        call: Call::Local(LocalCall::Post(receive)),
    };
    Some((request, end))
}

#[tactic(auto, unfolding(crate::specs::Entries::packet_at, laws::specs::Choose::pick))]
fn packet_at(s: &[u8], at: usize) -> Option<(Request, usize)>
    ensures { result ≡ packet_at s.now at }
{
    let (peer, size, next) = pair_at(s, at)?;
    let count = size as usize;
    if s.len() - next < count {
        return None;
    }
    let sent = Span {
        at: next,
        size: count,
    };
    let reply = Span { at: 0, size: 0 };
    let request = Request {
        peer: peer as usize,
        call: Call::Packet(sent, reply),
    };
    Some((request, next + count))
}

#[tactic(auto, unfolding(crate::specs::Entries::cancel_at))]
fn cancel_at(s: &[u8], at: usize) -> Option<(Request, usize)>
    ensures { result ≡ cancel_at s.now at }
{
    let (peer, slot, next) = pair_at(s, at)?;
    let request = Request {
        peer: peer as usize,
        call: Call::Local(LocalCall::Cancel(slot as usize)),
    };
    Some((request, next))
}

// Entries have the numbers of 01's trace.
// The entry at a place. A packet's bytes lie in the trace, and its reply buffer is left empty: whoever makes the
// call lends one.
#[tactic(auto, unfolding(crate::specs::Entries::entry_at, laws::specs::Choose::pick))]
pub fn entry_at(s: &[u8], at: usize) -> Option<(Request, usize)>
    ensures { result ≡ entry_at s.now at }
{
    let (first, next) = number_at(s, at)?;
    match first {
        1 => post_at(s, next),
        2 => packet_at(s, next),
        3 => cancel_at(s, next),
        _ => None,
    }
}
