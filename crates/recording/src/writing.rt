// Writing a trace, for whoever records a run.
ghost use Rattle.std.specs.Prelude.{◌++◌, ◌≡◌, ◌+◌, ◌≤◌, length};
ghost use Rattle.laws.specs.Parts.{store_at};
ghost use Rattle.trace.specs.Recorded.{numbers_bytes, set_up_bytes, post_entry, packet_entry, cancel_entry};
ghost use Rattle.recording.specs.Writing.{wrote};

use crate::number;
use peer::Receive;

// How many bytes the numbers take.
fn numbers_size(numbers: &[u64]) -> usize
    requires { length numbers.now ≤ 8 }
    ensures { result ≡ length (numbers_bytes numbers.now) }
{
    let mut size: usize = 0;
    for number in numbers {
        size += number::size(*number);
    }
    size
}

// Puts the numbers at a place, and answers the place behind them.
fn put_numbers(out: &mut [u8], at: usize, numbers: &[u64]) -> usize
    requires { at + length (numbers_bytes numbers.now) ≤ length out.old }
    ensures value { result ≡ at + length (numbers_bytes numbers.now) }
    ensures out_after { out.new ≡ store_at out.old at (numbers_bytes numbers.now) }
{
    let mut next = at;
    for number in numbers {
        next = number::put(out, next, *number);
    }
    next
}

// Numbers, and bytes behind them, at a place of a buffer.
fn write(numbers: &[u64], bytes: &[u8], out: &mut [u8], at: usize) -> Option<usize>
    requires { length numbers.now ≤ 8 }
    ensures { record { written = result; out = out.new } ≡ wrote out.old at (numbers_bytes numbers.now ++ bytes.now) }
{
    if out.len() < at {
        return None;
    }
    let room = out.len() - at;
    let size = numbers_size(numbers);
    if room < size {
        return None;
    }
    if room - size < bytes.len() {
        return None;
    }
    let next = put_numbers(out, at, numbers);
    Some(wire::write_bytes(out, next, bytes))
}

// The first three numbers of a trace.
pub fn write_set_up(n: usize, area: usize, limit: usize, out: &mut [u8], at: usize) -> Option<usize>
    ensures { record { written = result; out = out.new } ≡ wrote out.old at (set_up_bytes n area limit) }
{
    write(&[n as u64, area as u64, limit as u64], b"", out, at)
}

pub fn write_post(peer: usize, receive: Receive, out: &mut [u8], at: usize) -> Option<usize>
    ensures { record { written = result; out = out.new } ≡ wrote out.old at (post_entry peer receive) }
{
    let kind = u64::from(receive.tagged);
    let numbers = [
        1,
        peer as u64,
        kind,
        receive.tag,
        receive.ignore,
        receive.start as u64,
        receive.capacity as u64,
    ];
    write(&numbers, b"", out, at)
}

pub fn write_packet(peer: usize, bytes: &[u8], out: &mut [u8], at: usize) -> Option<usize>
    ensures { record { written = result; out = out.new } ≡ wrote out.old at (packet_entry peer bytes.now) }
{
    write(&[2, peer as u64, bytes.len() as u64], bytes, out, at)
}

pub fn write_cancel(peer: usize, slot: usize, out: &mut [u8], at: usize) -> Option<usize>
    ensures { record { written = result; out = out.new } ≡ wrote out.old at (cancel_entry peer slot) }
{
    write(&[3, peer as u64, slot as u64], b"", out, at)
}
