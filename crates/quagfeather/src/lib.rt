// The functions that programs in other languages link: numbers and slices, each slice as a pointer and
// a length. What a `requires` would ask is asked of none of them. Where a function answers 0 or the
// number of a refusal, a refusal leaves everything as it was.
#![tactic(auto)]

ghost use Rattle.std.specs.Prelude.{◌≡◌, length};
ghost use Rattle.packet_words.specs.Values.{read_into};
ghost use Rattle.packet_words.specs.Writing.{write_from};
ghost use Rattle.packed.specs.Running.{run_of};
ghost use Rattle.packed.specs.Starting.{start_of};
ghost use Rattle.replay.specs.Replaying.{replay_of};
ghost use Rattle.quagfeather.specs.Exported.{in_map, mark_of, mark_untested_of, overlap_test_of, texts};

use engine::Engine;
use peer::Peer;

// The most words of a map: a bit for each byte of the largest arena.
const MAP: usize = Engine::PEERS * Peer::AREA_LIMIT / 64;

// 01's numbers of these refusals, as callers in other languages are told them.
const BAD_MAP: usize = 3;

const TOUCHED: usize = 16;

// Sets an engine up: the map is cleared, and the engine's state written to 1,035 words.
#[unsafe(no_mangle)]
pub extern "C" fn quagfeather_set_up(
    n: usize,
    area: usize,
    limit: usize,
    arena: &[u8],
    map: &mut [u64],
    state: &mut [u64],
) -> usize
    ensures { record { refusal = result; map = map.new; state = state.new } ≡ start_of n area limit (length arena.now) map.old state.old }
{
    packed::set_up(n, area, limit, arena, map, state)
}

// Runs calls, eight words each, writes their answers, and answers how many it ran.
#[unsafe(no_mangle)]
pub extern "C" fn quagfeather_run(
    state: &mut [u64],
    arena: &mut [u8],
    map: &mut [u64],
    calls: &[u64],
    bytes: &[u8],
    replies: &mut [u8],
    answers: &mut [u64],
) -> usize
    ensures { record { taken = result; state = state.new; arena = arena.new; map = map.new; replies = replies.new; answers = answers.new } ≡ run_of state.old arena.old map.old calls.now bytes.now replies.old answers.old }
{
    packed::run(state, arena, map, calls, bytes, replies, answers)
}

// Reads a packet of at most 8,192 bytes into 19 words.
#[unsafe(no_mangle)]
pub extern "C" fn quagfeather_read(packet: &[u8], values: &mut [u64]) -> usize
    ensures { record { refusal = result; values = values.new } ≡ read_into packet.now values.old }
{
    packet_words::read(packet, values)
}

// Writes the packet that 19 words, a raw address and data say, and its length.
#[unsafe(no_mangle)]
pub extern "C" fn quagfeather_write(
    values: &[u64],
    raw_address: &[u8],
    data: &[u8],
    out: &mut [u8],
    size: &mut usize,
) -> usize
    ensures { record { refusal = result; out = out.new; size = size.new } ≡ write_from values.now raw_address.now «data».now out.old size.old }
{
    packet_words::write(values, raw_address, data, out, size)
}

// Whether a range of bits lies in a map of so many words, no longer than a set-up's.
fn in_map(words: usize, at: usize, count: usize) -> bool
    ensures { result ≡ in_map words at count }
{
    if MAP < words {
        return false;
    }
    wire::ends_by(at, count, 64 * words)
}

// Whether one of a range of a map's bits is set: the overlap test by itself.
#[unsafe(no_mangle)]
pub extern "C" fn quagfeather_overlap_test(map: &[u64], at: usize, count: usize) -> usize
    ensures { result ≡ overlap_test_of map.now at count }
{
    if !in_map(map.len(), at, count) {
        return BAD_MAP;
    }
    if bitmap::is_touched(map, at, count) {
        return TOUCHED;
    }
    0
}

// Marks a range of a map's bits, set or not: marking by itself.
#[unsafe(no_mangle)]
pub extern "C" fn quagfeather_mark_untested(map: &mut [u64], at: usize, count: usize) -> usize
    ensures { record { refusal = result; map = map.new } ≡ mark_untested_of map.old at count }
{
    if !in_map(map.len(), at, count) {
        return BAD_MAP;
    }
    bitmap::mark(map, at, count);
    0
}

// Marks a range of a map's bits, unless one of them is set: the test, and then the marks.
#[unsafe(no_mangle)]
pub extern "C" fn quagfeather_mark(map: &mut [u64], at: usize, count: usize) -> usize
    ensures { record { refusal = result; map = map.new } ≡ mark_of map.old at count }
{
    let tested = quagfeather_overlap_test(map, at, count);
    if tested != 0 {
        return tested;
    }
    quagfeather_mark_untested(map, at, count)
}

// Replays at most `budget` entries of a trace, and answers how many bytes of text it wrote. A text
// shorter than 64 + 80 × budget bytes is refused: nothing is written.
#[unsafe(no_mangle)]
pub extern "C" fn quagfeather_replay(
    trace: &[u8],
    budget: usize,
    arena: &mut [u8],
    map: &mut [u64],
    reply: &mut [u8],
    text: &mut [u8],
) -> usize
    ensures { record { written = result; arena = arena.new; map = map.new; reply = reply.new; text = text.new } ≡ texts (replay_of trace.now budget arena.old map.old reply.old text.old) }
{
    let replayed = replay::replay(trace, budget, arena, map, reply, text);
    replayed.written
}
