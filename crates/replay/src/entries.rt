// The entries of a trace, one after the other.
ghost use Rattle.std.specs.Prelude.{◌≡◌, ◌+◌, ◌*◌, ◌≤◌, length, true};
ghost use Rattle.engine.specs.Sentences.{Eights};
ghost use Rattle.engine.specs.Leaves.{world};
ghost use Rattle.engine.specs.SetUp.{engine_fits};
ghost use Rattle.replay.specs.Decoding.{decode, ending_at, with_buffer};
ghost use Rattle.replay.specs.Replaying.{ran};

use crate::lines;
use crate::types::{Ending, Replayed};
use engine::Engine;
use peer::{Call, Request};
use protocol::Span;

// Runs at most `budget` entries from a place of the trace on, and puts a line for each into the text.
// The state is one that can be: each call leaves one that can be, so that none is checked again.
pub(crate) fn run(
    start: Engine,
    trace: &[u8],
    from: usize,
    budget: usize,
    arena: &mut [u8],
    map: &mut [u64],
    reply: &mut [u8],
    text: &mut [u8],
    at: usize,
) -> Replayed
    requires eights { Eights start }
    requires start_value { engine_fits start ≡ true }
    requires budget_in_bounds { at + 80 * budget ≤ length text.old }
    ensures { record { replayed = result; arena = arena.new; map = map.new; reply = reply.new; text = text.new } ≡ ran trace.now reply.old (world start arena.old map.old) text.old at (decode budget trace.now reply.old from) }
{
    let mut engine = start;
    let mut place = from;
    let mut written = at;
    let mut taken: usize = 0;
    // a `while`: the entries differ in length, and either the budget or the trace ends it
    // (a `for` over the budget would tell the trace's end at a second place)
    while taken < budget && place < trace.len() {
        let Some((request, next)) = trace_reader::read_entry(trace, place) else {
            let ending = Ending::Bad(place);
            return Replayed {
                taken,
                written,
                ending,
            };
        };
        let call = with_buffer(request.call, reply.len());
        let peer = request.peer;
        let lent = Request { peer, call };
        let answer = turns::turn(&mut engine, true, lent, trace, arena, map, reply);
        written = lines::put_answer(text, written, answer);
        place = next;
        taken += 1;
    }
    Replayed {
        taken,
        written,
        ending: ending(place, trace.len()),
    }
}

// A recorded call, with the whole reply buffer, of so many bytes, lent to its packet.
fn with_buffer(recorded: Call, room: usize) -> Call
    ensures { result ≡ with_buffer room recorded }
{
    match recorded {
        Call::Local(local) => Call::Local(local),
        Call::Packet(sent, _) => {
            let whole = Span { at: 0, size: room };
            Call::Packet(sent, whole)
        }
    }
}

// Whether the trace ended, or entries are left.
#[tactic(auto, unfolding(laws::specs::Choose::pick))]
fn ending(place: usize, length: usize) -> Ending
    ensures { result ≡ ending_at place length }
{
    if place < length {
        Ending::Stopped
    } else {
        Ending::End
    }
}
