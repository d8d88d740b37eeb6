// The whole of a replay: the set-up, the entries, and the first and the last line.
ghost use Rattle.std.specs.Prelude.{List, ◌≡◌, ℕ, ◌+◌, ◌*◌, ◌≤◌, length};
ghost use Rattle.replay.specs.Lines.{ending_line};
ghost use Rattle.replay.specs.Replaying.{told, replay_from, lent_of, has_room, replay_of};

use crate::types::{Ending, Replayed};
use crate::{entries, lines};
use engine::Engine;
use peer::Peer;
use trace::SetUp;

// The room for the first and the last line, and for the line of an entry.
const ENDS: usize = 64;

const LINE: usize = 80;

// How many elements are lent on, of those that are there.
#[tactic(auto, unfolding(crate::specs::Replaying::lent_of, laws::specs::Choose::pick))]
fn lent(n: usize, each: usize, there: usize) -> usize
    ensures { result ≡ lent_of n each there }
{
    if Engine::PEERS < n {
        return 0;
    }
    if Peer::AREA_LIMIT < each {
        return 0;
    }
    if there < n * each {
        return 0;
    }
    n * each
}

// Whether a text of that many bytes is long enough for so many entries.
#[tactic(auto, using(crate::proofs::RoomLaws::room_by_lines), unfolding(crate::specs::Replaying::has_room))]
fn has_room(budget: usize, text: usize) -> bool
    ensures { result ≡ has_room budget text }
{
    if text < ENDS {
        return false;
    }
    budget <= (text - ENDS) / LINE
}

// A text of the last line alone.
fn tell(text: &mut [u8], ending: Ending) -> Replayed
    requires { length (ending_line 0 ending) ≤ length text.old }
    ensures { (arena map reply : List ℕ) → record { replayed = result; arena = arena; map = map; reply = reply; text = text.new } ≡ told arena map reply text.old ending }
{
    Replayed {
        taken: 0,
        written: lines::put_ending(text, 0, 0, ending),
        ending,
    }
}

// Sets the engine up, and runs what the trace records from a place on.
fn begin(
    set_up: SetUp,
    trace: &[u8],
    from: usize,
    budget: usize,
    arena: &mut [u8],
    map: &mut [u64],
    reply: &mut [u8],
    text: &mut [u8],
) -> Replayed
    requires { 64 + 80 * budget ≤ length text.old }
    ensures { record { replayed = result; arena = arena.new; map = map.new; reply = reply.new; text = text.new } ≡ replay_from set_up.n set_up.area set_up.limit trace.now from budget arena.old map.old reply.old text.old }
{
    let SetUp { n, area, limit } = set_up;
    let started = engine::set_up(n, area, limit, arena, map);
    let answer = started.answer;
    let engine = started.engine;
    match answer {
        Err(refusal) => tell(text, Ending::NotSetUp(refusal)),
        Ok(()) => {
            let first = text::put_line(text, 0, b"setup ok", &[]);
            let ran = entries::run(engine, trace, from, budget, arena, map, reply, text, first);
            let taken = ran.taken;
            let ending = ran.ending;
            Replayed {
                taken,
                written: lines::put_ending(text, ran.written, taken, ending),
                ending,
            }
        }
    }
}

// Replays a trace, at most `budget` entries of it, and writes the text about it. The first bytes of
// the arena and the first words of the map are lent to the engine, as many as the trace's set-up
// numbers ask for.
pub fn replay(
    trace: &[u8],
    budget: usize,
    arena: &mut [u8],
    map: &mut [u64],
    reply: &mut [u8],
    text: &mut [u8],
) -> Replayed
    ensures { record { replayed = result; arena = arena.new; map = map.new; reply = reply.new; text = text.new } ≡ replay_of trace.now budget arena.old map.old reply.old text.old }
{
    if !has_room(budget, text.len()) {
        return Replayed {
            taken: 0,
            written: 0,
            ending: Ending::NoRoom,
        };
    }
    let Some((set_up, next)) = trace_reader::read_set_up(trace) else {
        return tell(text, Ending::Bad(0));
    };
    let bytes = lent(set_up.n, set_up.area, arena.len());
    let words = lent(set_up.n, set_up.area / 64, map.len());
    begin(
        set_up,
        trace,
        next,
        budget,
        &mut arena[..bytes],
        &mut map[..words],
        reply,
        text,
    )
}
