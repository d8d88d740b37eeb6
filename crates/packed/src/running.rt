// Calls run one after the other: each is read, made, and its answer written. The state is checked
// once: a call of an engine whose state can be leaves one whose state can be.
ghost use Rattle.std.specs.Prelude.{◌≡◌, ◌*◌};
ghost use Rattle.engine.specs.Leaves.{world};
ghost use Rattle.packed.specs.Calls.{words_each};
ghost use Rattle.packed.specs.Running.{budget_of, ran_from, run_of};
ghost use Rattle.engine.specs.Sentences.{Eights};

use crate::types::{Ran, WORDS};
use crate::{answers, calls};
use engine::Engine;

// How many calls there are words for, and for their answers.
fn budget(calls: usize, answers: usize) -> usize
    ensures { result ≡ budget_of calls answers }
{
    (calls / WORDS).min(answers / WORDS)
}

fn run_calls(
    start: Engine,
    arena: &mut [u8],
    map: &mut [u64],
    calls: &[u64],
    bytes: &[u8],
    replies: &mut [u8],
    answers: &mut [u64],
) -> Ran
    requires { Eights start }
    ensures { record { world = world result.engine arena.new map.new; taken = result.taken; replies = replies.new; output = answers.new; place = words_each * result.taken } ≡ ran_from (world start arena.old map.old) calls.now bytes.now replies.old answers.old }
{
    let good = engine::fits(&start);
    let most = budget(calls.len(), answers.len());
    let mut engine = start;
    let mut at: usize = 0;
    for taken in 0..most {
        let Some(request) = calls::request_at(calls, at, bytes.len(), replies.len()) else {
            return Ran { engine, taken };
        };
        let answer = turns::turn(&mut engine, good, request, bytes, arena, map, replies);
        at = answers::put_answer(answers, at, answer);
    }
    Ran {
        engine,
        taken: most,
    }
}

// Runs calls on the engine whose state the words are, and answers how many it ran. Words that are
// no state's are refused by each call, and stay.
pub fn run(
    state: &mut [u64],
    arena: &mut [u8],
    map: &mut [u64],
    calls: &[u64],
    bytes: &[u8],
    replies: &mut [u8],
    answers: &mut [u64],
) -> usize
    ensures { record { taken = result; state = state.new; arena = arena.new; map = map.new; replies = replies.new; answers = answers.new } ≡ run_of state.old arena.old map.old calls.now bytes.now replies.old answers.old }
{
    let Some(start) = state_words::load(state) else {
        return run_calls(
            Engine::fresh(0, 0, 0),
            arena,
            map,
            calls,
            bytes,
            replies,
            answers,
        )
        .taken;
    };
    let ran = run_calls(start, arena, map, calls, bytes, replies, answers);
    let after = ran.engine;
    state_words::save(state, after);
    ran.taken
}
