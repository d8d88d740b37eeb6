// The set-up, which writes a fresh engine's state.
ghost use Rattle.std.specs.Prelude.{◌≡◌, length};
ghost use Rattle.packed.specs.Starting.{start_of};

use protocol::Refusal;

// Clears the map and writes the state of an engine of n peers, and answers 0; or answers the number
// of a refusal, and leaves map and state.
// It answers a number and no `Result`, since `quagfeather_set_up` answers it as it is.
pub fn set_up(
    n: usize,
    area: usize,
    limit: usize,
    arena: &[u8],
    map: &mut [u64],
    state: &mut [u64],
) -> usize
    ensures { record { refusal = result; map = map.new; state = state.new } ≡ start_of n area limit (length arena.now) map.old state.old }
{
    if state.len() != state_words::STATE {
        return Refusal::BadSetUp.number() as usize;
    }
    let started = engine::set_up(n, area, limit, arena, map);
    let answer = started.answer;
    let engine = started.engine;
    match answer {
        Err(refusal) => refusal.number() as usize,
        Ok(()) => {
            state_words::save(state, engine);
            0
        }
    }
}
