// The set-up.
ghost use Rattle.std.specs.Prelude.{◌≡◌, List, ℕ, length};
ghost use Rattle.engine.specs.SetUp.{not_started, set_up};

use crate::checks;
use crate::types::{Engine, Started};
use protocol::Refusal;

// A refusal, with an engine of no peers.
fn refused() -> Started
    ensures { (map : List ℕ) → record { started = result; map = map } ≡ not_started map }
{
    Started {
        answer: Err(Refusal::BadSetUp),
        engine: Engine::fresh(0, 0, 0),
    }
}

// The three numbers are handed in one by one, as `quagfeather_set_up` and the definition `set_up` have them.
//
// Starts an engine of n peers with `area` bytes each, for packets of at most `limit` bytes. The
// map is cleared, and the arena left.
pub fn set_up(n: usize, area: usize, limit: usize, arena: &[u8], map: &mut [u64]) -> Started
    ensures { record { started = result; map = map.new } ≡ set_up n area limit (length arena.now) map.old }
{
    if !checks::numbers_fit(n, area, limit) {
        return refused();
    }
    let words = map.len();
    if !checks::lent_fits(n, area, arena.len(), words) {
        return refused();
    }
    bitmap::clear(map, 0, words * 64);
    Started {
        answer: Ok(()),
        engine: Engine::fresh(n, area, limit),
    }
}
