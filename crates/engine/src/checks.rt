// The checks on numbers and lengths. The one that looks at peers is `fits`, in `run_checks`.
ghost use Rattle.std.specs.Prelude.{◌≡◌, true};
ghost use Rattle.engine.specs.Gates.{SmallArena, gate_of};
ghost use Rattle.engine.specs.SetUp.{numbers_fit, lent_fits};

use crate::types::Engine;
use peer::Peer;
use protocol::{PACKET_LIMIT, Refusal};

// The limits of the three set-up numbers.
#[tactic(auto, unfolding(crate::specs::SetUp::numbers_fit))]
pub fn numbers_fit(n: usize, area: usize, limit: usize) -> bool
    ensures { result ≡ numbers_fit n area limit }
{
    1 <= n
        && n <= Engine::PEERS
        && 64 <= area
        && area <= Peer::AREA_LIMIT
        && area % 64 == 0
        && 64 <= limit
        && limit <= PACKET_LIMIT
}

// Whether arena and map have the lengths that the set-up numbers ask for.
#[tactic(auto, unfolding(crate::specs::SetUp::lent_fits))]
pub(crate) fn lent_fits(n: usize, area: usize, arena: usize, map: usize) -> bool
    requires { SmallArena n area }
    ensures { result ≡ lent_fits n area arena map }
{
    arena == n * area && map == n * (area / 64)
}

// The refusals 2, 3 and 4, in this order.
#[tactic(auto, unfolding(crate::specs::Gates::gate_of, laws::specs::Choose::pick))]
pub(crate) fn gate(
    fits: bool,
    n: usize,
    area: usize,
    arena: usize,
    map: usize,
    peer: usize,
) -> Result<(), Refusal>
    requires { fits ≡ true → SmallArena n area }
    ensures { result ≡ gate_of fits n area arena map peer }
{
    if !fits {
        return Err(Refusal::BadState);
    }
    if !lent_fits(n, area, arena, map) {
        return Err(Refusal::BadLent);
    }
    if n <= peer {
        return Err(Refusal::BadPeer);
    }
    Ok(())
}
