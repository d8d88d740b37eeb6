// The checks of a call by themselves: whoever makes many calls on one engine checks the state once,
// and hands the result to the gate of each.
ghost use Rattle.std.specs.Prelude.{◌≡◌, ◌&&◌, take};
ghost use Rattle.engine.specs.Gates.{gate_of};
ghost use Rattle.engine.specs.SetUp.{all_peers_fit, engine_fits, numbers_fit};

use crate::checks;
use crate::types::Engine;
use peer::Peer;
use protocol::Refusal;

// Whether each of the first n peers can be.
fn peers_fit(peers: &[Peer], n: usize, area: usize) -> bool
    ensures { result ≡ all_peers_fit area (take n peers.now) }
{
    peers
        .iter()
        .take(n)
        .all(|peer| state_check::fits(peer, area))
}

// Whether the state can be.
#[tactic(auto, unfolding(crate::specs::SetUp::engine_fits))]
pub fn fits(engine: &Engine) -> bool
    ensures { result ≡ engine_fits engine.now }
{
    let n = engine.n;
    let area = engine.area;
    checks::numbers_fit(n, area, engine.limit) && peers_fit(&engine.peers, n, area)
}

// Whether a call of a peer goes through, by what the check of the state said, the set-up numbers, the
// lengths of arena and map and the peer's number. It takes the numbers and no engine, so that whoever
// keeps the numbers alone can ask.
#[tactic(auto, using(crate::proofs::CheckLaws::small), unfolding(crate::specs::Gates::gate_of, laws::specs::Choose::pick))]
pub fn admit(
    good: bool,
    n: usize,
    area: usize,
    limit: usize,
    arena: usize,
    map: usize,
    peer: usize,
) -> Result<(), Refusal>
    ensures { result ≡ gate_of (good && numbers_fit n area limit) n area arena map peer }
{
    if !good {
        return Err(Refusal::BadState);
    }
    let numbers = checks::numbers_fit(n, area, limit);
    checks::gate(numbers, n, area, arena, map, peer)
}
