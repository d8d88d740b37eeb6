// One call of a run, on an engine whose state was checked once: the gate, the peer's step, and the peer put back. It serves
// `replay` and `packed`, whose loops keep what it asks. `calls`, which stands below `guarantees`, checks the state at each call and
// has a gate and a step of its own.
#![tactic(auto)]

ghost use Rattle.std.specs.Prelude.{◌≡◌, length, true, Ok};
ghost use Rattle.laws.specs.Parts.{store_at};
ghost use Rattle.peer.specs.LentCalls.{LiesWithin, reply_place};
ghost use Rattle.engine.specs.Leaves.{world};
ghost use Rattle.engine.specs.Sentences.{Eights};
ghost use Rattle.engine.specs.Gates.{gate_of};
ghost use Rattle.engine.specs.SetUp.{engine_fits};
ghost use Rattle.guarantees.specs.Receiving.{request_of, turn_of};

use engine::Engine;
use peer::{Answer, Request};

// Makes a call, whose packet lies in `bytes` and whose reply buffer in `replies`. What the check of the state said of the engine
// is `good`, and it would say the same of the engine that the call leaves.
#[inline(always)]
pub fn turn(
    engine: &mut Engine,
    good: bool,
    request: Request,
    bytes: &[u8],
    arena: &mut [u8],
    map: &mut [u64],
    replies: &mut [u8],
) -> Answer
    requires eights { Eights engine.old }
    requires state { engine_fits engine.old ≡ good }
    requires lies_within { LiesWithin (length bytes.now) (length replies.old) request.call }
    ensures world_after { world engine.new arena.new map.new ≡ (turn_of (world engine.old arena.old map.old) (request_of bytes.now replies.old request)).world }
    ensures answer { result ≡ (turn_of (world engine.old arena.old map.old) (request_of bytes.now replies.old request)).answer }
    ensures replied { replies.new ≡ store_at replies.old (reply_place request.call) (turn_of (world engine.old arena.old map.old) (request_of bytes.now replies.old request)).reply }
    ensures eights_after { Eights engine.new }
    ensures state_after { engine_fits engine.new ≡ good }
{
    let p = request.peer;
    let n = engine.n;
    let area = engine.area;
    let limit = engine.limit;
    match engine::admit(good, n, area, limit, arena.len(), map.len(), p) {
        Err(refusal) => Answer::Refused(refusal),
        Ok(()) => passed(engine, request, bytes, arena, map, replies),
    }
}

// Makes a call that the gate let through. It is a function of its own for its step: a function clears room for its locals as it
// begins, and in `turn` a call that is refused would pay for that too.
#[inline(always)]
fn passed(
    engine: &mut Engine,
    request: Request,
    bytes: &[u8],
    arena: &mut [u8],
    map: &mut [u64],
    replies: &mut [u8],
) -> Answer
    requires eights { Eights engine.old }
    requires gate { gate_of (engine_fits engine.old) engine.old.n engine.old.area (length arena.old) (length map.old) request.peer ≡ Ok tt }
    requires lies_within { LiesWithin (length bytes.now) (length replies.old) request.call }
    ensures world_after { world engine.new arena.new map.new ≡ (turn_of (world engine.old arena.old map.old) (request_of bytes.now replies.old request)).world }
    ensures answer { result ≡ (turn_of (world engine.old arena.old map.old) (request_of bytes.now replies.old request)).answer }
    ensures replied { replies.new ≡ store_at replies.old (reply_place request.call) (turn_of (world engine.old arena.old map.old) (request_of bytes.now replies.old request)).reply }
    ensures eights_after { Eights engine.new }
    ensures state_after { engine_fits engine.new ≡ true }
{
    let p = request.peer;
    let step = lending::step(
        engine.peers[p],
        p,
        engine.area,
        engine.limit,
        request.call,
        bytes,
        arena,
        map,
        replies,
    );
    engine.peers[p] = step.peer;
    step.answer
}
