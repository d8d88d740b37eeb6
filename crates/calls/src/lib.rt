// The four calls: the checks, then one peer's step by the dispatcher of `lending`, and the peer is put
// back.
#![tactic(auto)]

ghost use Rattle.std.specs.Prelude.{◌≡◌, [], length};
ghost use Rattle.peer.specs.Calls.{post, packet, cancel, report};
ghost use Rattle.peer.specs.LentCalls.{local_call_of};
ghost use Rattle.engine.specs.Leaves.{world, silent, call_leaves};
ghost use Rattle.engine.specs.Steps.{call_turn};

use engine::{Engine, Outcome};
use peer::{Answer, Call, LocalCall, Receive};
use protocol::Span;

// A call of a peer that writes nothing of what is lent.
fn local(engine: &mut Engine, peer: usize, call: LocalCall, arena: &[u8], map: &[u64]) -> Answer
    ensures { record { world = world engine.new arena.now map.now; answer = result; reply = [] } ≡ call_turn (world engine.old arena.now map.now) peer (local_call_of call) }
{
    let n = engine.n;
    let area = engine.area;
    let fits = engine::fits(engine);
    match engine::admit(fits, n, area, engine.limit, arena.len(), map.len(), peer) {
        Err(refusal) => Answer::Refused(refusal),
        Ok(()) => {
            let step = lending::local(engine.peers[peer], peer, area, call, map);
            engine.peers[peer] = step.peer;
            step.answer
        }
    }
}

// A receive is posted for a peer.
pub fn post(mut engine: Engine, peer: usize, receive: Receive, arena: &[u8], map: &[u64]) -> Outcome
    ensures { silent result arena.now map.now ≡ call_turn (world engine arena.now map.now) peer (post receive) }
{
    let answer = local(&mut engine, peer, LocalCall::Post(receive), arena, map);
    Outcome { engine, answer }
}

// A packet of a peer comes in.
pub fn packet(
    mut engine: Engine,
    peer: usize,
    bytes: &[u8],
    arena: &mut [u8],
    map: &mut [u64],
    reply: &mut [u8],
) -> Outcome
    ensures { record { outcome = result; arena = arena.new; map = map.new; reply = reply.new } ≡ call_leaves reply.old (call_turn (world engine arena.old map.old) peer (packet bytes.now (length reply.old))) }
{
    let area = engine.area;
    let limit = engine.limit;
    let fits = engine::fits(&engine);
    let answer = match engine::admit(fits, engine.n, area, limit, arena.len(), map.len(), peer) {
        Err(refusal) => Answer::Refused(refusal),
        Ok(()) => {
            let sender = engine.peers[peer];
            let sent = Span {
                at: 0,
                size: bytes.len(),
            };
            let room = Span {
                at: 0,
                size: reply.len(),
            };
            let call = Call::Packet(sent, room);
            let step = lending::step(sender, peer, area, limit, call, bytes, arena, map, reply);
            engine.peers[peer] = step.peer;
            step.answer
        }
    };
    Outcome { engine, answer }
}

// A slot of a peer is cancelled.
pub fn cancel(mut engine: Engine, peer: usize, slot: usize, arena: &[u8], map: &[u64]) -> Outcome
    ensures { silent result arena.now map.now ≡ call_turn (world engine arena.now map.now) peer (cancel slot) }
{
    let answer = local(&mut engine, peer, LocalCall::Cancel(slot), arena, map);
    Outcome { engine, answer }
}

// The missing-byte report of a slot of a peer.
pub fn report(mut engine: Engine, peer: usize, slot: usize, arena: &[u8], map: &[u64]) -> Outcome
    ensures { silent result arena.now map.now ≡ call_turn (world engine arena.now map.now) peer (report slot) }
{
    let answer = local(&mut engine, peer, LocalCall::Report(slot), arena, map);
    Outcome { engine, answer }
}
