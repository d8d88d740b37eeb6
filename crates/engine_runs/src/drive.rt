// What a run hands from call to call, and the calls of the engine.
use crate::call::{Command, LentLengths};
use crate::print::{self, AnswerLine};
use engine::Engine;
use peer::LocalCall;
use std::io;

// What arena and reply buffer hold before a call writes to them.
pub(crate) const FILL: u8 = 0xEE;

pub(crate) const ARENA: usize = 512;

pub(crate) const MAP: usize = 8;

// Two bytes more than a CTS.
pub(crate) const REPLY: usize = 26;

// What the map holds before a set-up clears it.
const SOILED: u64 = 1;

const WHOLE: LentLengths = LentLengths {
    arena: ARENA,
    map: MAP,
    reply: REPLY,
};

#[derive(Clone, Copy)]
pub(crate) struct Run {
    engine: Engine,
    arena: [u8; ARENA],
    map: [u64; MAP],
    lent: LentLengths,
}

impl Run {
    // Before the first set-up.
    pub(crate) fn unset() -> Run {
        Run {
            engine: Engine::fresh(0, 0, 0),
            arena: [FILL; ARENA],
            map: [SOILED; MAP],
            lent: WHOLE,
        }
    }

    // Begins anew, and prints what the set-up answers.
    fn set_up(&mut self, rt: &impl Print, n: usize, area: usize, limit: usize) -> io::Result<()> {
        *self = Run::unset();
        let started = engine::set_up(n, area, limit, &self.arena, &mut self.map);
        self.engine = started.engine;
        match started.answer {
            Ok(()) => println!(rt; "set up"),
            Err(refusal) => println!(rt; "set-up refused {}", refusal.number()),
        }
    }

    // Makes a call that writes to no buffer, and prints what it answers.
    fn local(&mut self, rt: &impl Print, peer: usize, call: LocalCall) -> io::Result<()> {
        let arena = &self.arena[..self.lent.arena.min(ARENA)];
        let map = &self.map[..self.lent.map.min(MAP)];
        let engine = self.engine;
        let outcome = match call {
            LocalCall::Post(receive) => calls::post(engine, peer, receive, arena, map),
            LocalCall::Cancel(slot) => calls::cancel(engine, peer, slot, arena, map),
            LocalCall::Report(slot) => calls::report(engine, peer, slot, arena, map),
        };
        self.engine = outcome.engine;
        rt.println(AnswerLine(outcome.answer))
    }

    // Hands a packet in, and prints what it is answered, with the reply buffer if that was written to.
    fn packet(&mut self, rt: &impl Print, peer: usize, bytes: &[u8]) -> io::Result<()> {
        let lent = self.lent;
        let mut arena = self.arena;
        let mut map = self.map;
        let mut reply = [FILL; REPLY];
        let outcome = calls::packet(
            self.engine,
            peer,
            bytes,
            &mut arena[..lent.arena.min(ARENA)],
            &mut map[..lent.map.min(MAP)],
            &mut reply[..lent.reply.min(REPLY)],
        );
        self.arena = arena;
        self.map = map;
        self.engine = outcome.engine;
        rt.println(AnswerLine(outcome.answer))?;
        print::reply(rt, &reply)
    }

    // Does what a line asks for, which has this number.
    pub(crate) fn turn(
        &mut self,
        rt: &impl Print,
        command: Command<'_>,
        line: usize,
    ) -> io::Result<()> {
        match command {
            Command::Bad => println!(rt; "bad line {line}"),
            Command::Title(words) => print::title(rt, words),
            Command::SetUp { n, area, limit } => self.set_up(rt, n, area, limit),
            Command::Local { peer, call } => self.local(rt, peer, call),
            Command::Packet { peer, bytes } => self.packet(rt, peer, bytes.as_slice()),
            Command::Lend(lent) => {
                self.lent = lent;
                Ok(())
            }
            Command::Limit(limit) => {
                self.engine.limit = limit;
                Ok(())
            }
            Command::Show => print::arena(rt, &self.arena),
        }
    }
}
