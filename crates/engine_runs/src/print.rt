// Lines on standard output.
use crate::drive::FILL;
use peer::Answer;
use std::{fmt, io};

// An answer, as its line says it.
#[derive(Clone, Copy)]
pub(crate) struct AnswerLine(pub Answer);

impl fmt::Display for AnswerLine {
    fn fmt<W: fmt::Write>(&self, f: &mut fmt::Formatter<W>) -> fmt::Result {
        match self.0 {
            Answer::Refused(refusal) => write!(f, "refused {}", refusal.number()),
            Answer::Posted(slot) => write!(f, "posted {slot}"),
            Answer::Cancelled(slot) => write!(f, "cancelled {slot}"),
            Answer::Stored => write!(f, "stored"),
            Answer::Granted(n) => write!(f, "granted {n}"),
            Answer::Done {
                slot,
                id,
                length,
                cq_data: None,
            } => write!(f, "done {slot} {id} {length}"),
            Answer::Done {
                slot,
                id,
                length,
                cq_data: Some(value),
            } => write!(f, "done {slot} {id} {length} cq_data {value}"),
            Answer::Truncated { slot, id, length } => write!(f, "truncated {slot} {id} {length}"),
            Answer::Missing { received, first } => {
                write!(f, "received {received}, first missing {first}")
            }
        }
    }
}

// A line that says what the lines after it are about: words with a space before each.
pub(crate) fn title(rt: &impl Print, words: &[u8]) -> io::Result<()> {
    rt.write_all(b"--")?;
    rt.write_all(words)?;
    rt.write_all(b"\n")
}

// A reply buffer, if it was written to.
pub(crate) fn reply(rt: &impl Print, buffer: &[u8]) -> io::Result<()> {
    if buffer.iter().all(|byte| *byte == FILL) {
        return Ok(());
    }
    print!(rt; "reply")?;
    for byte in buffer {
        print!(rt; " {byte:02x}")?;
    }
    println!(rt; "")
}

// The arena's bytes that were written to: for each run of equal ones first and last place, and the byte.
pub(crate) fn arena(rt: &impl Print, arena: &[u8]) -> io::Result<()> {
    print!(rt; "arena")?;
    let mut first = 0;
    for (i, byte) in arena.iter().enumerate() {
        let next = i + 1;
        if arena.get(next) != Some(byte) {
            if *byte != FILL {
                print!(rt; " {first} to {i}: {byte:02x};")?;
            }
            first = next;
        }
    }
    println!(rt; "")
}
