// The lines of standard input. A line's first letter says what is done with it.
use crate::outcome::{FILL, LARGE};
use crate::words::{number, others, word};
use crate::{hex, outcome, print};
use protocol::{Fields, Header, PACKET_LIMIT};
use std::io;

// The largest number of 64 bits: a field may have any.
const ANY: u64 = u64::MAX;

// What a line asks for.
#[derive(Clone, Copy)]
enum Task {
    Good,
    Read,
    Served,
    Limited,
    Write,
}

impl Task {
    // by a line's first letter
    fn of(letter: u8) -> Option<Task> {
        match letter {
            b'g' => Some(Task::Good),
            b'r' => Some(Task::Read),
            b's' => Some(Task::Served),
            b'l' => Some(Task::Limited),
            b'w' => Some(Task::Write),
            _ => None,
        }
    }

    // How many words a line has behind the first.
    fn words(self) -> usize {
        match self {
            Task::Good | Task::Read | Task::Served => 2,
            Task::Limited => 3,
            Task::Write => 11,
        }
    }
}

// good NAME BYTES, read NAME BYTES, served NAME BYTES or limited NAME BYTES LIMIT
fn read(rt: &impl Print, line: &[u8], task: Task) -> io::Result<()> {
    let mut buffer = [0u8; LARGE];
    let n = hex::decode(rt, line, 2, &mut buffer)?;
    let bytes = &buffer[..n];
    let name = word(line, 1);
    match task {
        Task::Good => outcome::good(rt, name, bytes),
        Task::Served => outcome::read(rt, name, packet::read_served(bytes, PACKET_LIMIT)),
        Task::Limited => {
            let limit = number(rt, line, 3, PACKET_LIMIT as u64)?;
            outcome::read(rt, name, packet::read_served(bytes, limit as usize))
        }
        Task::Read | Task::Write => outcome::read(rt, name, packet::read(bytes)),
    }
}

// Nine different numbers but for those of the line, of which a packet has those of its type.
fn fields(rt: &impl Print, line: &[u8]) -> io::Result<Fields> {
    Ok(Fields {
        msg_id: 1,
        recv_id: 2,
        send_id: 3,
        msg_length: number(rt, line, 8, ANY)?,
        seg_length: number(rt, line, 9, ANY)?,
        recv_length: number(rt, line, 10, ANY)?,
        seg_offset: number(rt, line, 11, ANY)?,
        credit_request: 8,
        tag: 9,
    })
}

fn header(rt: &impl Print, line: &[u8]) -> io::Result<Header> {
    let options = number(rt, line, 7, 7)?;
    Ok(Header {
        kind: number(rt, line, 6, 255)? as u8,
        fields: fields(rt, line)?,
        raw_address: options & 1 != 0,
        cq_data: (options & 2 != 0).then_some(10),
        connid: (options & 4 != 0).then_some(11),
    })
}

fn write_parts(rt: &impl Print, line: &[u8], raw: &[u8], data: &[u8]) -> io::Result<()> {
    let mut bytes = [0u8; LARGE];
    let n = hex::decode(rt, line, 4, &mut bytes)?;
    let mut out = [FILL; LARGE];
    let room = number(rt, line, 5, 8200)? as usize;
    outcome::write(
        rt,
        word(line, 1),
        header(rt, line)?,
        raw,
        data,
        &bytes[0..n],
        &mut out[0..room],
    )
}

// write NAME RAW DATA BYTES ROOM TYPE OPTIONS MSG_LENGTH SEG_LENGTH RECV_LENGTH SEG_OFFSET
fn write(rt: &impl Print, line: &[u8]) -> io::Result<()> {
    let mut raw = [0u8; LARGE];
    let n = hex::decode(rt, line, 2, &mut raw)?;
    let mut data = [0u8; LARGE];
    let m = hex::decode(rt, line, 3, &mut data)?;
    write_parts(rt, line, &raw[0..n], &data[0..m])
}

fn run_line(rt: &impl Print, line: &[u8]) -> io::Result<()> {
    let Some(letter) = line.first() else {
        return Ok(());
    };
    if *letter == b'#' {
        return Ok(());
    }
    let Some(task) = Task::of(*letter) else {
        return print::bad(rt, line);
    };
    if others(line) != Some(task.words()) {
        return print::bad(rt, line);
    }
    match task {
        Task::Write => write(rt, line),
        _ => read(rt, line, task),
    }
}

pub(crate) fn run(rt: &impl Print, text: &[u8]) -> io::Result<()> {
    for line in text.split(|byte| *byte == b'\n') {
        run_line(rt, line)?;
    }
    Ok(())
}
