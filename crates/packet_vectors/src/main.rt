// Packets and values, one to a line of standard input, and what the reader and the writer make of
// them. The file stdin beside src/ says what a line has. The file stdout was written from the
// specification, not from this program.
#![tactic(auto)]

mod hex;
mod outcome;
mod print;
mod script;
mod words;

use std::io;

fn main(rt: HostRuntime) -> io::Result<()> {
    let mut buffer = [0u8; 65536];
    let n = input::read_full(&mut rt.stdin(), &mut buffer)?;
    // a full buffer may have cut the last line
    if 65535 < n {
        print::bad(&rt, b"length")
    } else {
        script::run(&rt, &buffer[..n])
    }
}
