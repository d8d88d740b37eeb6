// The five calls of the engine, one to a line of standard input, each with a line that says what it
// answered. The file stdin beside src/ has the cases, and says what its lines mean.
#![tactic(auto)]

mod call;
mod drive;
mod line;
mod print;

use drive::Run;
use std::io;

// Does what each line of the text says.
fn run(rt: &impl Print, text: &[u8]) -> io::Result<()> {
    let mut run = Run::unset();
    for (i, line) in text.split(|byte| *byte == b'\n').enumerate() {
        if let Some(command) = call::read(line) {
            run.turn(rt, command, i + 1)?;
        }
    }
    Ok(())
}

fn main(rt: HostRuntime) -> io::Result<()> {
    let mut buffer = [0u8; 65536];
    let n = input::read_full(&mut rt.stdin(), &mut buffer)?;
    if n == buffer.len() {
        rt.write_all(b"too long\n")?;
    }
    run(&rt, &buffer[..n])
}
