// Replays the trace on standard input and writes the text about it: 01's program. What matters is in
// the library `replay`: here bytes are read, one call is made, and its text is written.
#![tactic(auto)]

ghost use Rattle.std.specs.Prelude.{◌≡◌, ◌≤◌, length};
ghost use Rattle.replay_main.specs.Programs.{text_length, program_of};

use std::io;

// The longest trace, in bytes.
const LONGEST: usize = 65536;

// The most entries that are taken.
const ENTRIES: usize = 4096;

// Puts the text about a trace into its buffer, and answers how long it is. Arena and map are as long as
// the largest set-up asks for.
fn replayed(trace: &[u8], text: &mut [u8]) -> usize
    requires { length text.old ≡ text_length }
    ensures value { result ≡ (program_of trace.now text.old).replayed.written }
    ensures text_after { text.new ≡ (program_of trace.now text.old).text }
    ensures upper_bound { result ≤ length text.new }
{
    let mut arena = [0u8; 65536];
    let mut map = [0u64; 1024];
    let mut reply = [0u8; 24];
    let replayed = replay::replay(trace, ENTRIES, &mut arena, &mut map, &mut reply, text);
    replayed.written
}

// Replays a trace and writes the text.
fn show(rt: &impl Print, trace: &[u8]) -> io::Result<()> {
    let mut text = [0u8; 327744];
    let written = replayed(trace, &mut text);
    rt.write_all(&text[..written])
}

fn main(rt: HostRuntime) -> io::Result<()> {
    // one byte more than the longest trace, so that a longer one is seen
    let mut bytes = [0u8; 65537];
    match input::read_full(&mut rt.stdin(), &mut bytes) {
        Err(_) => eprintln!(rt; "standard input cannot be read"),
        Ok(n) => {
            if LONGEST < n {
                println!(rt; "too long")
            } else {
                show(&rt, &bytes[..n])
            }
        }
    }
}
