// Bytes in hexadecimal, in groups with a dash between two, then +N for N zeros more.
ghost use Rattle.std.specs.Prelude.{◌≤◌, ◌<◌, length, IfOk, IfSome};

use crate::{print, words};
use std::io;

// A digit's value. `to_digit` would take A to F, which are bad here.
fn digit(c: u8) -> Option<u8>
    ensures { IfSome result (λ d. d < 16) }
{
    match c {
        b'0'..=b'9' => Some(c - b'0'),
        b'a'..=b'f' => Some(c - b'a' + 10),
        _ => None,
    }
}

// The byte of the first two digits, and what stands behind them.
fn pair(text: &[u8]) -> Option<(u8, &[u8])>
    ensures { IfSome result (λ r. length r.1.now < length text.now) }
{
    let (high, tail) = text.split_first()?;
    let (low, rest) = tail.split_first()?;
    Some((digit(*high)? * 16 + digit(*low)?, rest))
}

// The buffer is lent, and the count stands beside it, since nothing is allocated.
//
// Puts the bytes behind so many words into a buffer of zeros, and answers how many there are. They
// are bad if they fill it: no vector is so long.
pub(crate) fn decode(
    rt: &impl Print,
    line: &[u8],
    others: usize,
    out: &mut [u8],
) -> io::Result<usize>
    ensures { IfOk result (λ n. n ≤ length out.new) }
{
    let mut rest = words::word(line, others);
    let mut count = 0;
    // a `while`: a turn takes one byte of the text, or two, or all that are left
    while count < out.len() {
        let Some((first, tail)) = rest.split_first() else {
            return Ok(count);
        };
        if *first == b'-' {
            rest = tail;
            continue;
        }
        if *first == b'+' {
            let room = out.len() - count;
            let zeros = words::number(rt, tail, 0, room as u64)?;
            return Ok(count + zeros as usize);
        }
        let Some((byte, behind)) = pair(rest) else {
            print::bad(rt, line)?;
            return Ok(count);
        };
        out[count] = byte;
        count += 1;
        rest = behind;
    }
    print::bad(rt, line)?;
    Ok(count)
}
