// The words of a line, with a space between two, and numbers.
ghost use Rattle.std.specs.Prelude.{◌≤◌, IfOk, IfSome};

use crate::print;
use std::io;

// How many words there are behind the first, if none of them is empty.
pub(crate) fn others(line: &[u8]) -> Option<usize> {
    let mut words = line.split(|byte| *byte == b' ').skip(1);
    if words.any(|word| word.is_empty()) {
        return None;
    }
    Some(line.iter().filter(|byte| **byte == b' ').count())
}

// The word behind so many others, or nothing if there is none.
pub(crate) fn word(line: &[u8], others: usize) -> &[u8] {
    let mut words = line.split(|byte| *byte == b' ');
    match words.nth(others) {
        Some(word) => word,
        None => &line[..0],
    }
}

// The decimal number that a word is, if it is at most `most`.
// Not by the library's reading of numbers, which takes a sign and no empty word.
fn number_in(word: &[u8], most: u64) -> Option<u64>
    ensures { IfSome result (λ n. n ≤ most) }
{
    let mut value: u64 = 0;
    for byte in word {
        let digit = char::from(*byte).to_digit(10)?;
        value = value.checked_mul(10)?.checked_add(u64::from(digit))?;
        if most < value {
            return None;
        }
    }
    Some(value)
}

// The number behind so many words, which is at most `most`; 0, and a line that says so, where it is none.
pub(crate) fn number(rt: &impl Print, line: &[u8], others: usize, most: u64) -> io::Result<u64>
    ensures { IfOk result (λ n. n ≤ most) }
{
    match number_in(word(line, others), most) {
        Some(value) => Ok(value),
        None => {
            print::bad(rt, line)?;
            Ok(0)
        }
    }
}
