// Lines of text in a lent buffer. Each function answers the place behind what it put there.
// No struct holds buffer and place: each function that takes a `&mut` within a struct needs a clause more, that it is the
// same buffer still.
#![tactic(auto)]

ghost use Rattle.std.specs.Prelude.{◌∷◌, ◌≡◌, ◌+◌, ◌≤◌, length};
ghost use Rattle.laws.specs.Parts.{store_at};
ghost use Rattle.text.specs.Decimals.{decimal};
ghost use Rattle.text.specs.Lines.{line};

// Puts a number's decimal digits at a place.
// By hand and not by `write!`: the clause gives every byte, and the buffer is lent.
fn put_decimal(text: &mut [u8], at: usize, v: u64) -> usize
    requires { at + length (decimal v) ≤ length text.old }
    ensures { (result ≡ at + length (decimal v)) × (text.new ≡ store_at text.old at (decimal v)) }
{
    let mut digits = [0u8; 20];
    let mut first: usize = 19;
    let mut rest = v;
    while 10 <= rest {
        digits[first] = (48 + rest % 10) as u8;
        rest /= 10;
        first -= 1;
    }
    digits[first] = (48 + rest) as u8;
    wire::write_bytes(text, at, &digits[first..])
}

// Puts a number at a place, with a space before it.
fn put_number(text: &mut [u8], at: usize, v: u64) -> usize
    requires { at + length (32 ∷ decimal v) ≤ length text.old }
    ensures { (result ≡ at + length (32 ∷ decimal v)) × (text.new ≡ store_at text.old at (32 ∷ decimal v)) }
{
    text[at] = b' ';
    put_decimal(text, at + 1, v)
}

// Puts a line at a place: a word, and numbers.
pub fn put_line(text: &mut [u8], at: usize, word: &[u8], numbers: &[u64]) -> usize
    requires { at + length (line word.now numbers.now) ≤ length text.old }
    ensures { (result ≡ at + length (line word.now numbers.now)) × (text.new ≡ store_at text.old at (line word.now numbers.now)) }
{
    let mut next = wire::write_bytes(text, at, word);
    for number in numbers {
        next = put_number(text, next, *number);
    }
    text[next] = b'\n';
    next + 1
}
