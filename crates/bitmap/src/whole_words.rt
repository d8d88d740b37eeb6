// Whole words, one after the other. A pass over all of them has no way out before its end, so that the compiler takes several at a time.
ghost use Rattle.std.specs.Prelude.{◌≡◌, ◌*◌, ◌^◌, ◌<◌, length, replicate};
ghost use Rattle.bitmap.specs.WholeWords.{full_run, ones_of, or_of};

use crate::parts::FULL;

// Each word becomes `w`.
pub(crate) fn fill(words: &mut [u64], w: u64)
    ensures { words.new ≡ replicate (length words.old) w }
{
    words.fill(w);
}

// The bits that some of the words has.
pub(crate) fn or_of(words: &[u64]) -> u64
    ensures { result ≡ or_of words.now }
{
    let mut seen: u64 = 0;
    for word in words {
        seen |= *word;
    }
    seen
}

// How many bits of the words are set.
pub(crate) fn ones_of(words: &[u64]) -> usize
    requires { 64 * length words.now < 2 ^ 63 }
    ensures { result ≡ ones_of words.now }
{
    let mut total: usize = 0;
    for word in words {
        total += word.count_ones() as usize;
    }
    total
}

// How many of the words stand before the first that is not full.
pub(crate) fn full_run(words: &[u64]) -> usize
    ensures { result ≡ full_run words.now }
{
    for (k, word) in words.iter().enumerate() {
        if *word != FULL {
            return k;
        }
    }
    words.len()
}
