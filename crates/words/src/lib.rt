// Numbers as 64-bit words, for callers in other languages: words copied into others; and what may be
// absent, in two words, whether it is there and its value, or 0.
#![tactic(auto)]

ghost use Rattle.std.specs.Prelude.{◌≡◌, ◌+◌, ◌≤◌, length};
ghost use Rattle.laws.specs.Parts.{store_at};
ghost use Rattle.words.specs.Presence.{bool_bit, option_bit, option_value};

// The words of `from` are put into `words`, from `at` on.
#[tactic(auto, using(laws::proofs::Storing::put_part))]
pub fn put_words(words: &mut [u64], at: usize, from: &[u64])
    requires { at + length from.now ≤ length words.old }
    ensures { words.new ≡ store_at words.old at from.now }
{
    words[at..at + from.len()].copy_from_slice(from);
}

pub fn bit_of(b: bool) -> u64
    ensures { result ≡ bool_bit b }
{
    u64::from(b)
}

// Whether it is there.
pub fn option_bit<T: Copy>(option: Option<T>) -> u64
    ensures { result ≡ option_bit option }
{
    bit_of(option.is_some())
}

// Its value, or 0.
pub fn option_value(option: Option<u64>) -> u64
    ensures { result ≡ option_value option }
{
    option.unwrap_or(0)
}
