// A range of the map's bits, by the words that it lies in.
ghost use Rattle.std.specs.Prelude.{◌≡◌, ◌+◌, ◌-◌, ◌^◌, ◌<◌, min};
ghost use Rattle.bitmap.specs.Ranges.{split_of};

// A range in three parts: `head` bits in the word where it begins, the whole words from `first` up to `last`, and `tail` bits of the word `last`.
#[derive(Clone, Copy)]
pub(crate) struct ThreeParts {
    pub head: usize,
    pub first: usize,
    pub last: usize,
    pub tail: usize,
}

// How many of a range's `left` bits lie in the word of the first of them, which is the word's bit `lo`.
pub(crate) fn in_word(lo: usize, left: usize) -> usize
    requires { lo < 64 }
    ensures { result ≡ min (64 - lo) left }
{
    (64 - lo).min(left)
}

// The n bits from `at` on.
pub(crate) fn split(at: usize, n: usize) -> ThreeParts
    requires { at + n < 2 ^ 63 }
    ensures { result ≡ split_of at n }
{
    let head = in_word(at % 64, n);
    let left = n - head;
    let first = (at + head) / 64;
    ThreeParts {
        head,
        first,
        last: first + left / 64,
        tail: left % 64,
    }
}
