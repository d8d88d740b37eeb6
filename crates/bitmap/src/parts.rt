// A part of a word: some bits of it, reached by a mask.
ghost use Rattle.std.specs.Prelude.{◌≡◌, ◌+◌, ◌*◌, ◌%◌, ◌≤◌, ◌<◌, length};
ghost use Rattle.bitmap.specs.Map.{marked, cleared};
ghost use Rattle.bitmap.specs.Mask.{mask_of, part_of, set_in};
ghost use Rattle.bitmap.specs.Offsets.{first_not};

// A word whose bits are all set.
pub(crate) const FULL: u64 = 0xFFFF_FFFF_FFFF_FFFF;

// The word with the n bits from `lo` on set. A shift is below 64, so n is not 0.
fn mask(lo: usize, n: usize) -> u64
    requires n_nonzero { 0 < n }
    requires n_bound { lo + n ≤ 64 }
    ensures { result ≡ mask_of lo n }
{
    (FULL >> (64 - n)) << lo
}

// The n bits from i on, of one word, where the word has them. The map may end at i if n is 0.
pub(crate) fn part(map: &[u64], i: usize, n: usize) -> u64
    requires n_bound { i % 64 + n ≤ 64 }
    requires n_bound_2 { i + n ≤ 64 * length map.now }
    ensures { result ≡ part_of map.now i n }
{
    if n == 0 {
        return 0;
    }
    map[i / 64] & mask(i % 64, n)
}

// Clears the n bits from i on, of one word.
pub(crate) fn clear_part(map: &mut [u64], i: usize, n: usize)
    requires n_bound { i % 64 + n ≤ 64 }
    requires n_bound_2 { i + n ≤ 64 * length map.old }
    ensures { map.new ≡ cleared map.old i n }
{
    if n == 0 {
        return;
    }
    let m = mask(i % 64, n);
    map[i / 64] &= !m;
}

// Sets the n bits from i on, of one word.
pub(crate) fn mark_part(map: &mut [u64], i: usize, n: usize)
    requires n_bound { i % 64 + n ≤ 64 }
    requires n_bound_2 { i + n ≤ 64 * length map.old }
    ensures { map.new ≡ marked map.old i n }
{
    if n == 0 {
        return;
    }
    let m = mask(i % 64, n);
    map[i / 64] |= m;
}

// How many of the word's n bits from `lo` on stand before the first clear one: the trailing zeros of the complement.
pub(crate) fn ones_from(w: u64, lo: usize, n: usize) -> usize
    requires lo_bound { lo < 64 }
    requires n_bound { lo + n ≤ 64 }
    ensures { result ≡ first_not (set_in w) lo n }
{
    let run = (!w >> lo).trailing_zeros() as usize;
    run.min(n)
}
