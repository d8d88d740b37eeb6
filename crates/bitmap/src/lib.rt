// The map of an arena's bytes, a bit a byte in words of 64 (01: "one bit for each arena byte"):
// ranges of its bits set, cleared, tested, counted and searched.
// A range is a part of its first word, whole words, and a part of its last: a part is reached by a mask, and a whole word by one operation.
// Map, place and count are handed on one by one: a struct of the three would hold a `&mut`, and each function over it would
// need a clause more, that it is the same map still.
#![tactic(auto)]

mod parts;
mod ranges;
mod whole_words;

ghost use Rattle.std.specs.Prelude.{◌≡◌, ◌+◌, ◌*◌, ◌^◌, ◌≤◌, ◌<◌, length};
ghost use Rattle.bitmap.specs.Map.{marked, cleared, touched, count_set, first_clear};

use parts::FULL;

// Clears the n bits from `at` on: a mask at each end, and a store for each whole word between.
pub fn clear(map: &mut [u64], at: usize, n: usize)
    requires n_bound { at + n ≤ 64 * length map.old }
    requires n_bound_2 { at + n < 2 ^ 63 }
    ensures { map.new ≡ cleared map.old at n }
{
    let range = ranges::split(at, n);
    let first = range.first;
    let last = range.last;
    parts::clear_part(map, at, range.head);
    whole_words::fill(&mut map[first..last], 0);
    parts::clear_part(map, 64 * last, range.tail);
}

// Sets the n bits from `at` on, as `clear` clears them.
// It is no one function with `clear` over what is done with a part: that one's clauses would have to carry both definitions.
pub fn mark(map: &mut [u64], at: usize, n: usize)
    requires n_bound { at + n ≤ 64 * length map.old }
    requires n_bound_2 { at + n < 2 ^ 63 }
    ensures { map.new ≡ marked map.old at n }
{
    let range = ranges::split(at, n);
    let first = range.first;
    let last = range.last;
    parts::mark_part(map, at, range.head);
    whole_words::fill(&mut map[first..last], FULL);
    parts::mark_part(map, 64 * last, range.tail);
}

// Whether some of the n bits from `at` on is set: the bits of all words of the range, masked at the ends, in one word.
pub fn is_touched(map: &[u64], at: usize, n: usize) -> bool
    requires n_bound { at + n ≤ 64 * length map.now }
    requires n_bound_2 { at + n < 2 ^ 63 }
    ensures { result ≡ touched map.now at n }
{
    let range = ranges::split(at, n);
    let first = range.first;
    let last = range.last;
    let head = parts::part(map, at, range.head);
    let between = whole_words::or_of(&map[first..last]);
    let tail = parts::part(map, 64 * last, range.tail);
    (head | between | tail) != 0
}

// How many of the n bits from `at` on are set: the ones of each word, masked at the ends.
pub fn count_set(map: &[u64], at: usize, n: usize) -> usize
    requires n_bound { at + n ≤ 64 * length map.now }
    requires n_bound_2 { at + n < 2 ^ 63 }
    ensures { result ≡ count_set map.now at n }
{
    let range = ranges::split(at, n);
    let first = range.first;
    let last = range.last;
    let head = parts::part(map, at, range.head).count_ones() as usize;
    let between = whole_words::ones_of(&map[first..last]);
    let tail = parts::part(map, 64 * last, range.tail).count_ones() as usize;
    head + between + tail
}

// How many of the n bits from `at` on stand before the first clear one: words first, a run of full ones passed at once,
// and then the runs of set bits in a word, left at the first clear bit.
// Two loops, and neither counts by ones: the specification asks for a nested search, left by a label.
pub fn first_clear(map: &[u64], at: usize, n: usize) -> usize
    requires n_bound { at + n ≤ 64 * length map.now }
    requires n_bound_2 { at + n < 2 ^ 63 }
    ensures { result ≡ first_clear map.now at n }
{
    let end = at + n;
    let mut i = at;
    'words: while i < end {
        let w = map[i / 64];
        let stop = i + ranges::in_word(i % 64, end - i);
        if w == FULL {
            let first = stop / 64;
            let last = end / 64;
            i = stop + 64 * whole_words::full_run(&map[first..last]);
        } else {
            while i < stop {
                let run = parts::ones_from(w, i % 64, stop - i);
                if run == 0 {
                    break 'words;
                }
                i += run;
            }
        }
    }
    i - at
}
