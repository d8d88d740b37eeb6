// The numbers of a trace, as they are written: groups of seven bits, the least first. `size` and `put` go over the same
// groups, the one to count them and the other to write them, each by a `while`: the division itself tells the last group, and no
// range gives the count beforehand.
ghost use Rattle.std.specs.Prelude.{◌≡◌, ◌+◌, ◌≤◌, length};
ghost use Rattle.laws.specs.Parts.{store_at};
ghost use Rattle.trace.specs.Numbers.{number_bytes};

use trace::MORE;

// How many groups a number takes.
pub(crate) fn size(v: u64) -> usize
    ensures { result ≡ length (number_bytes v) }
{
    let mut rest = v;
    let mut size: usize = 1;
    while MORE <= rest {
        rest /= MORE;
        size += 1;
    }
    size
}

// Puts a number at a place, and answers the place behind it.
pub(crate) fn put(out: &mut [u8], at: usize, v: u64) -> usize
    requires { at + length (number_bytes v) ≤ length out.old }
    ensures value { result ≡ at + length (number_bytes v) }
    ensures out_after { out.new ≡ store_at out.old at (number_bytes v) }
{
    let mut rest = v;
    let mut i = at;
    while MORE <= rest {
        out[i] = (MORE + rest % MORE) as u8;
        rest /= MORE;
        i += 1;
    }
    out[i] = rest as u8;
    i + 1
}
