// The numbers of a trace, as they are read: groups of seven bits, the least first.
ghost use Rattle.std.specs.Prelude.{◌≡◌};
ghost use Rattle.trace.specs.Numbers.{number_at};

// A group below this is a number's last.
pub const MORE: u64 = 128;

// What the tenth group counts. Above 1 it makes 2^64 or more.
const TENTH: u64 = 1 << 63;

// The number at a place, and the place behind it; or nothing where no number is.
pub fn number_at(s: &[u8], at: usize) -> Option<(u64, usize)>
    ensures { result ≡ number_at s.now at }
{
    let mut sum: u64 = 0;
    let mut weight: u64 = 1;
    for i in at..s.len() {
        let group = s[i] as u64;
        if weight == TENTH && 1 < group {
            return None;
        }
        if group < MORE {
            if group == 0 && 1 < weight {
                return None;
            }
            return Some((sum + group * weight, i + 1));
        }
        sum += (group - MORE) * weight;
        weight *= MORE;
    }
    None
}
