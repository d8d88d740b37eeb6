// The counted array behind a type's fixed fields.
ghost use Rattle.std.specs.Prelude.{◌≡◌, ◌≤◌};
ghost use Rattle.protocol.specs.Arrays.{array_allowed, array_count, array_length, array_whole};
ghost use Rattle.protocol.specs.Rules.{Sound};
ghost use Rattle.protocol.specs.Limits.{packet_limit};

use protocol::TypeRow;

// The bytes of the array that a count tells.
pub(crate) fn length(row: TypeRow, count: u32) -> usize
    requires { Sound row }
    ensures { result ≡ array_length row count }
{
    let less = row.less as u32;
    if count < less {
        return 0;
    }
    let members = (count - less) as usize;
    members * (row.unit as usize)
}

// The count that tells an array of n bytes.
pub fn count_of(row: TypeRow, n: usize) -> u32
    requires sound { Sound row }
    requires n_le_packet_limit { n ≤ packet_limit }
    ensures { result ≡ array_count row n }
{
    if row.unit == 0 {
        return 0;
    }
    let members = n / (row.unit as usize);
    members as u32 + (row.less as u32)
}

// Whether a packet of this type may be given n bytes of an array.
pub fn allowed(row: TypeRow, n: usize) -> bool
    ensures { result ≡ array_allowed row n }
{
    row.unit != 0 || n == 0
}

// Whether these are whole members.
pub fn whole(row: TypeRow, n: usize) -> bool
    ensures { result ≡ array_whole row n }
{
    if row.unit == 0 {
        return true;
    }
    n % (row.unit as usize) == 0
}
