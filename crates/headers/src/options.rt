// The optional headers, read from a packet and written into one. A writer answers where the next
// header begins.
ghost use Rattle.std.specs.Prelude.{◌≡◌, true, ◌+◌, ◌≤◌, ◌<◌, ◌^◌, length};
ghost use Rattle.laws.specs.Parts.{store_at};
ghost use Rattle.protocol.specs.Options.{raw_address_bytes, cq_data_bytes, connid_bytes, cq_data_in, connid_in};
ghost use Rattle.wire.specs.LittleEndian.{le_bytes};
ghost use Rattle.protocol.specs.Rules.{Sound, NumberWidth};

use protocol::TypeRow;
use wire::LittleEndian;

// Two functions and not one over the number's type: the clause of one would speak of the value in an Option.
pub fn read_cq_data(there: bool, bytes: &[u8], at: usize) -> Option<u64>
    requires { there ≡ true → at + 8 ≤ length bytes.now }
    ensures { result ≡ cq_data_in there bytes.now at }
{
    if there {
        Some(u64::read(bytes, at))
    } else {
        None
    }
}

pub fn read_connid(there: bool, bytes: &[u8], at: usize) -> Option<u32>
    requires { there ≡ true → at + 4 ≤ length bytes.now }
    ensures { result ≡ connid_in there bytes.now at }
{
    if there {
        Some(u32::read(bytes, at))
    } else {
        None
    }
}

pub fn write_raw_address(out: &mut [u8], at: usize, there: bool, raw: &[u8]) -> usize
    requires raw_in_bounds { at + length (raw_address_bytes there raw.now) ≤ length out.old }
    requires raw_len_bound { there ≡ true → length raw.now < 2 ^ 32 }
    ensures { (result ≡ at + length (raw_address_bytes there raw.now)) × (out.new ≡ store_at out.old at (raw_address_bytes there raw.now)) }
{
    if !there {
        return at;
    }
    (raw.len() as u32).write(out, at);
    wire::write_bytes(out, at + 4, raw)
}

pub fn write_cq_data(out: &mut [u8], at: usize, cq_data: Option<u64>) -> usize
    requires { at + length (cq_data_bytes cq_data) ≤ length out.old }
    ensures { (result ≡ at + length (cq_data_bytes cq_data)) × (out.new ≡ store_at out.old at (cq_data_bytes cq_data)) }
{
    let Some(value) = cq_data else {
        return at;
    };
    value.write(out, at);
    at + 8
}

// A number in 0, 4 or 8 bytes.
fn write_number(out: &mut [u8], at: usize, width: usize, x: u32) -> usize
    requires number_width { NumberWidth width }
    requires width_in_bounds { at + width ≤ length out.old }
    ensures { (result ≡ at + width) × (out.new ≡ store_at out.old at (le_bytes width x)) }
{
    if width == 0 {
        return at;
    }
    if width == 4 {
        x.write(out, at);
        return at + 4;
    }
    (x as u64).write(out, at);
    at + 8
}

// The connid and its padding, of `row.connid` bytes.
pub fn write_connid(out: &mut [u8], at: usize, row: TypeRow, connid: Option<u32>) -> usize
    requires sound { Sound row }
    requires connid_in_bounds { at + length (connid_bytes row connid) ≤ length out.old }
    ensures { (result ≡ at + length (connid_bytes row connid)) × (out.new ≡ store_at out.old at (connid_bytes row connid)) }
{
    match connid {
        None => at,
        Some(value) => write_number(out, at, row.connid as usize, value),
    }
}
