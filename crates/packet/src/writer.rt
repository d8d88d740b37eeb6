// Writing a packet: its checks in their order, then its bytes.
ghost use Rattle.std.specs.Prelude.{◌≡◌, true, ◌&&◌, ◌≤◌, length};
ghost use Rattle.laws.specs.Parts.{store_at};
ghost use Rattle.protocol.specs.Arrays.{array_allowed, array_whole};
ghost use Rattle.protocol.specs.Lengths.{lengths_fit};
ghost use Rattle.protocol.specs.Optional.{flags_of, options_fit};
ghost use Rattle.protocol.specs.SectionsInTurn.{head_length};
ghost use Rattle.protocol.specs.Writing.{base_bytes, mandatory_bytes, packet_bytes, write_as, write_of};
ghost use Rattle.protocol.specs.Totals.{limited_to, total_of};
ghost use Rattle.protocol.specs.Rules.{Sound};
ghost use Rattle.protocol.specs.Limits.{packet_limit};

use crate::limits::VERSION;
use headers::{arrays, flags, layout, lengths, options, sections, table};
use protocol::{Header, PACKET_LIMIT, Refusal, TypeRow};
use wire::LittleEndian;

// The bytes of the headers without the raw address.
fn head_length(row: TypeRow, flags: u16) -> usize
    requires { Sound row }
    ensures { result ≡ head_length row flags }
{
    row.header as usize + sections::cq_data_length(row, flags) + sections::connid_length(row, flags)
}

// The length of a packet with these flags and so many bytes of array and raw address, where they
// are there, and of data.
fn total(row: TypeRow, flags: u16, array: usize, raw: usize, size: usize) -> Option<usize>
    requires sound { Sound row }
    requires array_value { array_allowed row array ≡ true }
    ensures { result ≡ total_of row flags array raw size }
{
    let head = head_length(row, flags);
    if PACKET_LIMIT < size {
        return None;
    }
    if PACKET_LIMIT < array {
        return None;
    }
    if !flags::raw_address(row, flags) {
        return limited(head + array + size);
    }
    if PACKET_LIMIT < raw {
        return None;
    }
    limited(head + array + 4 + raw + size)
}

#[tactic(auto, unfolding(protocol::specs::Totals::limited_to, laws::specs::Choose::pick))]
fn limited(n: usize) -> Option<usize>
    ensures { result ≡ limited_to n }
{
    (n <= PACKET_LIMIT).then_some(n)
}

// Type, version and flags.
fn put_base(out: &mut [u8], kind: u8, flags: u16)
    requires { 4 ≤ length out.old }
    ensures { out.new ≡ store_at out.old 0 (base_bytes kind flags) }
{
    out[0] = kind;
    out[1] = VERSION;
    flags.write(out, 2);
}

// The mandatory header of a packet with an array of n bytes.
fn put_mandatory(out: &mut [u8], row: TypeRow, header: Header, flags: u16, n: usize)
    requires sound { Sound row }
    requires header_in_bounds { row.header ≤ length out.old }
    requires flags_value { flags ≡ flags_of row header }
    requires n_le_packet_limit { n ≤ packet_limit }
    ensures { out.new ≡ store_at out.old 0 (mandatory_bytes row header n) }
{
    put_base(out, row.kind, flags);
    layout::write(row, header, arrays::count_of(row, n), out);
}

// A whole packet.
fn put(
    out: &mut [u8],
    row: TypeRow,
    header: Header,
    flags: u16,
    array: &[u8],
    raw: &[u8],
    data: &[u8],
)
    requires sound { Sound row }
    requires flags_value { flags ≡ flags_of row header }
    requires header_value { options_fit row header ≡ true }
    requires array_value { array_allowed row (length array.now) ≡ true }
    requires data_len_bound { length (packet_bytes row header array.now raw.now «data».now) ≤ packet_limit }
    requires data_in_bounds { length (packet_bytes row header array.now raw.now «data».now) ≤ length out.old }
    ensures { out.new ≡ store_at out.old 0 (packet_bytes row header array.now raw.now «data».now) }
{
    put_mandatory(out, row, header, flags, array.len());
    let after_header = row.header as usize;
    let after_array = wire::write_bytes(out, after_header, array);
    let after_raw = options::write_raw_address(out, after_array, header.raw_address, raw);
    let cq_data = header.cq_data;
    let after_cq = options::write_cq_data(out, after_raw, cq_data);
    let connid = header.connid;
    let data_at = options::write_connid(out, after_cq, row, connid);
    wire::write_bytes(out, data_at, data);
}

// Whether a packet of this type may have the optional headers of this header and so many bytes of an
// array.
fn may_have(row: TypeRow, header: Header, array: usize) -> bool
    requires { Sound row }
    ensures { result ≡ (options_fit row header && array_allowed row array) }
{
    flags::options_fit(row, header) && arrays::allowed(row, array)
}

// Whether a packet of this type may have so many bytes of an array and of data.
fn lengths_fit(row: TypeRow, header: Header, array: usize, size: usize) -> bool
    ensures { result ≡ (array_whole row array && lengths_fit row.shape header.fields size) }
{
    let shape = row.shape;
    let fields = header.fields;
    arrays::whole(row, array) && lengths::fit(shape, fields, size)
}

// A packet of a known type.
fn typed(
    row: TypeRow,
    header: Header,
    array: &[u8],
    raw: &[u8],
    data: &[u8],
    out: &mut [u8],
) -> Result<usize, Refusal>
    requires { Sound row }
    ensures { record { answer = result; out = out.new } ≡ write_as row header array.now raw.now «data».now out.old }
{
    if !may_have(row, header, array.len()) {
        return Err(Refusal::BadFlags);
    }
    if !lengths_fit(row, header, array.len(), data.len()) {
        return Err(Refusal::BadLength);
    }
    let flags = flags::written(row, header);
    let Some(n) = total(row, flags, array.len(), raw.len(), data.len()) else {
        return Err(Refusal::AboveLimit);
    };
    if out.len() < n {
        return Err(Refusal::NoRoom);
    }
    put(out, row, header, flags, array, raw, data);
    Ok(n)
}

// Writes the packet with these numbers, this raw address, if the header says that it has one, and
// these data to the start of out, and answers its length. Refused, it leaves out as it was.
// No type of the table has an array yet, so that it is lent an empty one.
pub fn write(
    header: Header,
    raw_address: &[u8],
    data: &[u8],
    out: &mut [u8],
) -> Result<usize, Refusal>
    ensures { record { answer = result; out = out.new } ≡ write_of header raw_address.now «data».now out.old }
{
    let Some(row) = table::find(header.kind) else {
        return Err(Refusal::BadType);
    };
    typed(row, header, &[], raw_address, data, out)
}
