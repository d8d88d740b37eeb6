// Reading a packet: its checks in their order, then its numbers and where its bytes lie.
ghost use Rattle.std.specs.Prelude.{◌≡◌, ◌≤◌, length};
ghost use Rattle.protocol.specs.Reading.{header_in, packet_in, read_lengths, read_flags, read_of};
ghost use Rattle.protocol.specs.Rules.{Sound, SectionsInside};
ghost use Rattle.protocol.specs.Types.{every_row, served_row, reader_rows};
ghost use Rattle.protocol.specs.Limits.{packet_limit};

use crate::limits::VERSION;
use headers::{flags, layout, lengths, options, sections, table};
use protocol::{CONNID, Header, PACKET_LIMIT, Packet, Refusal, Sections, Span, TypeRow};
use wire::LittleEndian;

// The numbers of a packet whose sections are known.
fn header(row: TypeRow, flags: u16, bytes: &[u8], at: Sections) -> Header
    requires sound { Sound row }
    requires sections_inside { SectionsInside row flags at (length bytes.now) }
    ensures { result ≡ header_in row flags bytes.now at }
{
    let fields = layout::read(row, bytes);
    let cq_at = at.cq_at;
    let cq_data = options::read_cq_data(flags::cq_data(row, flags), bytes, cq_at);
    let connid_at = at.connid_at;
    let connid = options::read_connid(flags::has(flags, CONNID), bytes, connid_at);
    Header {
        kind: row.kind,
        fields,
        raw_address: flags::raw_address(row, flags),
        cq_data,
        connid,
    }
}

// A packet whose headers are whole: its lengths are checked.
fn whole(row: TypeRow, flags: u16, bytes: &[u8], at: Sections) -> Result<Packet, Refusal>
    requires sound { Sound row }
    requires sections_inside { SectionsInside row flags at (length bytes.now) }
    ensures { result ≡ read_lengths row (packet_in row flags bytes.now at) }
{
    let header = header(row, flags, bytes, at);
    let data_at = at.data_at;
    let size = bytes.len() - data_at;
    let shape = row.shape;
    let fields = header.fields;
    if !lengths::fit(shape, fields, size) {
        return Err(Refusal::BadLength);
    }
    let raw_address = at.raw;
    Ok(Packet {
        header,
        shape,
        tagged: row.tagged,
        raw_address,
        data: Span { at: data_at, size },
    })
}

// A packet of a known type: its flags, then its headers.
fn typed(row: TypeRow, bytes: &[u8]) -> Result<Packet, Refusal>
    requires sound { Sound row }
    requires in_bounds { 4 ≤ length bytes.now }
    ensures { result ≡ read_flags row bytes.now }
{
    let flags = u16::read(bytes, 2);
    if !flags::fit(row, flags) {
        return Err(Refusal::BadFlags);
    }
    let Some(at) = sections::find(row, flags, bytes) else {
        return Err(Refusal::CutShort);
    };
    whole(row, flags, bytes, at)
}

// `all` is a truth value, as in `table::find_among`.
fn among(bytes: &[u8], limit: usize, all: bool) -> Result<Packet, Refusal>
    ensures { result ≡ read_of (reader_rows all) limit bytes.now }
{
    let n = bytes.len();
    if limit < n {
        return Err(Refusal::AboveLimit);
    }
    if n < 4 {
        return Err(Refusal::CutShort);
    }
    if bytes[1] != VERSION {
        return Err(Refusal::BadVersion);
    }
    let Some(row) = table::find_among(bytes[0], all) else {
        return Err(Refusal::BadType);
    };
    typed(row, bytes)
}

// Reads a packet of any type of the table: the reader alone, whose limit is 8,192 bytes.
pub fn read(bytes: &[u8]) -> Result<Packet, Refusal>
    ensures { result ≡ read_of every_row packet_limit bytes.now }
{
    among(bytes, PACKET_LIMIT, true)
}

// Reads a packet that is at most limit bytes long, of the types that the receive engine serves: a
// CTS is refused as a type.
pub fn read_served(bytes: &[u8], limit: usize) -> Result<Packet, Refusal>
    ensures { result ≡ read_of served_row limit bytes.now }
{
    among(bytes, limit, false)
}
