// The fields of a packet, read and written where its type's row says that they stand.
ghost use Rattle.std.specs.Prelude.{[], ◌∷◌, ◌≡◌, ◌+◌, ◌≤◌, ◌<◌, length};
ghost use Rattle.laws.specs.Parts.{store_at};
ghost use Rattle.protocol.specs.FieldNumbers.{count_in, field_bytes, fields_in, number_there, put_fields, put_there};
ghost use Rattle.protocol.specs.Layout.{Field, credit_request, layout, msg_id, msg_length, multiuse, padding, place_by, recv_id, recv_length, seg_length, seg_offset, send_id, tag};
ghost use Rattle.protocol.specs.Rules.{Sound};

use protocol::{
    COUNT, CREDIT_REQUEST, Fields, Header, MSG_ID, MSG_LENGTH, MULTIUSE, PADDING, RECV_ID,
    RECV_LENGTH, SEG_LENGTH, SEG_OFFSET, SEND_ID, TAG, TypeRow,
};
use wire::LittleEndian;

// That the bytes hold the header is asked by each of these: a struct of row and bytes would hold a `&mut` for the writers.

// Where a field stands; 0 where the type has no such field.
pub(crate) fn place(places: u64, unit: u64) -> usize
    requires { 0 < unit }
    ensures { result ≡ place_by places unit }
{
    (places / unit % 16 * 4) as usize
}

// The number of a field; 0 where the type has no such field.
fn number<T: LittleEndian>(bytes: &[u8], places: u64, unit: u64) -> T
    requires unit_nonzero { 0 < unit }
    requires unit_in_bounds { place_by places unit + T.width ≤ length bytes.now }
    ensures { T.value result ≡ number_there (place_by places unit) T.width bytes.now }
{
    let at = place(places, unit);
    if at == 0 {
        return T::zero();
    }
    T::read(bytes, at)
}

// All fields of a packet.
pub fn read(row: TypeRow, bytes: &[u8]) -> Fields
    requires sound { Sound row }
    requires header_in_bounds { row.header ≤ length bytes.now }
    ensures { result ≡ fields_in (layout row) 4 bytes.now }
{
    Fields {
        msg_id: number(bytes, row.places, MSG_ID),
        recv_id: number(bytes, row.places, RECV_ID),
        send_id: number(bytes, row.places, SEND_ID),
        msg_length: number(bytes, row.places, MSG_LENGTH),
        seg_length: number(bytes, row.places, SEG_LENGTH),
        recv_length: number(bytes, row.places, RECV_LENGTH),
        seg_offset: number(bytes, row.places, SEG_OFFSET),
        credit_request: number(bytes, row.places, CREDIT_REQUEST),
        tag: number(bytes, row.places, TAG),
    }
}

// The count of an array; 0 where the type has none.
pub(crate) fn count(row: TypeRow, bytes: &[u8]) -> u32
    requires sound { Sound row }
    requires header_in_bounds { row.header ≤ length bytes.now }
    ensures { result ≡ count_in row bytes.now }
{
    number(bytes, row.places, COUNT)
}

// Puts a number there, if the type has the field.
fn put<T: LittleEndian>(out: &mut [u8], places: u64, unit: u64, x: T)
    requires unit_nonzero { 0 < unit }
    requires unit_in_bounds { place_by places unit + T.width ≤ length out.old }
    ensures { out.new ≡ put_there (place_by places unit) T.width (T.value x) out.old }
{
    let at = place(places, unit);
    if at == 0 {
        return;
    }
    x.write(out, at);
}

// The identifiers. They stand as they are, whatever the count of an array.
fn write_ids(row: TypeRow, header: Header, out: &mut [u8])
    requires sound { Sound row }
    requires header_in_bounds { row.header ≤ length out.old }
    ensures { out.new ≡ put_fields row 0 header (msg_id ∷ recv_id ∷ send_id ∷ []) out.old }
{
    let fields = header.fields;
    put(out, row.places, MSG_ID, fields.msg_id);
    put(out, row.places, RECV_ID, fields.recv_id);
    put(out, row.places, SEND_ID, fields.send_id);
}

// The lengths, and the offset.
fn write_lengths(row: TypeRow, header: Header, out: &mut [u8])
    requires sound { Sound row }
    requires header_in_bounds { row.header ≤ length out.old }
    ensures { out.new ≡ put_fields row 0 header (msg_length ∷ seg_length ∷ recv_length ∷ seg_offset ∷ []) out.old }
{
    let fields = header.fields;
    put(out, row.places, MSG_LENGTH, fields.msg_length);
    put(out, row.places, SEG_LENGTH, fields.seg_length);
    put(out, row.places, RECV_LENGTH, fields.recv_length);
    put(out, row.places, SEG_OFFSET, fields.seg_offset);
}

// Credit request and tag.
fn write_others(row: TypeRow, header: Header, out: &mut [u8])
    requires sound { Sound row }
    requires header_in_bounds { row.header ≤ length out.old }
    ensures { out.new ≡ put_fields row 0 header (credit_request ∷ tag ∷ []) out.old }
{
    let fields = header.fields;
    put(out, row.places, CREDIT_REQUEST, fields.credit_request);
    put(out, row.places, TAG, fields.tag);
}

// The fields that are no values: multiuse with the connid, if there is one, padding with zero, and the
// count. They have the highest digits of the places, and few types have one: these are done with
// one test.
fn write_valueless(row: TypeRow, header: Header, count: u32, out: &mut [u8])
    requires sound { Sound row }
    requires header_in_bounds { row.header ≤ length out.old }
    ensures { out.new ≡ put_fields row count header (multiuse ∷ padding ∷ Field.count ∷ []) out.old }
{
    if row.places < MULTIUSE {
        return;
    }
    let connid = header.connid.unwrap_or(0);
    put(out, row.places, MULTIUSE, connid);
    put(out, row.places, PADDING, 0u32);
    put(out, row.places, COUNT, count);
}

// All fields of a packet are written, with this count.
pub fn write(row: TypeRow, header: Header, count: u32, out: &mut [u8])
    requires sound { Sound row }
    requires header_in_bounds { row.header ≤ length out.old }
    ensures { out.new ≡ store_at out.old 4 (field_bytes (layout row) count header) }
{
    write_ids(row, header, out);
    write_lengths(row, header, out);
    write_others(row, header, out);
    write_valueless(row, header, count, out);
}
