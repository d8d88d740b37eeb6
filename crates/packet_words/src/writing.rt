// A packet is written from words.
ghost use Rattle.std.specs.Prelude.{ℕ, ◌≡◌, ◌≤◌, length};
ghost use Rattle.protocol.specs.Layout.{own_fields};
ghost use Rattle.protocol.specs.Optional.{options_fit};
ghost use Rattle.protocol.specs.Rules.{Sound};
ghost use Rattle.protocol.specs.Writing.{write_of};
ghost use Rattle.packet_words.specs.Writing.{all_narrow, fields_fit, holds, words_fit, words_fields, words_cq, words_connid, words_header, put_as, put_typed, write_from};

// The words are a slice of at least 19 and no array of 19: `write_from` and the definitions below it read the words of any list
// that is long enough.
use crate::types::{TAKEN, VALUES};
use protocol::{CREDIT_REQUEST, Fields, Header, MSG_ID, RECV_ID, Refusal, SEND_ID, TypeRow};

// The least number that 32 bits do not hold.
const WIDE: u64 = 0x1_0000_0000;

// Whether a packet of this type may have the optional headers that the words say.
fn options_fit(row: TypeRow, values: &[u64]) -> bool
    requires sound { Sound row }
    requires in_bounds { 19 ≤ length values.now }
    ensures { result ≡ options_fit row (words_header values.now) }
{
    headers::flags::options_fit(row, header_in(values))
}

// Whether 32 bits hold a number, if it is there.
#[tactic(auto, unfolding(laws::specs::Choose::pick))]
fn holds(there: u64, word: u64) -> bool
    ensures { result ≡ holds there word }
{
    there == 0 || word < WIDE
}

// Whether each own field of the type holds its number. A field of 64 bits does.
#[tactic(auto, using(crate::proofs::Fitting::own_fit))]
fn fields_fit(row: TypeRow, values: &[u64]) -> bool
    requires sound { Sound row }
    requires in_bounds { 19 ≤ length values.now }
    ensures { result ≡ fields_fit values.now (own_fields row) }
{
    holds(row.places / MSG_ID % 16, values[1])
        && holds(row.places / RECV_ID % 16, values[2])
        && holds(row.places / SEND_ID % 16, values[3])
        && holds(row.places / CREDIT_REQUEST % 16, values[8])
}

#[tactic(auto, unfolding(crate::specs::Writing::words_fit))]
fn numbers_fit(row: TypeRow, values: &[u64]) -> bool
    requires sound { Sound row }
    requires in_bounds { 19 ≤ length values.now }
    ensures { result ≡ words_fit row values.now }
{
    fields_fit(row, values) && holds(values[15], values[16])
}

fn fields_in(values: &[u64]) -> Fields
    requires { 19 ≤ length values.now }
    ensures { result ≡ words_fields values.now }
{
    Fields {
        msg_id: (values[1] % WIDE) as u32,
        recv_id: (values[2] % WIDE) as u32,
        send_id: (values[3] % WIDE) as u32,
        msg_length: values[4],
        seg_length: values[5],
        recv_length: values[6],
        seg_offset: values[7],
        credit_request: (values[8] % WIDE) as u32,
        tag: values[9],
    }
}

#[tactic(auto, unfolding(laws::specs::Choose::pick))]
fn cq_in(values: &[u64]) -> Option<u64>
    requires { 19 ≤ length values.now }
    ensures { result ≡ words_cq values.now }
{
    (values[13] != 0).then_some(values[14])
}

#[tactic(auto, unfolding(laws::specs::Choose::pick))]
fn connid_in(values: &[u64]) -> Option<u32>
    requires { 19 ≤ length values.now }
    ensures { result ≡ words_connid values.now }
{
    (values[15] != 0).then_some((values[16] % WIDE) as u32)
}

// The header that the words say. It is no `From`, since `Header` is another crate's.
fn header_in(values: &[u64]) -> Header
    requires { 19 ≤ length values.now }
    ensures { result ≡ words_header values.now }
{
    let fields = fields_in(values);
    let cq_data = cq_in(values);
    let connid = connid_in(values);
    Header {
        kind: (values[0] % 256) as u8,
        fields,
        raw_address: values[10] != 0,
        cq_data,
        connid,
    }
}

// Whether every number of 32 bits is one: then no row has to be looked at for them.
#[tactic(auto, unfolding(crate::specs::Writing::all_narrow))]
fn all_narrow(values: &[u64]) -> bool
    requires { 19 ≤ length values.now }
    ensures { result ≡ all_narrow values.now }
{
    values[1] < WIDE
        && values[2] < WIDE
        && values[3] < WIDE
        && values[8] < WIDE
        && values[16] < WIDE
}

// The packet writer on the header that the words say.
fn write_header(
    values: &[u64],
    raw_address: &[u8],
    data: &[u8],
    out: &mut [u8],
) -> Result<usize, Refusal>
    requires { 19 ≤ length values.now }
    ensures { record { answer = result; out = out.new } ≡ write_of (words_header values.now) raw_address.now «data».now out.old }
{
    packet::write(header_in(values), raw_address, data, out)
}

// Writes a packet of a type that the table has.
fn write_as(
    row: TypeRow,
    values: &[u64],
    raw_address: &[u8],
    data: &[u8],
    out: &mut [u8],
) -> Result<usize, Refusal>
    requires sound { Sound row }
    requires in_bounds { 19 ≤ length values.now }
    ensures { (size : ℕ) → put_as size out.new result ≡ put_typed (Some row) values.now raw_address.now «data».now out.old size }
{
    if !options_fit(row, values) {
        return Err(Refusal::BadFlags);
    }
    if !numbers_fit(row, values) {
        return Err(Refusal::BadLength);
    }
    write_header(values, raw_address, data, out)
}

// Writes the packet with these values, raw address and data to the start of `out`, and answers its
// length. Refused, it leaves `out` as it was.
fn write_values(
    values: &[u64],
    raw_address: &[u8],
    data: &[u8],
    out: &mut [u8],
) -> Result<usize, Refusal>
    ensures { (size : ℕ) → put_as size out.new result ≡ write_from values.now raw_address.now «data».now out.old size }
{
    if values.len() < VALUES {
        return Err(Refusal::NoRoom);
    }
    let kind = values[0];
    if 255 < kind {
        return Err(Refusal::BadType);
    }
    // the usual case, in which the packet writer's own checks are all: its type is looked up once
    if all_narrow(values) {
        return write_header(values, raw_address, data, out);
    }
    let Some(row) = headers::table::find(kind as u8) else {
        return Err(Refusal::BadType);
    };
    write_as(row, values, raw_address, data, out)
}

// The same, but puts the length into `size`, and answers 0; or answers the number of a refusal, and
// leaves both. It answers a number and no `Result`, since `quagfeather_write` answers it as it is.
pub fn write(
    values: &[u64],
    raw_address: &[u8],
    data: &[u8],
    out: &mut [u8],
    size: &mut usize,
) -> usize
    ensures { record { refusal = result; out = out.new; size = size.new } ≡ write_from values.now raw_address.now «data».now out.old size.old }
{
    match write_values(values, raw_address, data, out) {
        Err(refusal) => refusal.number() as usize,
        Ok(n) => {
            *size = n;
            TAKEN
        }
    }
}
