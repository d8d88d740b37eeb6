// Where a packet's optional headers and its data lie.
ghost use Rattle.std.specs.Prelude.{◌≡◌, ◌<◌, ◌^◌};
ghost use Rattle.protocol.specs.Sections.{connid_at, extent_of};
ghost use Rattle.protocol.specs.SectionsInTurn.{cq_data_length, connid_length, sections_behind, sections_from};
ghost use Rattle.protocol.specs.Rules.{Sound};

use crate::{arrays, flags, layout};
use protocol::{CONNID, MULTIUSE, Sections, Span, TypeRow};
use wire::LittleEndian;

// The bytes that CQ data and connid take where they are flagged.
pub fn cq_data_length(row: TypeRow, flags: u16) -> usize
    ensures { result ≡ cq_data_length row flags }
{
    if flags::cq_data(row, flags) { 8 } else { 0 }
}

pub fn connid_length(row: TypeRow, flags: u16) -> usize
    ensures { result ≡ connid_length row flags }
{
    if flags::has(flags, CONNID) {
        row.connid as usize
    } else {
        0
    }
}

fn connid_at(row: TypeRow, after: usize) -> usize
    ensures { result ≡ connid_at row after }
{
    let at = layout::place(row.places, MULTIUSE);
    if at == 0 { after } else { at }
}

// The sections of a packet of n bytes, with its raw address, which ends before at.
fn from(row: TypeRow, flags: u16, raw: Span, at: usize, n: usize) -> Option<Sections>
    requires sound { Sound row }
    requires at_bound { at < 2 ^ 48 }
    ensures { result ≡ sections_from row flags raw at n }
{
    let after = at + cq_data_length(row, flags);
    let data_at = after + connid_length(row, flags);
    if n < data_at {
        return None;
    }
    Some(Sections {
        raw,
        cq_at: at,
        connid_at: connid_at(row, after),
        data_at,
    })
}

// The sections of a packet with these flags that follow its array, which ends before at.
fn behind(row: TypeRow, flags: u16, bytes: &[u8], at: usize) -> Option<Sections>
    requires sound { Sound row }
    requires at_bound { at < 2 ^ 41 }
    ensures { result ≡ sections_behind row flags bytes.now at }
{
    let n = bytes.len();
    if !flags::raw_address(row, flags) {
        return from(row, flags, Span { at: 0, size: 0 }, at, n);
    }
    let start = at + 4;
    if n < start {
        return None;
    }
    let size = u32::read(bytes, at) as usize;
    from(row, flags, Span { at: start, size }, start + size, n)
}

// The sections of a packet with these flags.
pub fn find(row: TypeRow, flags: u16, bytes: &[u8]) -> Option<Sections>
    requires { Sound row }
    ensures { result ≡ extent_of row flags bytes.now }
{
    let at = row.header as usize;
    if bytes.len() < at {
        return None;
    }
    if row.unit == 0 {
        return behind(row, flags, bytes, at);
    }
    let size = arrays::length(row, layout::count(row, bytes));
    behind(row, flags, bytes, at + size)
}
