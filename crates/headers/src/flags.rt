// Flags of a packet.
ghost use Rattle.std.specs.Prelude.{◌≡◌, ◌<◌};
ghost use Rattle.laws.specs.Choose.{pick};
ghost use Rattle.protocol.specs.Flags.{has_flag, flags_fit};
ghost use Rattle.protocol.specs.Optional.{cq_data, flagged, flags_of, options_fit, raw_address};
ghost use Rattle.protocol.specs.Rules.{Sound};

use protocol::{CONNID, CQ_DATA, Header, RAW_ADDRESS, TypeRow};

// Whether a flag is set.
pub fn has(flags: u16, flag: u16) -> bool
    requires { 0 < flag }
    ensures { result ≡ has_flag flags flag }
{
    flags / flag % 2 == 1
}

// Whether a packet of this type and with these flags has a raw address, or CQ data.
// Two functions and not one over the flag: each is one test, and has the name of what it tells.
pub fn raw_address(row: TypeRow, flags: u16) -> bool
    ensures { result ≡ flagged row flags raw_address }
{
    row.request && has(flags, RAW_ADDRESS)
}

pub fn cq_data(row: TypeRow, flags: u16) -> bool
    ensures { result ≡ flagged row flags cq_data }
{
    row.request && has(flags, CQ_DATA)
}

// Whether a packet of this type may have these flags.
pub fn fit(row: TypeRow, flags: u16) -> bool
    ensures { result ≡ flags_fit row flags }
{
    let optional = flags & row.may;
    flags - optional == row.must
}

// Whether a packet of this type may have the optional headers of this header: every type may have
// a connid, and a request the others too.
#[tactic(auto, using(protocol::proofs::FlagLaws::options_tested))]
pub fn options_fit(row: TypeRow, header: Header) -> bool
    requires { Sound row }
    ensures { result ≡ options_fit row header }
{
    row.request || (!header.raw_address && header.cq_data.is_none())
}

// The flag of an optional header that is there, or none.
#[tactic(auto, unfolding(laws::specs::Choose::pick))]
fn bit(there: bool, flag: u16) -> u16
    ensures { result ≡ pick there flag 0 }
{
    if there { flag } else { 0 }
}

// The flags that a packet with these optional headers is written with.
pub fn written(row: TypeRow, header: Header) -> u16
    requires { Sound row }
    ensures { result ≡ flags_of row header }
{
    let raw = bit(header.raw_address, RAW_ADDRESS);
    let cq = bit(header.cq_data.is_some(), CQ_DATA);
    let id = bit(header.connid.is_some(), CONNID);
    row.must + raw + cq + id
}
