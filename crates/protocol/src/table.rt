// What the table of packet types says of a type.

// The kinds of packets, by which the rules on lengths are told apart.
#[derive(Clone, Copy, PartialEq, Eq, Debug)]
pub enum Shape {
    Cts,
    CtsData,
    Eager,
    Medium,
    LongCts,
}

// A place or a unit of 0 stands for none, and no Option: so `place_by` and `number_there` read it, and a row stays 24 bytes.
#[derive(Clone, Copy, PartialEq, Eq, Debug)]
pub struct TypeRow {
    // the type's number
    pub kind: u8,
    pub shape: Shape,
    pub tagged: bool,
    // whether the receive engine takes such packets
    pub served: bool,
    // flags that a packet of the type has, and flags that it may have besides
    pub must: u16,
    pub may: u16,
    // bytes of the mandatory header
    pub header: u8,
    // bytes that the connid takes after the other optional headers, with its padding
    pub connid: u8,
    // where its length stands, of the message, the segment or the grant; 0: the type has none
    pub length_at: u8,
    // whether raw address (flag 0x1) and CQ data (flag 0x2) may follow
    pub request: bool,
    // a counted array behind the fixed fields: bytes of a member, 0: the type has none; and how many
    // members fewer than its count says there are
    pub unit: u8,
    pub less: u8,
    // where its fields stand: 4 bits a field, in words of 4 bytes; 0: the type has no such field.
    // Last, and small numbers as bytes: a row is 24 bytes, which reader and writer copy
    pub places: u64,
}
