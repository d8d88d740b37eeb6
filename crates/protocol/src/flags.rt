// The flags of the optional headers.
// They are numbers and no enum: they stand on the wire, several in one.

pub const RAW_ADDRESS: u16 = 0x1;

pub const CQ_DATA: u16 = 0x2;

pub const CONNID: u16 = 0x8000;
