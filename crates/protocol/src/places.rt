// Where a row of the table says that fields stand: a digit of 4 bits for each field, in words of 4
// bytes, 0 where the type has no such field.

// The unit of each field's digit in a row's places.
// They are numbers and no enum: `Layout` divides a row's places by them.
pub const MSG_ID: u64 = 0x1;

pub const RECV_ID: u64 = 0x10;

pub const SEND_ID: u64 = 0x100;

pub const MSG_LENGTH: u64 = 0x1000;

pub const SEG_LENGTH: u64 = 0x1_0000;

pub const RECV_LENGTH: u64 = 0x10_0000;

pub const SEG_OFFSET: u64 = 0x100_0000;

pub const CREDIT_REQUEST: u64 = 0x1000_0000;

pub const TAG: u64 = 0x1_0000_0000;

pub const MULTIUSE: u64 = 0x10_0000_0000;

pub const PADDING: u64 = 0x100_0000_0000;

// how many members a counted array has, and `less` of its row more
pub const COUNT: u64 = 0x1000_0000_0000;
