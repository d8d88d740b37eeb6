// The version of the protocol.
pub(crate) const VERSION: u8 = 4;
