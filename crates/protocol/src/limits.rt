// The longest packet that reader and writer take, and the highest limit that a set-up may give.
pub const PACKET_LIMIT: usize = 8192;
