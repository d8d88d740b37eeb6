// The words of a packet's values.
pub const VALUES: usize = 19;

// What reader and writer answer where they are not refused.
// The number 0, as callers in other languages are told it.
pub(crate) const TAKEN: usize = 0;
