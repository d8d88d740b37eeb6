// Where a packet's optional headers and its data lie.
use crate::types::Span;

// The raw address, and where CQ data, connid and data begin.
#[derive(Clone, Copy, PartialEq, Eq, Debug)]
pub struct Sections {
    pub raw: Span,
    pub cq_at: usize,
    pub connid_at: usize,
    pub data_at: usize,
}
