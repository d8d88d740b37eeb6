// What is read from a trace, with the place behind it.

// The first three numbers of a trace: how many peers, the bytes of an area, and the longest packet.
#[derive(Clone, Copy)]
pub struct SetUp {
    pub n: usize,
    pub area: usize,
    pub limit: usize,
}
