// Reader and writer of the packets of EFA RDM protocol v4. The published functions are `read`,
// `read_served` and `write`: each states its whole result by a definition of `protocol`, and none
// asks anything of its caller.
#![tactic(auto)]

mod limits;
mod reader;
mod writer;

pub use reader::{read, read_served};
pub use writer::write;
