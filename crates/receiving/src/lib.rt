// A packet of one peer: read, judged, and the verdict carried out in the peer's own area and map
// words. It serves `lending`, whose callers' checks show what it requires.
#![tactic(auto)]

mod effects;
mod grants;
mod incoming;
mod judging;
mod matching;
mod packets;
mod segment;
mod shapes;

pub use packets::packet;
