// What a packet of EFA RDM protocol v4 is: its types here, the definitions of reading and writing in
// specs/, and what is proved of them in proofs/. Reader and writer stand in `packet`.
#![tactic(auto)]

mod flags;
mod limits;
mod places;
mod refusals;
mod sections;
mod table;
mod types;

pub use flags::{CONNID, CQ_DATA, RAW_ADDRESS};
pub use limits::PACKET_LIMIT;
pub use places::{
    COUNT, CREDIT_REQUEST, MSG_ID, MSG_LENGTH, MULTIUSE, PADDING, RECV_ID, RECV_LENGTH, SEG_LENGTH,
    SEG_OFFSET, SEND_ID, TAG,
};
pub use refusals::Refusal;
pub use sections::Sections;
pub use table::{Shape, TypeRow};
pub use types::{Fields, Header, Packet, Span};
