// What a packet holds, and what the reader and the writer answer.
use crate::table::Shape;

// The numbers of a type's own fields; 0 in a field that the type has not.
#[derive(Clone, Copy, PartialEq, Eq, Debug)]
pub struct Fields {
    pub msg_id: u32,
    pub recv_id: u32,
    pub send_id: u32,
    pub msg_length: u64,
    pub seg_length: u64,
    pub recv_length: u64,
    pub seg_offset: u64,
    pub credit_request: u32,
    pub tag: u64,
}

// The numbers of a packet, and whether it has a raw address. The bytes of raw address and data
// stand beside it: lent to the writer, in the packet for the reader.
// `kind` is the number as it stands on the wire: the writer is given any, and refuses those that the table has
// not (`write_of`).
#[derive(Clone, Copy, PartialEq, Eq, Debug)]
pub struct Header {
    pub kind: u8,
    pub fields: Fields,
    pub raw_address: bool,
    pub cq_data: Option<u64>,
    pub connid: Option<u32>,
}

// Some bytes of a packet: size of them, from at on.
#[derive(Clone, Copy, PartialEq, Eq, Debug)]
pub struct Span {
    pub at: usize,
    pub size: usize,
}

// Its raw address is told twice, by a flag in the header and by its place here, since a header that is read is one that can
// be written (`HeaderReadsBack`), and the writer is lent the bytes.
// A packet that was read: its numbers, what the table says of its type, and where its raw address,
// which is empty where there is none, and its data lie.
#[derive(Clone, Copy, PartialEq, Eq, Debug)]
pub struct Packet {
    pub header: Header,
    pub shape: Shape,
    pub tagged: bool,
    pub raw_address: Span,
    pub data: Span,
}
