// What is printed of packets and values.
use protocol::{Packet, Shape};
use std::{fmt, io};

// A packet that was read, as its line says it: its type, its own fields by name and in the order of their
// table, and where its sections lie. Of a medium packet 01 calls the message's length what table 3.4 calls seg_length.
#[derive(Clone, Copy)]
pub(crate) struct PacketLine(pub Packet);

impl PacketLine {
    fn fields<W: fmt::Write>(&self, f: &mut fmt::Formatter<W>) -> fmt::Result {
        let v = self.0.header.fields;
        match self.0.shape {
            Shape::Cts => {
                write!(f, " send_id {} recv_id {}", v.send_id, v.recv_id)?;
                write!(f, " recv_length {}", v.recv_length)
            }
            Shape::CtsData => {
                write!(f, " recv_id {} seg_length {}", v.recv_id, v.seg_length)?;
                write!(f, " seg_offset {}", v.seg_offset)
            }
            Shape::Eager => write!(f, " msg_id {}", v.msg_id),
            Shape::Medium => {
                write!(f, " msg_id {} msg_length {}", v.msg_id, v.msg_length)?;
                write!(f, " seg_offset {}", v.seg_offset)
            }
            Shape::LongCts => {
                write!(f, " msg_id {} msg_length {}", v.msg_id, v.msg_length)?;
                write!(
                    f,
                    " send_id {} credit_request {}",
                    v.send_id, v.credit_request
                )
            }
        }
    }

    fn options<W: fmt::Write>(&self, f: &mut fmt::Formatter<W>) -> fmt::Result {
        let header = self.0.header;
        let raw = self.0.raw_address;
        if header.raw_address {
            write!(f, " raw_address at {} size {}", raw.at, raw.size)?;
        } else {
            write!(f, " raw_address none")?;
        }
        match header.cq_data {
            Some(value) => write!(f, " cq_data {value}")?,
            None => write!(f, " cq_data none")?,
        }
        match header.connid {
            Some(value) => write!(f, " connid {value}"),
            None => write!(f, " connid none"),
        }
    }
}

impl fmt::Display for PacketLine {
    fn fmt<W: fmt::Write>(&self, f: &mut fmt::Formatter<W>) -> fmt::Result {
        let packet = self.0;
        write!(f, " type {}", packet.header.kind)?;
        self.fields(f)?;
        if packet.tagged {
            write!(f, " tag {}", packet.header.fields.tag)?;
        }
        self.options(f)?;
        write!(f, " data at {} size {}", packet.data.at, packet.data.size)
    }
}

// A line, or the number behind a +, that is not understood.
pub(crate) fn bad(rt: &impl Print, part: &[u8]) -> io::Result<()> {
    rt.write_all(b"bad ")?;
    rt.write_all(part)?;
    rt.write_all(b"\n")
}
