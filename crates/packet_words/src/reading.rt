// A packet is read into words.
ghost use Rattle.std.specs.Prelude.{◌≡◌};
ghost use Rattle.packet_words.specs.Values.{value_words, read_into};

use crate::types::{TAKEN, VALUES};
use protocol::{Packet, Refusal};

// It is no `From`, since `Packet` is another crate's. 19 and not `VALUES`: another length than the definition's is refused by
// the clause, and not by the array.
fn value_words(packet: Packet) -> [u64; 19]
    ensures { result ≡ value_words packet }
{
    let header = packet.header;
    let fields = header.fields;
    let raw = packet.raw_address;
    let data = packet.data;
    let cq = header.cq_data;
    let connid = header.connid;
    [
        header.kind as u64,
        fields.msg_id as u64,
        fields.recv_id as u64,
        fields.send_id as u64,
        fields.msg_length,
        fields.seg_length,
        fields.recv_length,
        fields.seg_offset,
        fields.credit_request as u64,
        fields.tag,
        words::bit_of(header.raw_address),
        raw.at as u64,
        raw.size as u64,
        words::option_bit(cq),
        words::option_value(cq),
        words::option_bit(connid),
        words::option_value(connid.map(u64::from)),
        data.at as u64,
        data.size as u64,
    ]
}

// Reads a packet of at most 8,192 bytes, puts its values into the first words, and answers 0; or
// answers the number of a refusal, and leaves them.
// It answers a number and no `Result`, since `quagfeather_read` answers it as it is.
pub fn read(bytes: &[u8], values: &mut [u64]) -> usize
    ensures { record { refusal = result; values = values.new } ≡ read_into bytes.now values.old }
{
    if values.len() < VALUES {
        return Refusal::NoRoom.number() as usize;
    }
    match packet::read(bytes) {
        Err(refusal) => refusal.number() as usize,
        Ok(packet) => {
            words::put_words(values, 0, &value_words(packet));
            TAKEN
        }
    }
}
