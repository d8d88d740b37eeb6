// What a packet that was read says of its message and of its segment.
ghost use Rattle.std.specs.Prelude.{◌≡◌};
ghost use Rattle.laws.specs.Choose.{pick};
ghost use Rattle.peer.specs.Incomings.{is_rtm, is_eager, incoming_of};

use crate::shapes;
use peer::Incoming;
use protocol::{Fields, Packet, Shape};

// The message's id: CTSDATA names its message by recv_id.
#[tactic(auto, unfolding(laws::specs::Choose::pick))]
fn message_id(shape: Shape, fields: Fields) -> u32
    ensures { result ≡ pick (is_rtm shape) fields.msg_id fields.recv_id }
{
    if shapes::is_rtm(shape) {
        fields.msg_id
    } else {
        fields.recv_id
    }
}

// The message's length: an eager packet's data, `size` bytes, are the whole message.
#[tactic(auto, unfolding(laws::specs::Choose::pick))]
fn message_length(shape: Shape, fields: Fields, size: usize) -> usize
    ensures { result ≡ pick (is_eager shape) size fields.msg_length }
{
    if shapes::is_eager(shape) {
        size
    } else {
        fields.msg_length as usize
    }
}

// What the packet says. It is no `From`, since both types are other crates'.
#[tactic(auto, unfolding(peer::specs::Incomings::incoming_of))]
pub(crate) fn incoming_of(packet: Packet) -> Incoming
    ensures { result ≡ incoming_of packet }
{
    let shape = packet.shape;
    let fields = packet.header.fields;
    let data = packet.data;
    Incoming {
        shape,
        tagged: packet.tagged,
        id: message_id(shape, fields),
        tag: fields.tag,
        length: message_length(shape, fields, data.size),
        offset: fields.seg_offset as usize,
        size: data.size,
        send_id: fields.send_id,
        credit_request: fields.credit_request,
        cq_data: packet.header.cq_data,
    }
}
