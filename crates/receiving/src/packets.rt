// A packet of one peer, from its bytes to what it leaves.
ghost use Rattle.std.specs.Prelude.{◌≡◌, length};
ghost use Rattle.receiving.specs.Preconditions.{Limited, Mapped};
ghost use Rattle.peer.specs.Calls.{packet_effect};
ghost use Rattle.receiving.specs.Leaves.{packet_leaves};

use crate::{effects, incoming};
use peer::{Peer, Step};
use protocol::Refusal;

// A packet comes in: it is read, judged, and the verdict carried out in the peer's own area and map words.
pub fn packet(
    peer: Peer,
    limit: usize,
    bytes: &[u8],
    area: &mut [u8],
    words: &mut [u64],
    reply: &mut [u8],
) -> Step
    requires limited { Limited limit }
    requires mapped { Mapped (length area.old) (length words.old) peer }
    ensures { record { step = result; area = area.new; words = words.new; reply = reply.new } ≡ packet_leaves area.old reply.old (packet_effect limit peer words.old bytes.now (length reply.old)) }
{
    if reply.len() < Peer::CTS_LENGTH {
        return peer.refused(Refusal::ShortReply);
    }
    match packet::read_served(bytes, limit) {
        Err(refusal) => peer.refused(refusal),
        Ok(packet) => {
            let data = packet.data;
            let at = data.at;
            let end = at + data.size;
            let h = incoming::incoming_of(packet);
            effects::carry(peer, limit, h, &bytes[at..end], area, words, reply)
        }
    }
}
