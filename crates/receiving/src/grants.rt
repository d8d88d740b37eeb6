// How much a grant is for, and the CTS that says so.
ghost use Rattle.std.specs.Prelude.{◌≡◌, ◌≤◌, min, max, length};
ghost use Rattle.laws.specs.Parts.{store_at};
ghost use Rattle.protocol.specs.Cts.{cts_header, cts_bytes};
ghost use Rattle.receiving.specs.Preconditions.{MayGrant};
ghost use Rattle.peer.specs.Effects.{grant_of};

use peer::{Message, Peer};
use protocol::{Fields, Header};

// The numbers of a CTS packet; its flags are clear.
// Its type is the wire's number, as a header has it.
fn cts_header(send_id: u32, recv_id: u32, recv_length: usize) -> Header
    ensures { result ≡ cts_header send_id recv_id recv_length }
{
    let fields = Fields {
        msg_id: 0,
        recv_id,
        send_id,
        msg_length: 0,
        seg_length: 0,
        recv_length: recv_length as u64,
        seg_offset: 0,
        credit_request: 0,
        tag: 0,
    };
    Header {
        kind: 3,
        fields,
        raw_address: false,
        cq_data: None,
        connid: None,
    }
}

// A CTS is written to the start of the reply buffer.
pub(crate) fn write_cts(reply: &mut [u8], send_id: u32, recv_id: u32, recv_length: usize)
    requires in_bounds { 24 ≤ length reply.old }
    requires le_recv_length { 1 ≤ recv_length }
    ensures { reply.new ≡ store_at reply.old 0 (cts_bytes send_id recv_id recv_length) }
{
    let header = cts_header(send_id, recv_id, recv_length);
    // never refused, as the clause says of the bytes: a CTS of at least one byte, into 24 bytes
    let _ = packet::write(header, &[], &[], reply);
}

// How many packets a grant is for: as many as are asked for, from 1 to 16.
fn granted_packets(credit_request: u32) -> usize
    ensures { result ≡ min (max credit_request 1) 16 }
{
    credit_request.clamp(1, 16) as usize
}

// How many bytes the next CTS grants.
#[tactic(auto, unfolding(peer::specs::Effects::grant_of))]
pub(crate) fn grant_of(message: Message, limit: usize) -> usize
    requires { MayGrant limit message }
    ensures { result ≡ grant_of limit message }
{
    let most = granted_packets(message.credit_request) * (limit - Peer::HEADER_ALLOWANCE);
    let left = message.length - message.granted;
    left.min(most)
}
