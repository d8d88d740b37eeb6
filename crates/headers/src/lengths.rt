// The rules on a packet's lengths.
ghost use Rattle.std.specs.Prelude.{◌≡◌};
ghost use Rattle.protocol.specs.Lengths.{lengths_fit};

use protocol::{Fields, Shape};

// Whether a packet may have these numbers and so many bytes of data.
pub fn fit(shape: Shape, fields: Fields, size: usize) -> bool
    ensures { result ≡ lengths_fit shape fields size }
{
    let n = size as u64;
    match shape {
        Shape::Cts => n == 0 && 1 <= fields.recv_length,
        Shape::CtsData => 1 <= n && n == fields.seg_length,
        Shape::Eager => true,
        Shape::Medium => 1 <= n
            && wire::ends_by(fields.seg_offset as usize, size, fields.msg_length as usize),
        Shape::LongCts => 1 <= fields.msg_length && n <= fields.msg_length,
    }
}
