// What a packet type is, by the shape that its row of the table has.
ghost use Rattle.std.specs.Prelude.{◌≡◌};
ghost use Rattle.peer.specs.Incomings.{is_eager, is_medium, is_long, is_rtm};

use protocol::Shape;

// Whether the packet brings a whole message.
pub(crate) fn is_eager(shape: Shape) -> bool
    ensures { result ≡ is_eager shape }
{
    matches!(shape, Shape::Eager)
}

// Whether the packet brings a segment of a message whose segments need no grant.
pub(crate) fn is_medium(shape: Shape) -> bool
    ensures { result ≡ is_medium shape }
{
    matches!(shape, Shape::Medium)
}

// Whether the packet begins a message that goes on by grants.
pub(crate) fn is_long(shape: Shape) -> bool
    ensures { result ≡ is_long shape }
{
    matches!(shape, Shape::LongCts)
}

// Whether the packet names its message by the sender's id: these three kinds do.
pub(crate) fn is_rtm(shape: Shape) -> bool
    ensures { result ≡ is_rtm shape }
{
    matches!(shape, Shape::Eager | Shape::Medium | Shape::LongCts)
}
