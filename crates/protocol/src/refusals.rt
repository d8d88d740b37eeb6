// Why a call or a packet is refused: the rows of 01's table, each with its number there.
ghost use Rattle.std.specs.Prelude.{◌≡◌};
ghost use Rattle.protocol.specs.Refusals.{number};

#[derive(Clone, Copy, PartialEq, Eq, Debug)]
pub enum Refusal {
    BadSetUp = 1,
    BadState,
    BadLent,
    BadPeer,
    ShortReply,
    AboveLimit,
    CutShort,
    BadVersion,
    BadType,
    BadFlags,
    BadLength,
    Early,
    NoReceive,
    Differs,
    Late,
    Repeated,
    BeyondGrant,
    NoSlot,
    Overlaps,
    BadSlot,
    NoRoom,
}

impl Refusal {
    // The number of 01's table.
    pub fn number(self) -> u8
        ensures { result ≡ number self }
    {
        self as u8
    }
}
