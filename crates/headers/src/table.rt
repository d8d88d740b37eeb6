// The table of packet types, which reader and writer share.
ghost use Rattle.std.specs.Prelude.{◌≡◌, eqb, option_copied};
ghost use Rattle.std.specs.List.{find};
ghost use Rattle.protocol.specs.Types.{admit, reader_rows, row_of};

use protocol::{
    CREDIT_REQUEST, MSG_ID, MSG_LENGTH, MULTIUSE, RECV_ID, RECV_LENGTH, SEG_LENGTH, SEG_OFFSET,
    SEND_ID, Shape, TAG, TypeRow,
};

// Flags that an RTM may have: raw address, CQ data and connid; and that CTS and CTSDATA may have.
const RTM_MAY: u16 = 0x8003;

const CTS_MAY: u16 = 0x8000;

// The number of types in the table.
const ROWS: usize = 8;

const TYPES: [TypeRow; ROWS] = [
    TypeRow {
        kind: 3,
        shape: Shape::Cts,
        tagged: false,
        served: false,
        must: 0x0,
        may: CTS_MAY,
        header: 24,
        places: 1 * MULTIUSE + 2 * SEND_ID + 3 * RECV_ID + 4 * RECV_LENGTH,
        connid: 0,
        request: false,
        length_at: 16,
        unit: 0,
        less: 0,
    },
    TypeRow {
        kind: 4,
        shape: Shape::CtsData,
        tagged: false,
        served: true,
        must: 0x0,
        may: CTS_MAY,
        header: 24,
        places: 1 * RECV_ID + 2 * SEG_LENGTH + 4 * SEG_OFFSET,
        connid: 8,
        request: false,
        length_at: 8,
        unit: 0,
        less: 0,
    },
    TypeRow {
        kind: 64,
        shape: Shape::Eager,
        tagged: false,
        served: true,
        must: 0x4,
        may: RTM_MAY,
        header: 8,
        places: 1 * MSG_ID,
        connid: 4,
        request: true,
        length_at: 0,
        unit: 0,
        less: 0,
    },
    TypeRow {
        kind: 65,
        shape: Shape::Eager,
        tagged: true,
        served: true,
        must: 0xc,
        may: RTM_MAY,
        header: 16,
        places: 1 * MSG_ID + 2 * TAG,
        connid: 4,
        request: true,
        length_at: 0,
        unit: 0,
        less: 0,
    },
    TypeRow {
        kind: 66,
        shape: Shape::Medium,
        tagged: false,
        served: true,
        must: 0x4,
        may: RTM_MAY,
        header: 24,
        places: 1 * MSG_ID + 2 * MSG_LENGTH + 4 * SEG_OFFSET,
        connid: 4,
        request: true,
        length_at: 8,
        unit: 0,
        less: 0,
    },
    TypeRow {
        kind: 67,
        shape: Shape::Medium,
        tagged: true,
        served: true,
        must: 0xc,
        may: RTM_MAY,
        header: 32,
        places: 1 * MSG_ID + 2 * MSG_LENGTH + 4 * SEG_OFFSET + 6 * TAG,
        connid: 4,
        request: true,
        length_at: 8,
        unit: 0,
        less: 0,
    },
    TypeRow {
        kind: 68,
        shape: Shape::LongCts,
        tagged: false,
        served: true,
        must: 0x4,
        may: RTM_MAY,
        header: 24,
        places: 1 * MSG_ID + 2 * MSG_LENGTH + 4 * SEND_ID + 5 * CREDIT_REQUEST,
        connid: 4,
        request: true,
        length_at: 8,
        unit: 0,
        less: 0,
    },
    TypeRow {
        kind: 69,
        shape: Shape::LongCts,
        tagged: true,
        served: true,
        must: 0xc,
        may: RTM_MAY,
        header: 32,
        places: 1 * MSG_ID + 2 * MSG_LENGTH + 4 * SEND_ID + 5 * CREDIT_REQUEST + 6 * TAG,
        connid: 4,
        request: true,
        length_at: 8,
        unit: 0,
        less: 0,
    },
];

// The first of some rows with this type.
fn first(rows: &[TypeRow], kind: u8) -> Option<&TypeRow>
    ensures { option_copied result ≡ find (λ (r : TypeRow). eqb r.kind kind) rows.now }
{
    rows.iter().find(|row| row.kind == kind)
}

// The row of a packet type.
pub fn find(kind: u8) -> Option<TypeRow>
    ensures { result ≡ row_of kind }
{
    first(&TYPES, kind).copied()
}

// The same, of all types or only of those that the engine serves.
// `all` is a truth value and no closure: two tests of a row are all that there are.
#[tactic(auto, unfolding(protocol::specs::Types::admit, laws::specs::Choose::pick))]
pub fn find_among(kind: u8, all: bool) -> Option<TypeRow>
    ensures { result ≡ admit (reader_rows all) (row_of kind) }
{
    find(kind).filter(|row| all || row.served)
}
