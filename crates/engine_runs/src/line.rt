// Name, numbers and bytes of a line.
ghost use Rattle.std.specs.Prelude.{◌≤◌, length};

// The least number that takes no digit more, since that might not fit.
const LARGE: u64 = 0x1000_0000_0000_0000;

// The most bytes of a packet.
const ROOM: usize = 128;

// What a line's first word asks for.
#[derive(Clone, Copy)]
pub(crate) enum Name {
    Title,
    SetUp,
    Post,
    Packet,
    Cancel,
    Report,
    Lend,
    Limit,
    Show,
}

// The name that a word is. What stands before its last eight bytes does not count, and neither do zeros.
// So every word has the answer that it always had.
pub(crate) fn name_of(word: &[u8]) -> Option<Name> {
    let last = word
        .iter()
        .fold(0u64, |value, byte| (value << 8) | u64::from(*byte));
    match last {
        0x74_69_74_6c_65 => Some(Name::Title),
        0x73_65_74_5f_75_70 => Some(Name::SetUp),
        0x70_6f_73_74 => Some(Name::Post),
        0x70_61_63_6b_65_74 => Some(Name::Packet),
        0x63_61_6e_63_65_6c => Some(Name::Cancel),
        0x72_65_70_6f_72_74 => Some(Name::Report),
        0x6c_65_6e_64 => Some(Name::Lend),
        0x6c_69_6d_69_74 => Some(Name::Limit),
        0x73_68_6f_77 => Some(Name::Show),
        _ => None,
    }
}

// How many bytes stand before the first space.
pub(crate) fn word_length(text: &[u8]) -> usize
    ensures { result ≤ length text.now }
{
    text.iter()
        .position(|byte| *byte == b' ')
        .unwrap_or(text.len())
}

// A number in so many digits of a base.
// Not by the library's reading of numbers, which takes a sign and more than `LARGE`.
fn in_base(digits: &[u8], base: u32) -> Option<u64>
    requires { (2 ≤ base) × (base ≤ 36) }
{
    if digits.is_empty() {
        return None;
    }
    let mut value: u64 = 0;
    for byte in digits {
        let digit = char::from(*byte).to_digit(base)?;
        if LARGE <= value {
            return None;
        }
        value = value
            .checked_mul(u64::from(base))?
            .checked_add(u64::from(digit))?;
    }
    Some(value)
}

// A decimal number, or a hexadecimal one behind 0x.
pub(crate) fn number(word: &[u8]) -> Option<u64> {
    match word.strip_prefix(b"0x") {
        Some(digits) => in_base(digits, 16),
        None => in_base(word, 10),
    }
}

// The numbers of a text, with a space before each: just so many.
pub(crate) fn numbers<const N: usize>(text: &[u8]) -> Option<[u64; N]> {
    let mut values = [0u64; N];
    let mut words = text.split(|byte| *byte == b' ').skip(1);
    for value in &mut values {
        *value = number(words.next()?)?;
    }
    if words.next().is_some() {
        return None;
    }
    Some(values)
}

// The bytes of a packet: the first of a buffer, since a run allocates nothing.
#[derive(Clone, Copy)]
pub(crate) struct PacketBytes {
    buffer: [u8; ROOM],
    count: usize,
    ghost inside: { count ≤ 128 },
}

impl PacketBytes {
    fn none() -> PacketBytes {
        PacketBytes {
            buffer: [0; ROOM],
            count: 0,
        }
    }

    // One byte more, if there is room.
    fn push(&mut self, byte: u8) -> Option<()> {
        if self.count == ROOM {
            return None;
        }
        self.buffer[self.count] = byte;
        self.count += 1;
        Some(())
    }

    pub(crate) fn as_slice(&self) -> &[u8] {
        &self.buffer[..self.count]
    }
}

// The bytes of a packet, two digits each, with spaces anywhere.
pub(crate) fn packet_bytes(text: &[u8]) -> Option<PacketBytes> {
    let mut bytes = PacketBytes::none();
    let mut high = None;
    for byte in text {
        if *byte == b' ' {
            continue;
        }
        let low = char::from(*byte).to_digit(16)? as u8;
        match high {
            None => high = Some(low << 4),
            Some(upper) => {
                bytes.push(upper | low)?;
                high = None;
            }
        }
    }
    high.is_none().then_some(bytes)
}
