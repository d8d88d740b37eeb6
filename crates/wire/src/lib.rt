// Little-endian integers at an offset of a slice, read and written (01: "Integers on the wire are little-endian"), bytes, and
// where bytes end.
#![tactic(auto)]

ghost use Rattle.std.specs.Prelude.{◌≡◌, ℕ, ◌+◌, ◌≤◌, length, leb};
ghost use Rattle.laws.specs.Parts.{store_at};
ghost use Rattle.wire.specs.LittleEndian.{le_bytes, le_at};

// Integers that stand on the wire with their least byte first.
pub trait LittleEndian: Copy {
    // how many bytes one takes, and its value as a number
    ghost width: { ℕ };

    ghost value: { Self → ℕ };

    fn zero() -> Self
        ensures { value result ≡ 0 };

    fn read(s: &[u8], at: usize) -> Self
        requires { at + width ≤ length s.now }
        ensures { value result ≡ le_at width s.now at };

    fn write(self, s: &mut [u8], at: usize)
        requires { at + width ≤ length s.old }
        ensures { s.new ≡ store_at s.old at (le_bytes width (value self)) };
}

impl LittleEndian for u16 {
    ghost width = { 2 };

    ghost value = { λ x. x };

    fn zero() -> u16 {
        0
    }

    fn read(s: &[u8], at: usize) -> u16 {
        (s[at] as u16) + 256 * (s[at + 1] as u16)
    }

    fn write(self, s: &mut [u8], at: usize) {
        s[at] = (self % 256) as u8;
        s[at + 1] = (self / 256 % 256) as u8;
    }
}

impl LittleEndian for u32 {
    ghost width = { 4 };

    ghost value = { λ x. x };

    fn zero() -> u32 {
        0
    }

    fn read(s: &[u8], at: usize) -> u32 {
        (u16::read(s, at) as u32) + 65536 * (u16::read(s, at + 2) as u32)
    }

    fn write(self, s: &mut [u8], at: usize) {
        ((self % 65536) as u16).write(s, at);
        ((self / 65536) as u16).write(s, at + 2);
    }
}

impl LittleEndian for u64 {
    ghost width = { 8 };

    ghost value = { λ x. x };

    fn zero() -> u64 {
        0
    }

    fn read(s: &[u8], at: usize) -> u64 {
        (u32::read(s, at) as u64) + 4294967296 * (u32::read(s, at + 4) as u64)
    }

    fn write(self, s: &mut [u8], at: usize) {
        ((self % 4294967296) as u32).write(s, at);
        ((self / 4294967296) as u32).write(s, at + 4);
    }
}

// Puts bytes at a place, and answers the place behind them. Byte by byte, which the compiler turns into vector moves: with
// `copy_from_slice` the library for C would need `memmove` from outside.
pub fn write_bytes(s: &mut [u8], at: usize, bytes: &[u8]) -> usize
    requires { at + length bytes.now ≤ length s.old }
    ensures { (result ≡ at + length bytes.now) × (s.new ≡ store_at s.old at bytes.now) }
{
    for (i, byte) in bytes.iter().enumerate() {
        s[at + i] = *byte;
    }
    at + bytes.len()
}

// Whether `size` bytes from `at` on end at `end` or before, as whole numbers.
pub fn ends_by(at: usize, size: usize, end: usize) -> bool
    ensures { result ≡ leb (at + size) end }
{
    at <= end && size <= end - at
}
