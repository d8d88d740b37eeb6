// The segment writer: the one function that writes area bytes.
ghost use Rattle.std.specs.Prelude.{◌≡◌, ◌+◌, ◌≤◌, length};
ghost use Rattle.laws.specs.Parts.{store_at};

// A segment's bytes are copied into a peer's own part of the arena, from `at` on.
pub(crate) fn write_segment(area: &mut [u8], at: usize, bytes: &[u8])
    requires { at + length bytes.now ≤ length area.old }
    ensures { area.new ≡ store_at area.old at bytes.now }
{
    wire::write_bytes(area, at, bytes);
}
