//! Half of a power of 2, which rounds a division by it.
ghost use Rattle.std.specs.Prelude.{◌≡◌, ◌≤◌, ◌^◌, ◌-◌, pos};

/// Half of 2 ^ shift.
pub fn half(shift: u32) -> i32
    requires low { 1 ≤ shift }
    requires high { shift ≤ 16 }
    ensures { result ≡ pos (2 ^ (shift - 1)) }
{
    1 << (shift - 1)
}
