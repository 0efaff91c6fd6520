//! Numbers of two and of four bytes at a place of a payload.
ghost use Rattle.std.specs.Prelude.{◌≡◌, ◌+◌, ◌≤◌, ◌++◌, length, drop};
ghost use Rattle.apv_base.specs.model.Bits.{be};

/// The number that two bytes from a place on spell, the high byte first (`u(16)`).
pub(crate) fn two_bytes_at(bytes: &[u8], place: usize) -> u16
    requires { place + 2 ≤ length bytes.now }
    ensures { drop place bytes.now ≡ be 2 result ++ drop (place + 2) bytes.now }
{
    u16::from_be_bytes([bytes[place], bytes[place + 1]])
}

/// The number that four bytes from a place on spell, the high byte first (`u(32)`).
pub(crate) fn four_bytes_at(bytes: &[u8], place: usize) -> u32
    requires { place + 4 ≤ length bytes.now }
    ensures { drop place bytes.now ≡ be 4 result ++ drop (place + 4) bytes.now }
{
    u32::from_be_bytes([
        bytes[place],
        bytes[place + 1],
        bytes[place + 2],
        bytes[place + 3],
    ])
}
