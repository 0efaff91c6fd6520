//! Numbers of whole bytes, the high byte first.
ghost use Rattle.std.specs.Prelude.{◌≡◌, ◌≤◌, take, length};
ghost use Rattle.apv_base.specs.model.Bits.{number};

/// The number that the first two bytes spell (`u(16)`).
#[inline]
pub fn be16(bytes: &[u8]) -> u16
    requires { 2 ≤ length bytes.now }
    ensures { result ≡ number 256 (take 2 bytes.now) }
{
    u16::from_be_bytes([bytes[0], bytes[1]])
}

/// The number that the first four bytes spell (`u(32)`).
#[inline]
pub fn be32(bytes: &[u8]) -> u32
    requires { 4 ≤ length bytes.now }
    ensures { result ≡ number 256 (take 4 bytes.now) }
{
    u32::from_be_bytes([bytes[0], bytes[1], bytes[2], bytes[3]])
}
