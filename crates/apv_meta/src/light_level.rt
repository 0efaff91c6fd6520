//! Content light levels (`metadata_cll()`).
ghost use Rattle.std.specs.Prelude.{◌≡◌, ◌≢◌, length, IfSome, IfNone};
ghost use Rattle.apv_meta.specs.LightLevel.{cll_bytes, IsCll};

use crate::numbers::two_bytes_at;
use crate::payload::Payload;

/// The `payload_type` of content light levels.
const CLL: u64 = 6;

/// Content light levels, in candelas per square metre (`metadata_cll()`).
#[derive(Clone, Copy, Debug, PartialEq, Eq)]
pub struct Cll {
    /// The maximum content light level, `max_cll`. 0 to 65,535.
    pub cll: u16,
    /// The maximum frame average light level, `max_fall`. 0 to 65,535.
    pub fall: u16,
}

/// The content light levels that a payload spells. None exactly where its type isn't 6 or it hasn't four bytes.
pub fn read_cll(payload: &Payload<'_>) -> Option<Cll>
    ensures found { IfSome result (IsCll payload.now.kind payload.now.bytes.now) }
    ensures none { IfNone result (payload.now.kind ≡ 6 → length payload.now.bytes.now ≢ 4) }
{
    if payload.kind != CLL {
        return None;
    }
    if payload.bytes.len() != 4 {
        return None;
    }
    Some(Cll {
        cll: two_bytes_at(payload.bytes, 0),
        fall: two_bytes_at(payload.bytes, 2),
    })
}

/// Writes content light levels as the four bytes of a payload of type 6 (`metadata_cll()`).
pub fn put_cll(value: &Cll, out: &mut [u8; 4])
    ensures { out.new ≡ cll_bytes value.now }
{
    let cll = value.cll.to_be_bytes();
    let fall = value.fall.to_be_bytes();
    *out = [cll[0], cll[1], fall[0], fall[1]];
}
