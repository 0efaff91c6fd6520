//! The colour volume of the mastering display (`metadata_mdcv()`).
ghost use Rattle.std.specs.Prelude.{◌≡◌, ◌≢◌, ◌+◌, ◌≤◌, ◌++◌, length, drop, IfSome, IfNone};
ghost use Rattle.apv_meta.specs.ColourVolume.{mdcv_bytes, IsMdcv};
ghost use Rattle.apv_meta.specs.Point.{point_bytes};

use crate::numbers::{four_bytes_at, two_bytes_at};
use crate::payload::Payload;

/// The `payload_type` of a mastering display's colour volume.
const MDCV: u64 = 5;

/// The colour volume of the mastering display (`metadata_mdcv()`). Each point of the chromaticity diagram is x and y,
/// each in units of 1/65,536, 0 to 65,535.
#[derive(Clone, Copy, Debug, PartialEq, Eq)]
pub struct Mdcv {
    /// The three primaries, `primary_chromaticity_x` and `primary_chromaticity_y`.
    pub primaries: [(u16, u16); 3],
    /// The white point, `white_point_chromaticity_x` and `white_point_chromaticity_y`.
    pub white: (u16, u16),
    /// `max_mastering_luminance`, in units of 1/256 candela per square metre.
    pub greatest: u32,
    /// `min_mastering_luminance`, in units of 1/16,384 candela per square metre.
    pub least: u32,
}

/// The point that four bytes from a place on spell.
fn point_at(bytes: &[u8], place: usize) -> (u16, u16)
    requires { place + 4 ≤ length bytes.now }
    ensures { drop place bytes.now ≡ point_bytes result ++ drop (place + 4) bytes.now }
{
    (two_bytes_at(bytes, place), two_bytes_at(bytes, place + 2))
}

/// The four bytes of a point.
fn spelled_point(point: (u16, u16)) -> [u8; 4]
    ensures { result ≡ point_bytes point }
{
    let x = point.0.to_be_bytes();
    let y = point.1.to_be_bytes();
    [x[0], x[1], y[0], y[1]]
}

/// The colour volume that a payload spells. None exactly where its type isn't 5 or it hasn't 24 bytes.
pub fn read_mdcv(payload: &Payload<'_>) -> Option<Mdcv>
    ensures found { IfSome result (IsMdcv payload.now.kind payload.now.bytes.now) }
    ensures none { IfNone result (payload.now.kind ≡ 5 → length payload.now.bytes.now ≢ 24) }
{
    if payload.kind != MDCV {
        return None;
    }
    let bytes = payload.bytes;
    if bytes.len() != 24 {
        return None;
    }
    Some(Mdcv {
        primaries: [point_at(bytes, 0), point_at(bytes, 4), point_at(bytes, 8)],
        white: point_at(bytes, 12),
        greatest: four_bytes_at(bytes, 16),
        least: four_bytes_at(bytes, 20),
    })
}

/// Writes a colour volume as the 24 bytes of a payload of type 5 (`metadata_mdcv()`).
pub fn put_mdcv(value: &Mdcv, out: &mut [u8; 24])
    ensures { out.new ≡ mdcv_bytes value.now }
{
    let (first, rest) = out.split_at_mut(4);
    let (second, rest) = rest.split_at_mut(4);
    let (third, rest) = rest.split_at_mut(4);
    let (white, rest) = rest.split_at_mut(4);
    let (greatest, least) = rest.split_at_mut(4);
    first.copy_from_slice(&spelled_point(value.primaries[0]));
    second.copy_from_slice(&spelled_point(value.primaries[1]));
    third.copy_from_slice(&spelled_point(value.primaries[2]));
    white.copy_from_slice(&spelled_point(value.white));
    greatest.copy_from_slice(&value.greatest.to_be_bytes());
    least.copy_from_slice(&value.least.to_be_bytes());
}
