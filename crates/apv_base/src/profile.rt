//! The profiles, and the QPs of a bit depth.
ghost use Rattle.std.specs.Prelude.{◌≡◌, ◌+◌, ◌-◌, ◌*◌};
ghost use Rattle.apv_base.specs.model.Format.{IsDepth};
ghost use Rattle.apv_base.specs.model.Profile.{is_known, is_readable, is_writable, default_of};
ghost use Rattle.apv_base.specs.model.Quant.{max_qp, qp_with};

use crate::Chroma;

/// Whether a `profile_idc` is one of the seven of RFC 9924: 33, 44, 55, 66, 77, 88 or 99.
pub fn profile_known(profile: u8) -> bool
    ensures { result ≡ is_known profile }
{
    matches!(profile, 33 | 44 | 55 | 66 | 77 | 88 | 99)
}

/// Whether a frame of this profile (`profile_idc`) may be written with this chroma format and bit depth. The depth is
/// any number; none but 10, 11 and 12 is written.
pub fn profile_writes(profile: u8, chroma: Chroma, depth: u8) -> bool
    ensures { result ≡ is_writable profile chroma depth }
{
    let ten = depth == 10;
    let high = matches!(depth, 10 | 11 | 12);
    match profile {
        33 => ten && chroma == Chroma::C422,
        44 => high && chroma == Chroma::C422,
        55 => ten && matches!(chroma, Chroma::C422 | Chroma::C444),
        66 => high && matches!(chroma, Chroma::C422 | Chroma::C444),
        77 => ten && chroma != Chroma::C400,
        88 => high && chroma != Chroma::C400,
        99 => ten && chroma == Chroma::C400,
        _ => false,
    }
}

/// Whether a frame of this profile (`profile_idc`) may be read with this chroma format and bit depth: one that is
/// written, or 4:0:0 at a bit depth of the profile.
pub fn profile_takes(profile: u8, chroma: Chroma, depth: u8) -> bool
    ensures { result ≡ is_readable profile chroma depth }
{
    match chroma {
        Chroma::C400 => match profile {
            33 | 55 | 77 | 99 => depth == 10,
            44 | 66 | 88 => matches!(depth, 10 | 11 | 12),
            _ => false,
        },
        _ => profile_writes(profile, chroma, depth),
    }
}

/// The `profile_idc` that is written where none is asked for: the lowest that is written with the chroma format and bit
/// depth, and none for 4:0:0 above 10 bits and for other depths than 10 to 12.
pub fn default_profile(chroma: Chroma, depth: u8) -> Option<u8>
    ensures { result ≡ default_of chroma depth }
{
    match (chroma, depth) {
        (Chroma::C400, 10) => Some(99),
        (Chroma::C422, 10) => Some(33),
        (Chroma::C444, 10) => Some(55),
        (Chroma::C4444, 10) => Some(77),
        (Chroma::C422, 11 | 12) => Some(44),
        (Chroma::C444, 11 | 12) => Some(66),
        (Chroma::C4444, 11 | 12) => Some(88),
        _ => None,
    }
}

/// The maximum QP of a bit depth: 63, 69 or 75.
pub fn qp_max(depth: u8) -> u8
    requires { IsDepth depth }
    ensures { result ≡ max_qp depth }
{
    51 + 6 * (depth - 8)
}

/// The QP of a component: the frame's with the component's offset, kept between 0 and the maximum of the bit depth.
pub fn component_qp(q: u8, offset: i8, depth: u8) -> u8
    requires { IsDepth depth }
    ensures { result ≡ qp_with q offset depth }
{
    let sum = i16::from(q) + i16::from(offset);
    sum.clamp(0, i16::from(qp_max(depth))) as u8
}
