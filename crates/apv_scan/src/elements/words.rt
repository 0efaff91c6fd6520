//! The code words of a block's syntax elements, to be written.

ghost use Rattle.std.specs.Prelude.{◌≡◌, ◌-ℤ◌, ◌^◌, ◌<◌, ◌≤◌, ◌∷◌, [], length, unsigned_abs};
ghost use Rattle.apv_base.specs.model.Quant.{IsLevel};
ghost use Rattle.apv_base.specs.model.Scan.{level_at};
ghost use Rattle.apv_base.specs.model.Block.{bits_of, sign_of, dc_elements};
ghost use Rattle.apv_scan.specs.CodeWords.{HasLevel, IsLevelWord};

use crate::context::Context;
use crate::elements::values::{dc_parameter, level_parameter};
use crate::scan::place_of;
use apv_bits::Word;
use apv_hv::encode_h;

/// The size and the sign of the level at a scan place.
#[inline]
pub fn size_and_sign(levels: &[i16; 64], place: u32) -> (u32, u32)
    requires { place < 64 }
    ensures size { result.0 ≡ unsigned_abs (level_at levels.now place) }
    ensures small { result.0 ≤ 32768 }
    ensures sign { result.1 ≡ sign_of (level_at levels.now place) }
    ensures bit { result.1 < 2 }
{
    let level = levels[place_of(place)];
    let size = u32::from(level.unsigned_abs());
    if level < 0 { (size, 1) } else { (size, 0) }
}

/// The size and the sign of the difference of a block's first level from `PrevDC`
/// (`abs_dc_coeff_diff` and `sign_dc_coeff_diff`).
#[inline]
fn dc_difference(dc: i32, levels: &[i16; 64]) -> (u32, u32)
    requires { IsLevel dc }
    ensures size { result.0 ≡ unsigned_abs (level_at levels.now 0 -ℤ dc) }
    ensures small { result.0 < 2 ^ 16 }
    ensures sign { result.1 ≡ sign_of (level_at levels.now 0 -ℤ dc) }
    ensures bit { result.1 < 2 }
{
    let difference = i32::from(levels[place_of(0)]) - dc;
    let size = difference.unsigned_abs();
    if difference < 0 { (size, 1) } else { (size, 0) }
}

/// The bit of a sign (`sign_dc_coeff_diff` or `sign_ac_coeff`).
#[inline]
pub fn sign_word(sign: u32) -> Word
    requires { sign < 2 }
    ensures { result ≡ sign ∷ [] }
{
    Word::new(u64::from(sign), 1)
}

/// The bits of a block's first level (`dc_coeff_coding()`): `abs_dc_coeff_diff`, and
/// `sign_dc_coeff_diff` where that isn't 0.
#[inline]
pub fn dc_word(context: Context, levels: &[i16; 64]) -> Word
    ensures bits { result ≡ bits_of (dc_elements context (level_at levels.now 0)) }
    ensures few { length result ≤ 34 }
{
    let (size, sign) = dc_difference(context.dc, levels);
    let size_word = encode_h(dc_parameter(context.diff), size);
    if size == 0 {
        return size_word;
    }
    size_word.join(sign_word(sign))
}

/// The code word of the level at a scan place and its sign (`abs_ac_coeff_minus1` and
/// `sign_ac_coeff`), and the parameter of the next level's.
#[inline]
pub fn encode_level(k: u32, levels: &[i16; 64], place: u32) -> (Word, u32)
    requires { HasLevel k levels.now place }
    ensures { IsLevelWord k (level_at levels.now place) result.0 result.1 }
{
    let (size, sign) = size_and_sign(levels, place);
    let size_word = encode_h(k, size - 1);
    (size_word.join(sign_word(sign)), level_parameter(size))
}
