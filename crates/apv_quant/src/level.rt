//! One level and one coefficient at a step number and a shift.
ghost use Rattle.std.specs.Prelude.{◌≡◌, ◌+◌, ◌*◌, ◌-◌, ◌^◌, ◌<◌, ◌≤◌, pos, negsuc, ◌*ℤ◌, int_lt, unsigned_abs};
ghost use Rattle.apv_base.specs.model.Quant.{clamped, scaled, IsNearest};
ghost use Rattle.apv_quant.specs.Quotient.{reciprocal_of, rounded_size, quotient_by};
ghost use Rattle.apv_quant.specs.Quotient.{short_quotient, short_level, level_of};

/// Half of `2 ^ shift`, which rounds.
fn half_of(shift: u32) -> i32
    requires low { 0 < shift }
    requires high { shift ≤ 10 }
    ensures { result ≡ pos (2 ^ (shift - 1)) }
{
    1 << (shift - 1)
}

/// A value kept within 16 bits.
fn clipped(value: i32) -> i16
    ensures { result ≡ clamped (negsuc 32767) (pos 32767) value }
{
    value.clamp(-32768, 32767) as i16
}

/// The product of a level and a step number, where it fits 32 bits.
fn narrow_product(level: i16, step: u32) -> i32
    requires { step < 2 ^ 16 }
    ensures { result ≡ level *ℤ pos step }
{
    i32::from(level) * step as i32
}

/// The product of a level and a step number.
fn wide_product(level: i16, step: u32) -> i64
    requires { step < 2 ^ 27 }
    ensures { result ≡ level *ℤ pos step }
{
    // Both factors are signed 32-bit numbers, which a vector multiplies at once.
    i64::from(level) * i64::from(step as i32)
}

/// A level scaled, where its product with the step number fits 32 bits.
pub fn scaled_narrow(level: i16, step: u32, shift: u32) -> i16
    requires narrow { step < 2 ^ 16 }
    requires shift_low { 1 ≤ shift }
    requires shift_high { shift ≤ 10 }
    ensures { result ≡ scaled level step shift }
{
    let product = narrow_product(level, step);
    clipped((product + half_of(shift)) >> shift)
}

/// A level scaled.
pub fn scaled_wide(level: i16, step: u32, shift: u32) -> i16
    requires below { step < 2 ^ 27 }
    requires within { step < 2 ^ (16 + shift) }
    requires shift_low { 8 ≤ shift }
    requires shift_high { shift ≤ 10 }
    ensures { result ≡ scaled level step shift }
{
    let product = wide_product(level, step);
    let half = i64::from(half_of(shift));
    clipped(((product + half) >> shift) as i32)
}

/// The size of a coefficient in parts of `2 ^ shift`, with half a step number, by which its
/// quotient is rounded.
pub fn rounded_size(coeff: i16, step: u32, shift: u32) -> u32
    requires below { step < 2 ^ 27 }
    requires shift_high { shift ≤ 10 }
    ensures size { result ≡ rounded_size coeff step shift }
    ensures few { result ≤ 2 ^ 27 }
{
    (u32::from(coeff.unsigned_abs()) << shift) + (step + 1) / 2
}

/// The quotient of a size by a reciprocal.
pub fn quotient_by(size: u32, reciprocal: u64) -> u32
    ensures quotient { result ≡ quotient_by size reciprocal }
    ensures few { result ≤ size }
{
    let (_low, high) = u64::from(size).carrying_mul(reciprocal, 0);
    high as u32
}

/// The level of a coefficient's sign and a size, kept in the permitted range.
pub fn signed_level(coeff: i16, size: u32) -> i16
    requires { size ≤ 2 ^ 27 }
    ensures { result ≡ level_of (int_lt coeff (pos 0)) size }
{
    let level = if coeff < 0 {
        -(size as i32)
    } else {
        size as i32
    };
    clipped(level)
}

/// The permitted level that is nearest to a coefficient.
pub fn nearest_level(coeff: i16, step: u32, reciprocal: u64, shift: u32) -> i16
    requires below { step < 2 ^ 27 }
    requires reciprocal { reciprocal ≡ reciprocal_of step }
    requires shift_high { shift ≤ 10 }
    ensures { IsNearest coeff step shift result }
{
    let size = rounded_size(coeff, step, shift);
    signed_level(coeff, quotient_by(size, reciprocal))
}

/// The quotient of a size by a reciprocal of 32 bits in two halves, rounded to the nearest, halves
/// down.
fn short_quotient(size: u16, high: u16, low: u16) -> u16
    requires { size ≤ 2 ^ 15 }
    ensures { result ≡ short_quotient size (high * 2 ^ 16 + low) }
{
    let (_, carried) = size.carrying_mul(low, 0);
    let (rest, whole) = size.carrying_mul(high, 0);
    let (_, carries) = rest.overflowing_add(carried + 32767);
    whole + u16::from(carries)
}

/// The level of a coefficient's sign and a size that is permitted for both signs.
fn short_signed(coeff: i16, size: u16) -> i16
    requires { size < 2 ^ 15 }
    ensures { result ≡ level_of (int_lt coeff (pos 0)) size }
{
    if coeff < 0 {
        -(size as i16)
    } else {
        size as i16
    }
}

/// The permitted level that is nearest to a coefficient, by a reciprocal of 32 bits in two halves.
pub fn short_level(coeff: i16, high: u16, low: u16) -> i16
    requires { high < 65534 }
    ensures few { unsigned_abs coeff ≤ 2 ^ 15 }
    ensures level { result ≡ short_level coeff (high * 2 ^ 16 + low) }
{
    short_signed(coeff, short_quotient(coeff.unsigned_abs(), high, low))
}
