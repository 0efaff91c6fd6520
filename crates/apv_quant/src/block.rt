//! The 64 levels and the 64 coefficients of a block, row after row.
ghost use Rattle.std.specs.Prelude.{◌+◌, ◌^◌, ◌≤◌};
ghost use Rattle.apv_quant.specs.Quotient.{AreRoundedSizes, AreQuotientsBy, AreSignedLevels};
ghost use Rattle.apv_quant.specs.Scale.{AreBelow, AreAtMost, AreReciprocals, AreScaled, AreNearest};

use crate::level;

/// The levels of a block scaled at the shift of 10 bits, where each product fits 32 bits. A shift
/// by a constant takes less time.
pub fn scaled_by_8(levels: &[i16; 64], steps: &[u32; 64]) -> [i16; 64]
    requires { AreBelow (2 ^ 16) steps.now }
    ensures { AreScaled steps.now 8 levels.now result }
{
    let mut coeffs = [0i16; 64];
    for place in 0..64 {
        coeffs[place] = level::scaled_narrow(levels[place], steps[place], 8);
    }
    coeffs
}

/// The levels of a block scaled, where each product fits 32 bits.
#[inline(never)]
pub fn scaled_narrow(levels: &[i16; 64], steps: &[u32; 64], shift: u32) -> [i16; 64]
    requires narrow { AreBelow (2 ^ 16) steps.now }
    requires shift_low { 1 ≤ shift }
    requires shift_high { shift ≤ 10 }
    ensures { AreScaled steps.now shift levels.now result }
{
    let mut coeffs = [0i16; 64];
    for place in 0..64 {
        coeffs[place] = level::scaled_narrow(levels[place], steps[place], shift);
    }
    coeffs
}

/// The levels of a block scaled.
#[inline(never)]
pub fn scaled_wide(levels: &[i16; 64], steps: &[u32; 64], shift: u32) -> [i16; 64]
    requires below { AreBelow (2 ^ 27) steps.now }
    requires within { AreBelow (2 ^ (16 + shift)) steps.now }
    requires shift_low { 8 ≤ shift }
    requires shift_high { shift ≤ 10 }
    ensures { AreScaled steps.now shift levels.now result }
{
    let mut coeffs = [0i16; 64];
    for place in 0..64 {
        coeffs[place] = level::scaled_wide(levels[place], steps[place], shift);
    }
    coeffs
}

/// The sizes of a block of coefficients, each with half a step number.
fn rounded_sizes(coeffs: &[i16; 64], steps: &[u32; 64], shift: u32) -> [u32; 64]
    requires below { AreBelow (2 ^ 27) steps.now }
    requires shift_high { shift ≤ 10 }
    ensures sizes { AreRoundedSizes steps.now shift coeffs.now result }
    ensures few { AreAtMost (2 ^ 27) result }
{
    let mut sizes = [0u32; 64];
    for place in 0..64 {
        sizes[place] = level::rounded_size(coeffs[place], steps[place], shift);
    }
    sizes
}

/// The quotients of sizes by reciprocals.
fn quotients(sizes: &[u32; 64], reciprocals: &[u64; 64]) -> [u32; 64]
    requires { AreAtMost (2 ^ 27) sizes.now }
    ensures quotients { AreQuotientsBy reciprocals.now sizes.now result }
    ensures few { AreAtMost (2 ^ 27) result }
{
    let mut quotients = [0u32; 64];
    for place in 0..64 {
        quotients[place] = level::quotient_by(sizes[place], reciprocals[place]);
    }
    quotients
}

/// The levels of the coefficients' signs and of sizes.
fn signed_levels(coeffs: &[i16; 64], sizes: &[u32; 64]) -> [i16; 64]
    requires { AreAtMost (2 ^ 27) sizes.now }
    ensures { AreSignedLevels coeffs.now sizes.now result }
{
    let mut levels = [0i16; 64];
    for place in 0..64 {
        levels[place] = level::signed_level(coeffs[place], sizes[place]);
    }
    levels
}

/// The nearest levels of a block of coefficients, in three passes, of which the first and the last
/// take several places at once.
pub fn nearest(
    coeffs: &[i16; 64],
    steps: &[u32; 64],
    reciprocals: &[u64; 64],
    shift: u32,
) -> [i16; 64]
    requires below { AreBelow (2 ^ 27) steps.now }
    requires reciprocals { AreReciprocals steps.now reciprocals.now }
    requires shift_high { shift ≤ 10 }
    ensures { AreNearest steps.now shift coeffs.now result }
{
    let sizes = rounded_sizes(coeffs, steps, shift);
    signed_levels(coeffs, &quotients(&sizes, reciprocals))
}
