//! The two transforms of a block.
ghost use Rattle.std.specs.Prelude.{◌≡◌, ℕ, ◌<◌, ◌-◌, ◌^◌, slice_index};
ghost use Rattle.apv_base.specs.model.Format.{IsDepth};
ghost use Rattle.apv_transform.specs.Lanes.{lane_at, AreLanesBounded, AreLanesOf16Bits};
ghost use Rattle.apv_transform.specs.Pass.{inverse_of};
ghost use Rattle.apv_transform.specs.Line.{AreBounded};
ghost use Rattle.apv_transform.specs.Sample.{AreSamplesOfDepth, AreSamplesOf, AreCoefficientsOf};
ghost use Rattle.apv_transform.specs.Sample.{sample_of_residual, AreSamplesOfSums};

use crate::kernel::{inverse_columns, inverse_rows, transpose};
use crate::lanes::{eight, element};
use crate::pairs::{column_frequencies, column_sums, residual_row, sum_rows};
use crate::round::half;
use crate::rows::{
    block_of_coefficients, block_of_samples, coefficient_rows, is_inner, residual_rows, sample_row,
    saturated_rows, wide_coefficient_rows,
};
use std::simd::prelude::*;

/// A row of samples from the values between the passes, where these fit 16 bits.
#[inline(always)]
fn narrow_row(sums: &[i16x8; 8], row: usize, depth: u8) -> u16x8
    requires depth { IsDepth depth }
    requires sums { AreLanesOf16Bits 8 sums.now }
    requires row { row < 8 }
    ensures { (x : ℕ) → x < 8 → slice_index result x
        ≡ sample_of_residual (inverse_of (20 - depth) (lane_at sums.now row) x) depth }
{
    sample_row(residual_row(sums, row, depth), depth)
}

/// The samples from the values between the passes, where these fit 16 bits.
#[inline(always)]
fn narrow_samples(sums: &[i16x8; 8], depth: u8) -> [u16; 64]
    requires depth { IsDepth depth }
    requires sums { AreLanesOf16Bits 8 sums.now }
    ensures { AreSamplesOfSums depth sums.now result }
{
    block_of_samples(&eight(
        narrow_row(sums, 0, depth),
        narrow_row(sums, 1, depth),
        narrow_row(sums, 2, depth),
        narrow_row(sums, 3, depth),
        narrow_row(sums, 4, depth),
        narrow_row(sums, 5, depth),
        narrow_row(sums, 6, depth),
        narrow_row(sums, 7, depth),
    ))
}

/// A row of samples from a block of residuals.
#[inline(always)]
fn wide_row(residuals: &[i32x8; 8], row: usize, depth: u8) -> u16x8
    requires depth { IsDepth depth }
    requires residuals { AreLanesBounded (2 ^ 18) 8 residuals.now }
    requires row { row < 8 }
    ensures { (x : ℕ) → x < 8 → slice_index result x
        ≡ sample_of_residual (lane_at residuals.now row x) depth }
{
    let half = i32x8::splat(half(u32::from(depth)));
    sample_row(element(residuals, row) + half, depth)
}

/// The samples of coefficients whose values between the passes need not fit 16 bits.
#[inline(always)]
fn wide_samples(coeffs: &[i16; 64], depth: u8) -> [u16; 64]
    requires depth { IsDepth depth }
    ensures value { AreSamplesOf depth coeffs.now result }
    ensures bound { AreSamplesOfDepth depth result }
{
    let sums = inverse_columns(&wide_coefficient_rows(coeffs));
    let residuals = transpose(&inverse_rows(&transpose(&sums), depth));
    block_of_samples(&eight(
        wide_row(&residuals, 0, depth),
        wide_row(&residuals, 1, depth),
        wide_row(&residuals, 2, depth),
        wide_row(&residuals, 3, depth),
        wide_row(&residuals, 4, depth),
        wide_row(&residuals, 5, depth),
        wide_row(&residuals, 6, depth),
        wide_row(&residuals, 7, depth),
    ))
}

/// The coefficients of a block of 8x8 samples of a bit depth of 10 to 12: the forward transform,
/// which the inverse transform of RFC 9924's decoding process undoes but for rounding.
///
/// Each sample is below `2 ^ depth`, and the sample at x, y is at place `8 * y + x`. The
/// coefficient of the vertical frequency u and the horizontal frequency v is at place `8 * u + v`,
/// and is -16,384 to 16,384. Samples without half their range are summed over their row and then
/// over their column with the entries of the transform matrix, and each of the two sums is divided
/// by a power of 2 and rounded. There is no error.
pub fn forward(samples: &[u16; 64], depth: u8) -> [i16; 64]
    requires depth { IsDepth depth }
    requires samples { AreSamplesOfDepth depth samples.now }
    ensures value { AreCoefficientsOf depth samples.now result }
    ensures bound { AreBounded 16384 64 result }
{
    let sums = sum_rows(&residual_rows(samples, depth), depth);
    block_of_coefficients(&saturated_rows(&column_frequencies(&sums)))
}

/// The samples of a block of 8x8 scaled transform coefficients at a bit depth of 10 to 12: the
/// inverse transform of RFC 9924's decoding process, with half the range added and the result
/// clipped to the range of the depth.
///
/// The coefficient of the vertical frequency u and the horizontal frequency v is at place
/// `8 * u + v`, and the sample at x, y is at place `8 * y + x`. Coefficients are summed over their
/// column and then over their row with the entries of the transform matrix, and each of the two
/// sums is divided by a power of 2 and rounded. Between the two nothing is clipped. Each sample is
/// below `2 ^ depth`. There is no error.
pub fn inverse(coeffs: &[i16; 64], depth: u8) -> [u16; 64]
    requires depth { IsDepth depth }
    ensures value { AreSamplesOf depth coeffs.now result }
    ensures bound { AreSamplesOfDepth depth result }
{
    let sums = saturated_rows(&column_sums(&coefficient_rows(coeffs)));
    if is_inner(&sums) {
        narrow_samples(&sums, depth)
    } else {
        wide_samples(coeffs, depth)
    }
}
