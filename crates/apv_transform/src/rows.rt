//! Rows of a block as vectors of 16-bit lanes.
ghost use Rattle.std.specs.Prelude.{◌≡◌, ℕ, ◌<◌, ◌+◌, ◌-◌, ◌*◌, ◌^◌, ◌≤ℤ◌, pos, negsuc};
ghost use Rattle.std.specs.Prelude.{unsigned_abs, slice_index, slice_index_or, [], IsTrue};
ghost use Rattle.apv_base.specs.model.Format.{IsDepth};
ghost use Rattle.apv_base.specs.model.Quant.{clamped};
ghost use Rattle.apv_base.specs.model.Transform.{coefficient_at, residual_at};
ghost use Rattle.apv_transform.specs.Line.{AreBounded, value_at};
ghost use Rattle.apv_transform.specs.Lanes.{lane_at, AreLanesBounded, AreOf16Bits, AreLanesOf16Bits};
ghost use Rattle.apv_transform.specs.Sample.{AreSamplesOfDepth};

use crate::lanes::{eight, element};
use crate::round::half;
use std::simd::prelude::*;

/// The values of a row of a block of coefficients.
#[inline(always)]
fn row_values(coeffs: &[i16; 64], row: usize) -> [i16; 8]
    requires { row < 8 }
    ensures value { (v : ℕ) → v < 8 → value_at result v ≡ coefficient_at coeffs.now row v }
{
    [
        coeffs[8 * row],
        coeffs[8 * row + 1],
        coeffs[8 * row + 2],
        coeffs[8 * row + 3],
        coeffs[8 * row + 4],
        coeffs[8 * row + 5],
        coeffs[8 * row + 6],
        coeffs[8 * row + 7],
    ]
}

/// A row of a block of coefficients.
#[inline(always)]
fn coefficient_row(coeffs: &[i16; 64], row: usize) -> i16x8
    requires { row < 8 }
    ensures value { (v : ℕ) → v < 8 → value_at result v ≡ coefficient_at coeffs.now row v }
    ensures fits { AreOf16Bits result }
{
    i16x8::from_array(row_values(coeffs, row))
}

/// The rows of a block of coefficients.
#[inline(always)]
pub fn coefficient_rows(coeffs: &[i16; 64]) -> [i16x8; 8]
    ensures value { (u v : ℕ) → u < 8 → v < 8 → lane_at result u v ≡ coefficient_at coeffs.now u v }
    ensures fits { AreLanesOf16Bits 8 result }
{
    eight(
        coefficient_row(coeffs, 0),
        coefficient_row(coeffs, 1),
        coefficient_row(coeffs, 2),
        coefficient_row(coeffs, 3),
        coefficient_row(coeffs, 4),
        coefficient_row(coeffs, 5),
        coefficient_row(coeffs, 6),
        coefficient_row(coeffs, 7),
    )
}

/// A row of a block of coefficients, in lanes of 32 bits.
#[inline(always)]
fn wide_coefficient_row(coeffs: &[i16; 64], row: usize) -> i32x8
    requires { row < 8 }
    ensures value { (v : ℕ) → v < 8 → value_at result v ≡ coefficient_at coeffs.now row v }
    ensures bound { AreBounded 32768 8 result }
{
    coefficient_row(coeffs, row).cast::<i32>()
}

/// The rows of a block of coefficients, in lanes of 32 bits.
#[inline(always)]
pub fn wide_coefficient_rows(coeffs: &[i16; 64]) -> [i32x8; 8]
    ensures value { (u v : ℕ) → u < 8 → v < 8 → lane_at result u v ≡ coefficient_at coeffs.now u v }
    ensures bound { AreLanesBounded 32768 8 result }
{
    eight(
        wide_coefficient_row(coeffs, 0),
        wide_coefficient_row(coeffs, 1),
        wide_coefficient_row(coeffs, 2),
        wide_coefficient_row(coeffs, 3),
        wide_coefficient_row(coeffs, 4),
        wide_coefficient_row(coeffs, 5),
        wide_coefficient_row(coeffs, 6),
        wide_coefficient_row(coeffs, 7),
    )
}

/// A vector's lanes, each clamped to 16 bits.
#[inline(always)]
pub fn saturated(lanes: i32x8) -> i16x8
    requires { AreBounded (2 ^ 30) 8 lanes }
    ensures value { (lane : ℕ) → lane < 8
        → value_at result lane ≡ clamped (negsuc 32767) (pos 32767) (value_at lanes lane) }
    ensures fits { AreOf16Bits result }
{
    lanes
        .simd_clamp(i32x8::splat(-32768), i32x8::splat(32767))
        .cast::<i16>()
}

/// An element of a block, with its lanes clamped to 16 bits.
#[inline(always)]
fn saturated_row(block: &[i32x8; 8], row: usize) -> i16x8
    requires block { AreLanesBounded (2 ^ 30) 8 block.now }
    requires row { row < 8 }
    ensures value { (lane : ℕ) → lane < 8
        → value_at result lane ≡ clamped (negsuc 32767) (pos 32767) (lane_at block.now row lane) }
    ensures fits { AreOf16Bits result }
{
    saturated(element(block, row))
}

/// A block with its lanes clamped to 16 bits.
#[inline(always)]
pub fn saturated_rows(block: &[i32x8; 8]) -> [i16x8; 8]
    requires { AreLanesBounded (2 ^ 30) 8 block.now }
    ensures value { (u v : ℕ) → u < 8 → v < 8
        → lane_at result u v ≡ clamped (negsuc 32767) (pos 32767) (lane_at block.now u v) }
    ensures fits { AreLanesOf16Bits 8 result }
{
    eight(
        saturated_row(block, 0),
        saturated_row(block, 1),
        saturated_row(block, 2),
        saturated_row(block, 3),
        saturated_row(block, 4),
        saturated_row(block, 5),
        saturated_row(block, 6),
        saturated_row(block, 7),
    )
}

/// The maximum lanes of a block's rows.
#[inline(always)]
fn maximum_lanes(rows: &[i16x8; 8]) -> i16x8
    requires { AreLanesOf16Bits 8 rows.now }
    ensures bound { (u v : ℕ) → u < 8 → v < 8 → lane_at rows.now u v ≤ℤ value_at result v }
    ensures fits { AreOf16Bits result }
{
    let row_0 = element(rows, 0);
    let row_1 = element(rows, 1);
    let row_2 = element(rows, 2);
    let row_3 = element(rows, 3);
    let row_4 = element(rows, 4);
    let row_5 = element(rows, 5);
    let row_6 = element(rows, 6);
    let row_7 = element(rows, 7);
    let low = row_0.simd_max(row_1).simd_max(row_2.simd_max(row_3));
    let high = row_4.simd_max(row_5).simd_max(row_6.simd_max(row_7));
    low.simd_max(high)
}

/// The minimum lanes of a block's rows.
#[inline(always)]
fn minimum_lanes(rows: &[i16x8; 8]) -> i16x8
    requires { AreLanesOf16Bits 8 rows.now }
    ensures bound { (u v : ℕ) → u < 8 → v < 8 → value_at result v ≤ℤ lane_at rows.now u v }
    ensures fits { AreOf16Bits result }
{
    let row_0 = element(rows, 0);
    let row_1 = element(rows, 1);
    let row_2 = element(rows, 2);
    let row_3 = element(rows, 3);
    let row_4 = element(rows, 4);
    let row_5 = element(rows, 5);
    let row_6 = element(rows, 6);
    let row_7 = element(rows, 7);
    let low = row_0.simd_min(row_1).simd_min(row_2.simd_min(row_3));
    let high = row_4.simd_min(row_5).simd_min(row_6.simd_min(row_7));
    low.simd_min(high)
}

/// Whether no lane of a block is above 32,766.
#[inline(always)]
fn has_none_above(rows: &[i16x8; 8]) -> bool
    requires { AreLanesOf16Bits 8 rows.now }
    ensures { IsTrue result → (u v : ℕ) → u < 8 → v < 8 → lane_at rows.now u v ≤ℤ pos 32766 }
{
    let maximum = maximum_lanes(rows);
    !maximum.simd_gt(i16x8::splat(32766)).any()
}

/// Whether no lane of a block is below -32,766.
#[inline(always)]
fn has_none_below(rows: &[i16x8; 8]) -> bool
    requires { AreLanesOf16Bits 8 rows.now }
    ensures { IsTrue result → (u v : ℕ) → u < 8 → v < 8 → negsuc 32765 ≤ℤ lane_at rows.now u v }
{
    let minimum = minimum_lanes(rows);
    !minimum.simd_lt(i16x8::splat(-32766)).any()
}

/// Whether each lane of a block is so far inside 16 bits that it is no end of a clamp to them.
#[inline(always)]
pub fn is_inner(rows: &[i16x8; 8]) -> bool
    requires { AreLanesOf16Bits 8 rows.now }
    ensures { IsTrue result → AreLanesBounded 32766 8 rows.now }
{
    has_none_above(rows) && has_none_below(rows)
}

/// Half the range of a depth.
#[inline(always)]
fn middle_sample(depth: u8) -> i16
    requires depth { IsDepth depth }
    ensures { result ≡ pos (2 ^ (depth - 1)) }
{
    half(u32::from(depth)) as i16
}

/// A row of a block of samples, without half the range.
#[inline(always)]
fn residual_row(samples: &[u16; 64], row: usize, depth: u8) -> i16x8
    requires depth { IsDepth depth }
    requires samples { AreSamplesOfDepth depth samples.now }
    requires row { row < 8 }
    ensures value { (x : ℕ) → x < 8 → value_at result x ≡ residual_at samples.now depth row x }
    ensures fits { AreOf16Bits result }
{
    let lanes = u16x8::from_slice(&samples[8 * row..8 * row + 8]);
    lanes.cast::<i16>() - i16x8::splat(middle_sample(depth))
}

/// The rows of a block of samples, without half the range.
#[inline(always)]
pub fn residual_rows(samples: &[u16; 64], depth: u8) -> [i16x8; 8]
    requires depth { IsDepth depth }
    requires samples { AreSamplesOfDepth depth samples.now }
    ensures value { (y x : ℕ) → y < 8 → x < 8
        → lane_at result y x ≡ residual_at samples.now depth y x }
    ensures fits { AreLanesOf16Bits 8 result }
{
    eight(
        residual_row(samples, 0, depth),
        residual_row(samples, 1, depth),
        residual_row(samples, 2, depth),
        residual_row(samples, 3, depth),
        residual_row(samples, 4, depth),
        residual_row(samples, 5, depth),
        residual_row(samples, 6, depth),
        residual_row(samples, 7, depth),
    )
}

/// The maximum sample of a depth.
#[inline(always)]
fn maximum_sample(depth: u8) -> i16
    requires depth { IsDepth depth }
    ensures { result ≡ pos (2 ^ depth - 1) }
{
    (2 * half(u32::from(depth)) - 1) as i16
}

/// A row of samples from residuals with half the range added: each kept in the range of the depth.
#[inline(always)]
pub fn sample_row(residuals: i32x8, depth: u8) -> u16x8
    requires depth { IsDepth depth }
    requires residuals { AreBounded (2 ^ 30) 8 residuals }
    ensures { (x : ℕ) → x < 8 → slice_index result x
        ≡ unsigned_abs (clamped (pos 0) (pos (2 ^ depth - 1)) (value_at residuals x)) }
{
    saturated(residuals)
        .simd_clamp(i16x8::splat(0), i16x8::splat(maximum_sample(depth)))
        .cast::<u16>()
}

/// Writes a row of samples, and keeps those above it.
#[inline(always)]
fn set_sample_row(samples: &mut [u16; 64], rows: &[u16x8; 8], row: usize)
    requires { row < 8 }
    ensures written { (x : ℕ) → x < 8
        → slice_index samples.new (8 * row + x) ≡ slice_index (slice_index_or rows.now row []) x }
    ensures kept { (place : ℕ) → place < 8 * row
        → slice_index samples.new place ≡ slice_index samples.old place }
{
    element(rows, row).copy_to_slice(&mut samples[8 * row..8 * row + 8]);
}

/// The block of samples whose rows are given.
#[inline(always)]
pub fn block_of_samples(rows: &[u16x8; 8]) -> [u16; 64]
    ensures { (y x : ℕ) → y < 8 → x < 8
        → slice_index result (8 * y + x) ≡ slice_index (slice_index_or rows.now y []) x }
{
    let mut samples = [0; 64];
    set_sample_row(&mut samples, rows, 0);
    set_sample_row(&mut samples, rows, 1);
    set_sample_row(&mut samples, rows, 2);
    set_sample_row(&mut samples, rows, 3);
    set_sample_row(&mut samples, rows, 4);
    set_sample_row(&mut samples, rows, 5);
    set_sample_row(&mut samples, rows, 6);
    set_sample_row(&mut samples, rows, 7);
    samples
}

/// Writes a row of coefficients, and keeps those above it.
#[inline(always)]
fn set_coefficient_row(coeffs: &mut [i16; 64], rows: &[i16x8; 8], row: usize)
    requires row { row < 8 }
    requires fits { AreLanesOf16Bits 8 rows.now }
    ensures written { (v : ℕ) → v < 8 → value_at coeffs.new (8 * row + v) ≡ lane_at rows.now row v }
    ensures kept { (place : ℕ) → place < 8 * row
        → value_at coeffs.new place ≡ value_at coeffs.old place }
{
    element(rows, row).copy_to_slice(&mut coeffs[8 * row..8 * row + 8]);
}

/// The block of coefficients whose rows are given.
#[inline(always)]
pub fn block_of_coefficients(rows: &[i16x8; 8]) -> [i16; 64]
    requires { AreLanesOf16Bits 8 rows.now }
    ensures { (u v : ℕ) → u < 8 → v < 8 → coefficient_at result u v ≡ lane_at rows.now u v }
{
    let mut coeffs = [0; 64];
    set_coefficient_row(&mut coeffs, rows, 0);
    set_coefficient_row(&mut coeffs, rows, 1);
    set_coefficient_row(&mut coeffs, rows, 2);
    set_coefficient_row(&mut coeffs, rows, 3);
    set_coefficient_row(&mut coeffs, rows, 4);
    set_coefficient_row(&mut coeffs, rows, 5);
    set_coefficient_row(&mut coeffs, rows, 6);
    set_coefficient_row(&mut coeffs, rows, 7);
    coeffs
}
