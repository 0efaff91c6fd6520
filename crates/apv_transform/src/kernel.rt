//! The passes of the two transforms over a block of 32-bit values in vectors.
//!
//! A block is eight vectors of eight lanes: lane v of element u is the value in row u and column v.
//! A pass over columns takes a block as it is, and a pass over rows takes it transposed, with
//! its rows as columns. So a whole transform is a pass, an exchange of rows and columns, a pass,
//! and an exchange again.
ghost use Rattle.std.specs.Prelude.{◌≡◌, ℕ, ◌<◌, ◌≤◌, ◌+◌, ◌-◌, ◌*◌, ◌/◌, ◌%◌, ◌^◌, ◌*ℤ◌};
ghost use Rattle.apv_base.specs.model.Format.{IsDepth};
ghost use Rattle.apv_base.specs.model.Transform.{transform_entry, sum_8, rounded, column_sum, row_sum};
ghost use Rattle.apv_transform.specs.Lanes.{lane_at, AreLanesBounded};
ghost use Rattle.apv_transform.specs.Pass.{inverse_of, forward_of, AreEvenSums, AreOddSums};

use crate::lanes::{eight, element, four, frequencies, positions};
use std::simd::prelude::*;

/// One third of the exchange of rows and columns: rows 0 to 3 in turn with rows 4 to 7, lane by
/// lane.
#[inline(always)]
fn interleaved(block: &[i32x8; 8]) -> [i32x8; 8]
    ensures { (u v : ℕ) → u < 8 → v < 8
        → lane_at result u v ≡ lane_at block.now (4 * (v % 2) + u / 2) (4 * (u % 2) + v / 2) }
{
    let row_0 = element(block, 0);
    let row_1 = element(block, 1);
    let row_2 = element(block, 2);
    let row_3 = element(block, 3);
    let row_4 = element(block, 4);
    let row_5 = element(block, 5);
    let row_6 = element(block, 6);
    let row_7 = element(block, 7);
    eight(
        row_0.shuffle(row_4, [0, 8, 1, 9, 2, 10, 3, 11]),
        row_0.shuffle(row_4, [4, 12, 5, 13, 6, 14, 7, 15]),
        row_1.shuffle(row_5, [0, 8, 1, 9, 2, 10, 3, 11]),
        row_1.shuffle(row_5, [4, 12, 5, 13, 6, 14, 7, 15]),
        row_2.shuffle(row_6, [0, 8, 1, 9, 2, 10, 3, 11]),
        row_2.shuffle(row_6, [4, 12, 5, 13, 6, 14, 7, 15]),
        row_3.shuffle(row_7, [0, 8, 1, 9, 2, 10, 3, 11]),
        row_3.shuffle(row_7, [4, 12, 5, 13, 6, 14, 7, 15]),
    )
}

/// The block with its rows and columns exchanged: lane v of element u is lane u of element v.
pub fn transpose(block: &[i32x8; 8]) -> [i32x8; 8]
    ensures { (u v : ℕ) → u < 8 → v < 8 → lane_at result u v ≡ lane_at block.now v u }
{
    interleaved(&interleaved(&interleaved(block)))
}

/// The sums over the even frequencies at the positions 0 to 3; those at 7 to 4 are the same.
#[inline(always)]
fn even_sums(lines: &[i32x8; 8]) -> [i32x8; 4]
    requires { AreLanesBounded (2 ^ 17) 8 lines.now }
    ensures value { AreEvenSums lines.now result }
    ensures bound { AreLanesBounded (2 ^ 27) 4 result }
{
    let line_0 = element(lines, 0);
    let line_2 = element(lines, 2);
    let line_4 = element(lines, 4);
    let line_6 = element(lines, 6);
    let sum = (line_0 + line_4) * i32x8::splat(64);
    let difference = (line_0 - line_4) * i32x8::splat(64);
    let outer = line_2 * i32x8::splat(84) + line_6 * i32x8::splat(35);
    let inner = line_2 * i32x8::splat(35) - line_6 * i32x8::splat(84);
    four(
        sum + outer,
        difference + inner,
        difference - inner,
        sum - outer,
    )
}

/// The sums over the odd frequencies at the positions 0 to 3; those at 7 to 4 are the opposites.
#[inline(always)]
fn odd_sums(lines: &[i32x8; 8]) -> [i32x8; 4]
    requires { AreLanesBounded (2 ^ 17) 8 lines.now }
    ensures value { AreOddSums lines.now result }
    ensures bound { AreLanesBounded (2 ^ 27) 4 result }
{
    let line_1 = element(lines, 1);
    let line_3 = element(lines, 3);
    let line_5 = element(lines, 5);
    let line_7 = element(lines, 7);
    let times_89 = i32x8::splat(89);
    let times_75 = i32x8::splat(75);
    let times_50 = i32x8::splat(50);
    let times_18 = i32x8::splat(18);
    four(
        (line_1 * times_89 + line_3 * times_75) + (line_5 * times_50 + line_7 * times_18),
        (line_1 * times_75 - line_3 * times_18) - (line_5 * times_89 + line_7 * times_50),
        (line_1 * times_50 - line_3 * times_89) + (line_5 * times_18 + line_7 * times_75),
        (line_1 * times_18 - line_3 * times_50) + (line_5 * times_75 - line_7 * times_89),
    )
}

/// The even frequencies, from the sums of mirrored positions.
#[inline(always)]
fn even_frequencies(lines: &[i32x8; 8]) -> [i32x8; 4]
    requires { AreLanesBounded (2 ^ 16) 8 lines.now }
    ensures value { (k lane : ℕ) → k < 4 → lane < 8
        → lane_at result k lane
        ≡ sum_8 (λ x. transform_entry (2 * k) x *ℤ lane_at lines.now x lane) }
    ensures bound { AreLanesBounded (2 ^ 27) 4 result }
{
    let sum_0 = element(lines, 0) + element(lines, 7);
    let sum_1 = element(lines, 1) + element(lines, 6);
    let sum_2 = element(lines, 2) + element(lines, 5);
    let sum_3 = element(lines, 3) + element(lines, 4);
    let outer = sum_0 - sum_3;
    let inner = sum_1 - sum_2;
    let times_84 = i32x8::splat(84);
    let times_35 = i32x8::splat(35);
    four(
        ((sum_0 + sum_3) + (sum_1 + sum_2)) * i32x8::splat(64),
        outer * times_84 + inner * times_35,
        ((sum_0 + sum_3) - (sum_1 + sum_2)) * i32x8::splat(64),
        outer * times_35 - inner * times_84,
    )
}

/// The odd frequencies, from the differences of mirrored positions.
#[inline(always)]
fn odd_frequencies(lines: &[i32x8; 8]) -> [i32x8; 4]
    requires { AreLanesBounded (2 ^ 16) 8 lines.now }
    ensures value { (k lane : ℕ) → k < 4 → lane < 8
        → lane_at result k lane
        ≡ sum_8 (λ x. transform_entry (2 * k + 1) x *ℤ lane_at lines.now x lane) }
    ensures bound { AreLanesBounded (2 ^ 27) 4 result }
{
    let line_0 = element(lines, 0) - element(lines, 7);
    let line_1 = element(lines, 1) - element(lines, 6);
    let line_2 = element(lines, 2) - element(lines, 5);
    let line_3 = element(lines, 3) - element(lines, 4);
    let times_89 = i32x8::splat(89);
    let times_75 = i32x8::splat(75);
    let times_50 = i32x8::splat(50);
    let times_18 = i32x8::splat(18);
    four(
        (line_0 * times_89 + line_1 * times_75) + (line_2 * times_50 + line_3 * times_18),
        (line_0 * times_75 - line_1 * times_18) - (line_2 * times_89 + line_3 * times_50),
        (line_0 * times_50 - line_1 * times_89) + (line_2 * times_18 + line_3 * times_75),
        (line_0 * times_18 - line_1 * times_50) + (line_2 * times_75 - line_3 * times_89),
    )
}

/// The positions of each column of frequencies.
#[inline(always)]
fn inverse_lines(lines: &[i32x8; 8], shift: u32) -> [i32x8; 8]
    requires low { 1 ≤ shift }
    requires high { shift ≤ 16 }
    requires lines { AreLanesBounded (2 ^ 17) 8 lines.now }
    ensures { (p lane : ℕ) → p < 8 → lane < 8
        → lane_at result p lane ≡ inverse_of shift (λ u. lane_at lines.now u lane) p }
{
    positions(&even_sums(lines), &odd_sums(lines), shift)
}

/// The frequencies of each column of positions.
#[inline(always)]
fn forward_lines(lines: &[i32x8; 8], shift: u32) -> [i32x8; 8]
    requires low { 1 ≤ shift }
    requires high { shift ≤ 16 }
    requires lines { AreLanesBounded (2 ^ 16) 8 lines.now }
    ensures { (p lane : ℕ) → p < 8 → lane < 8
        → lane_at result p lane ≡ forward_of shift (λ x. lane_at lines.now x lane) p }
{
    frequencies(&even_frequencies(lines), &odd_frequencies(lines), shift)
}

/// The first pass of the inverse transform, over columns: coefficients of 16 bits to the values
/// between the passes.
///
/// Lane v of element y of the result is the sum over u of `T[u][y]` times lane v of element u,
/// divided by `2 ^ 7` and rounded. It is at most 122,624 in size, where no coefficient is above
/// 32,768 in size.
pub fn inverse_columns(coefficients: &[i32x8; 8]) -> [i32x8; 8]
    requires { AreLanesBounded 32768 8 coefficients.now }
    ensures value { (y v : ℕ) → y < 8 → v < 8
        → lane_at result y v ≡ column_sum (lane_at coefficients.now) y v }
    ensures bound { AreLanesBounded 122624 8 result }
{
    inverse_lines(coefficients, 7)
}

/// The second pass of the inverse transform, over rows: the values between the passes to residuals,
/// both transposed.
///
/// Lane y of element x of the result is the sum over v of `T[v][x]` times lane y of element v,
/// divided by `2 ^ (20 - depth)` and rounded. The bit depth is 10 to 12, and no value between the
/// passes is above 122,624 in size.
pub fn inverse_rows(sums: &[i32x8; 8], depth: u8) -> [i32x8; 8]
    requires depth { IsDepth depth }
    requires sums { AreLanesBounded 122624 8 sums.now }
    ensures value { (x y : ℕ) → x < 8 → y < 8 → lane_at result x y
        ≡ rounded (20 - depth) (sum_8 (λ v. transform_entry v x *ℤ lane_at sums.now v y)) }
    ensures bound { AreLanesBounded (2 ^ 18) 8 result }
{
    inverse_lines(sums, 20 - u32::from(depth))
}

/// The first pass of the forward transform, over rows: residuals to the values between the passes,
/// both transposed.
///
/// Lane y of element v of the result is the sum over x of `T[v][x]` times lane y of element x,
/// divided by `2 ^ (depth - 6)` and rounded. It is at most 16,384 in size. The bit depth is 10 to
/// 12, and no residual is above `2 ^ (depth - 1)` in size.
pub fn forward_rows(residuals: &[i32x8; 8], depth: u8) -> [i32x8; 8]
    requires depth { IsDepth depth }
    requires residuals { AreLanesBounded (2 ^ (depth - 1)) 8 residuals.now }
    ensures value { (v y : ℕ) → v < 8 → y < 8
        → lane_at result v y ≡ row_sum (λ y x. lane_at residuals.now x y) depth y v }
    ensures bound { AreLanesBounded 16384 8 result }
{
    forward_lines(residuals, u32::from(depth) - 6)
}

/// The second pass of the forward transform, over columns: the values between the passes to
/// coefficients.
///
/// Lane v of element u of the result is the sum over y of `T[u][y]` times lane v of element y,
/// divided by `2 ^ 9` and rounded. It is at most 16,384 in size, where no value between the passes
/// is above 16,384 in size.
pub fn forward_columns(sums: &[i32x8; 8]) -> [i32x8; 8]
    requires { AreLanesBounded 16384 8 sums.now }
    ensures value { (u v : ℕ) → u < 8 → v < 8 → lane_at result u v
        ≡ rounded 9 (sum_8 (λ y. transform_entry u y *ℤ lane_at sums.now y v)) }
    ensures bound { AreLanesBounded 16384 8 result }
{
    forward_lines(sums, 9)
}
