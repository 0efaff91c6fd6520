//! Sums of products of 16-bit lanes, two by two.
ghost use Rattle.std.specs.Prelude.{◌≡◌, ℕ, ◌<◌, ◌+◌, ◌-◌, ◌^◌, ◌*◌, ◌+ℤ◌, ◌-ℤ◌, ◌*ℤ◌, pos, slice_index};
ghost use Rattle.apv_base.specs.model.Format.{IsDepth};
ghost use Rattle.apv_base.specs.model.Transform.{transform_entry, column_sum};
ghost use Rattle.apv_transform.specs.Line.{IsBounded, AreBounded, value_at, sum_4, pair_sum};
ghost use Rattle.apv_transform.specs.Lanes.{lane_at, AreLanesBounded, AreOf16Bits, AreLanesOf16Bits, AreLanesHalved};
ghost use Rattle.apv_transform.specs.Laws.{IsResidual};
ghost use Rattle.apv_transform.specs.Pass.{inverse_of, forward_of, AreEvenSums, AreOddSums};

use crate::lanes::{eight, element, four, frequencies, positions};
use crate::round::half;
use crate::rows::saturated;
use std::simd::prelude::*;

/// The sums of the products of neighbouring lanes.
#[inline(always)]
fn multiply_add(a: i16x8, weights: i16x8) -> i32x4
    requires a { AreOf16Bits a }
    requires weights { AreBounded 89 8 weights }
    ensures value { (lane : ℕ) → lane < 4 → value_at result lane
        ≡ value_at a (2 * lane) *ℤ value_at weights (2 * lane)
        +ℤ value_at a (2 * lane + 1) *ℤ value_at weights (2 * lane + 1) }
    ensures bound { AreBounded (2 * 89 * 2 ^ 15) 4 result }
{
    let products = a.cast::<i32>() * weights.cast::<i32>();
    products.swizzle([0, 2, 4, 6]) + products.swizzle([1, 3, 5, 7])
}

/// The weighted sum of two rows of a block.
#[inline(always)]
fn weighted_pair(rows: &[i16x8; 8], first: usize, second: usize, p: i16, q: i16) -> i32x8
    requires rows { AreLanesOf16Bits 8 rows.now }
    requires first { first < 8 }
    requires second { second < 8 }
    requires p { IsBounded 89 p }
    requires q { IsBounded 89 q }
    ensures value { (lane : ℕ) → lane < 8
        → value_at result lane
        ≡ lane_at rows.now first lane *ℤ p +ℤ lane_at rows.now second lane *ℤ q }
    ensures bound { AreBounded (2 * 89 * 2 ^ 15) 8 result }
{
    let a = element(rows, first);
    let b = element(rows, second);
    let weights = i16x8::from_array([p, q, p, q, p, q, p, q]);
    let low = multiply_add(a.shuffle(b, [0, 8, 1, 9, 2, 10, 3, 11]), weights);
    let high = multiply_add(a.shuffle(b, [4, 12, 5, 13, 6, 14, 7, 15]), weights);
    low.shuffle(high, [0, 1, 2, 3, 4, 5, 6, 7])
}

/// The weighted sum of four rows of a block.
#[inline(always)]
fn weighted_rows(rows: &[i16x8; 8], places: &[usize; 4], p: i16, q: i16, r: i16, s: i16) -> i32x8
    requires rows { AreLanesOf16Bits 8 rows.now }
    requires places { (j : ℕ) → j < 4 → slice_index places.now j < 8 }
    requires p { IsBounded 89 p }
    requires q { IsBounded 89 q }
    requires r { IsBounded 89 r }
    requires s { IsBounded 89 s }
    ensures value { (lane : ℕ) → lane < 8
        → value_at result lane
        ≡ lane_at rows.now (slice_index places.now 0) lane *ℤ p
        +ℤ lane_at rows.now (slice_index places.now 1) lane *ℤ q
        +ℤ (lane_at rows.now (slice_index places.now 2) lane *ℤ r
        +ℤ lane_at rows.now (slice_index places.now 3) lane *ℤ s) }
    ensures bound { AreBounded (4 * 89 * 2 ^ 15) 8 result }
{
    let low = weighted_pair(rows, places[0], places[1], p, q);
    let high = weighted_pair(rows, places[2], places[3], r, s);
    low + high
}

/// The sums of four rows of a block, each times an entry of the transform matrix at the odd
/// frequencies and the positions 0 to 3. These entries are the same column by column.
#[inline(always)]
fn odd_rows(rows: &[i16x8; 8], places: &[usize; 4]) -> [i32x8; 4]
    requires rows { AreLanesOf16Bits 8 rows.now }
    requires places { (j : ℕ) → j < 4 → slice_index places.now j < 8 }
    ensures value { (k lane : ℕ) → k < 4 → lane < 8
        → lane_at result k lane
        ≡ sum_4 (λ j. transform_entry (2 * j + 1) k
        *ℤ lane_at rows.now (slice_index places.now j) lane) }
    ensures bound { AreLanesBounded (2 ^ 27) 4 result }
{
    four(
        weighted_rows(rows, places, 89, 75, 50, 18),
        weighted_rows(rows, places, 75, -18, -89, -50),
        weighted_rows(rows, places, 50, -89, 18, 75),
        weighted_rows(rows, places, 18, -50, 75, -89),
    )
}

/// The sums over the even frequencies at the positions 0 to 3 of each column; those at 7 to 4 are
/// the same.
#[inline(always)]
pub fn even_sums(rows: &[i16x8; 8]) -> [i32x8; 4]
    requires { AreLanesOf16Bits 8 rows.now }
    ensures value { AreEvenSums rows.now result }
    ensures bound { AreLanesBounded (2 ^ 27) 4 result }
{
    let sum = weighted_pair(rows, 0, 4, 64, 64);
    let difference = weighted_pair(rows, 0, 4, 64, -64);
    let outer = weighted_pair(rows, 2, 6, 84, 35);
    let inner = weighted_pair(rows, 2, 6, 35, -84);
    four(
        sum + outer,
        difference + inner,
        difference - inner,
        sum - outer,
    )
}

/// The sums over the odd frequencies at the positions 0 to 3 of each column; those at 7 to 4 are
/// the opposites.
#[inline(always)]
pub fn odd_sums(rows: &[i16x8; 8]) -> [i32x8; 4]
    requires { AreLanesOf16Bits 8 rows.now }
    ensures value { AreOddSums rows.now result }
    ensures bound { AreLanesBounded (2 ^ 27) 4 result }
{
    odd_rows(rows, &[1, 3, 5, 7])
}

/// The first pass of the inverse transform, over the columns of a block of coefficients.
#[inline(always)]
pub fn column_sums(rows: &[i16x8; 8]) -> [i32x8; 8]
    requires { AreLanesOf16Bits 8 rows.now }
    ensures value { (y v : ℕ) → y < 8 → v < 8
        → lane_at result y v ≡ column_sum (lane_at rows.now) y v }
    ensures bound { AreLanesBounded 122624 8 result }
{
    positions(&even_sums(rows), &odd_sums(rows), 7)
}

/// A row of values between the passes of the inverse transform as a row of residuals, with half the
/// range of the depth added to each.
#[inline(always)]
pub fn residual_row(rows: &[i16x8; 8], row: usize, depth: u8) -> i32x8
    requires depth { IsDepth depth }
    requires rows { AreLanesOf16Bits 8 rows.now }
    requires row { row < 8 }
    ensures value { (x : ℕ) → x < 8 → value_at result x
        ≡ inverse_of (20 - depth) (lane_at rows.now row) x +ℤ pos (2 ^ (depth - 1)) }
    ensures bound { AreBounded (2 ^ 30) 8 result }
{
    let shift = 20 - u32::from(depth);
    let sums = element(rows, row);
    let even_low = multiply_add(
        sums.swizzle([0, 2, 0, 2, 0, 2, 0, 2]),
        i16x8::from_array([64, 84, 64, 35, 64, -35, 64, -84]),
    );
    let even_high = multiply_add(
        sums.swizzle([4, 6, 4, 6, 4, 6, 4, 6]),
        i16x8::from_array([64, 35, -64, -84, -64, 84, 64, -35]),
    );
    let odd_low = multiply_add(
        sums.swizzle([1, 3, 1, 3, 1, 3, 1, 3]),
        i16x8::from_array([89, 75, 75, -18, 50, -89, 18, -50]),
    );
    let odd_high = multiply_add(
        sums.swizzle([5, 7, 5, 7, 5, 7, 5, 7]),
        i16x8::from_array([50, 18, -89, -50, 18, 75, 75, -89]),
    );
    // Half of 2 ^ shift to round, and half the range times 2 ^ shift.
    let even = even_low + even_high + i32x4::splat(half(shift) + (1 << 19));
    let odd = odd_low + odd_high;
    (even + odd).shuffle(even - odd, [0, 1, 2, 3, 7, 6, 5, 4]) >> i32x8::splat(shift as i32)
}

/// Four sums over the eight lanes of a row, each times a weight. The weights of the sum at lane k
/// are those at the lanes 2 * k and 2 * k + 1 of the four vectors.
#[inline(always)]
fn weighted_row(
    rows: &[i16x8; 8],
    row: usize,
    weights_01: i16x8,
    weights_23: i16x8,
    weights_45: i16x8,
    weights_67: i16x8,
) -> i32x4
    requires rows { AreLanesOf16Bits 8 rows.now }
    requires row { row < 8 }
    requires weights_01 { AreBounded 89 8 weights_01 }
    requires weights_23 { AreBounded 89 8 weights_23 }
    requires weights_45 { AreBounded 89 8 weights_45 }
    requires weights_67 { AreBounded 89 8 weights_67 }
    ensures value { (k : ℕ) → k < 4 → value_at result k
        ≡ pair_sum (lane_at rows.now row) (value_at weights_01) 0 k
        +ℤ pair_sum (lane_at rows.now row) (value_at weights_23) 2 k
        +ℤ (pair_sum (lane_at rows.now row) (value_at weights_45) 4 k
        +ℤ pair_sum (lane_at rows.now row) (value_at weights_67) 6 k) }
    ensures bound { AreBounded (8 * 89 * 2 ^ 15) 4 result }
{
    let lanes = element(rows, row);
    let sums_01 = multiply_add(lanes.swizzle([0, 1, 0, 1, 0, 1, 0, 1]), weights_01);
    let sums_23 = multiply_add(lanes.swizzle([2, 3, 2, 3, 2, 3, 2, 3]), weights_23);
    let sums_45 = multiply_add(lanes.swizzle([4, 5, 4, 5, 4, 5, 4, 5]), weights_45);
    let sums_67 = multiply_add(lanes.swizzle([6, 7, 6, 7, 6, 7, 6, 7]), weights_67);
    (sums_01 + sums_23) + (sums_45 + sums_67)
}

/// A row of residuals as a row of the values between the passes of the forward transform.
#[inline(always)]
fn sum_row(residuals: &[i16x8; 8], row: usize, depth: u8) -> i16x8
    requires depth { IsDepth depth }
    requires fits { AreLanesOf16Bits 8 residuals.now }
    requires row { row < 8 }
    requires residuals { (x : ℕ) → x < 8 → IsResidual depth (lane_at residuals.now row x) }
    ensures value { (v : ℕ) → v < 8
        → value_at result v ≡ forward_of (depth - 6) (lane_at residuals.now row) v }
    ensures fits { AreOf16Bits result }
{
    let shift = u32::from(depth) - 6;
    let low = weighted_row(
        residuals,
        row,
        i16x8::from_array([64, 64, 89, 75, 84, 35, 75, -18]),
        i16x8::from_array([64, 64, 50, 18, -35, -84, -89, -50]),
        i16x8::from_array([64, 64, -18, -50, -84, -35, 50, 89]),
        i16x8::from_array([64, 64, -75, -89, 35, 84, 18, -75]),
    );
    let high = weighted_row(
        residuals,
        row,
        i16x8::from_array([64, -64, 50, -89, 35, -84, 18, -50]),
        i16x8::from_array([-64, 64, 18, 75, 84, -35, 75, -89]),
        i16x8::from_array([64, -64, -75, -18, -35, 84, 89, -75]),
        i16x8::from_array([-64, 64, 89, -50, -84, 35, 50, -18]),
    );
    let sums = low.shuffle(high, [0, 1, 2, 3, 4, 5, 6, 7]) + i32x8::splat(half(shift));
    saturated(sums >> i32x8::splat(shift as i32))
}

/// The first pass of the forward transform, over the rows of a block of residuals.
#[inline(always)]
pub fn sum_rows(residuals: &[i16x8; 8], depth: u8) -> [i16x8; 8]
    requires depth { IsDepth depth }
    requires fits { AreLanesOf16Bits 8 residuals.now }
    requires residuals { (y x : ℕ) → y < 8 → x < 8 → IsResidual depth (lane_at residuals.now y x) }
    ensures value { (y v : ℕ) → y < 8 → v < 8
        → lane_at result y v ≡ forward_of (depth - 6) (lane_at residuals.now y) v }
    ensures fits { AreLanesOf16Bits 8 result }
{
    eight(
        sum_row(residuals, 0, depth),
        sum_row(residuals, 1, depth),
        sum_row(residuals, 2, depth),
        sum_row(residuals, 3, depth),
        sum_row(residuals, 4, depth),
        sum_row(residuals, 5, depth),
        sum_row(residuals, 6, depth),
        sum_row(residuals, 7, depth),
    )
}

/// The sums of mirrored rows of a block, and then their differences.
#[inline(always)]
fn mirrored(rows: &[i16x8; 8]) -> [i16x8; 8]
    requires { AreLanesHalved 8 rows.now }
    ensures sums { (k lane : ℕ) → k < 4 → lane < 8
        → lane_at result k lane ≡ lane_at rows.now k lane +ℤ lane_at rows.now (7 - k) lane }
    ensures differences { (k lane : ℕ) → k < 4 → lane < 8
        → lane_at result (4 + k) lane ≡ lane_at rows.now k lane -ℤ lane_at rows.now (7 - k) lane }
    ensures fits { AreLanesOf16Bits 8 result }
{
    let row_0 = element(rows, 0);
    let row_1 = element(rows, 1);
    let row_2 = element(rows, 2);
    let row_3 = element(rows, 3);
    let row_4 = element(rows, 4);
    let row_5 = element(rows, 5);
    let row_6 = element(rows, 6);
    let row_7 = element(rows, 7);
    eight(
        row_0 + row_7,
        row_1 + row_6,
        row_2 + row_5,
        row_3 + row_4,
        row_0 - row_7,
        row_1 - row_6,
        row_2 - row_5,
        row_3 - row_4,
    )
}

/// The even frequencies of each column, from the sums of mirrored rows.
#[inline(always)]
fn even_frequencies(mirrored: &[i16x8; 8]) -> [i32x8; 4]
    requires { AreLanesOf16Bits 8 mirrored.now }
    ensures value { (k lane : ℕ) → k < 4 → lane < 8
        → lane_at result k lane
        ≡ sum_4 (λ y. transform_entry (2 * k) y *ℤ lane_at mirrored.now y lane) }
    ensures bound { AreLanesBounded (2 ^ 27) 4 result }
{
    let places = [0, 1, 2, 3];
    four(
        weighted_rows(mirrored, &places, 64, 64, 64, 64),
        weighted_rows(mirrored, &places, 84, 35, -35, -84),
        weighted_rows(mirrored, &places, 64, -64, -64, 64),
        weighted_rows(mirrored, &places, 35, -84, 84, -35),
    )
}

/// The odd frequencies of each column, from the differences of mirrored rows.
#[inline(always)]
fn odd_frequencies(mirrored: &[i16x8; 8]) -> [i32x8; 4]
    requires { AreLanesOf16Bits 8 mirrored.now }
    ensures value { (k lane : ℕ) → k < 4 → lane < 8
        → lane_at result k lane
        ≡ sum_4 (λ y. transform_entry (2 * k + 1) y *ℤ lane_at mirrored.now (4 + y) lane) }
    ensures bound { AreLanesBounded (2 ^ 27) 4 result }
{
    odd_rows(mirrored, &[4, 5, 6, 7])
}

/// The second pass of the forward transform, over the columns of a block of the values between the
/// passes.
#[inline(always)]
pub fn column_frequencies(sums: &[i16x8; 8]) -> [i32x8; 8]
    requires { AreLanesHalved 8 sums.now }
    ensures { (u v : ℕ) → u < 8 → v < 8
        → lane_at result u v ≡ forward_of 9 (λ y. lane_at sums.now y v) u }
{
    let mirrored = mirrored(sums);
    frequencies(&even_frequencies(&mirrored), &odd_frequencies(&mirrored), 9)
}
