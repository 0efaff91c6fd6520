//! Vectors of eight lanes: what is in an array of them, and their sums divided by a power of 2.
ghost use Rattle.std.specs.Prelude.{◌≡◌, ℕ, ◌<◌, ◌≤◌, ◌+◌, ◌-◌, ◌*◌, ◌^◌, ◌+ℤ◌, ◌-ℤ◌, List, [], ◌∷◌, slice_index_or};
ghost use Rattle.apv_base.specs.model.Transform.{rounded};
ghost use Rattle.apv_transform.specs.Lanes.{lane_at, AreLanesBounded};

use crate::round::half;
use std::simd::prelude::*;

/// Eight values as an array.
#[inline(always)]
pub fn eight<T: Copy>(a: T, b: T, c: T, d: T, e: T, f: T, g: T, h: T) -> [T; 8]
    ensures { result ≡ a ∷ b ∷ c ∷ d ∷ e ∷ f ∷ g ∷ h ∷ [] }
{
    [a, b, c, d, e, f, g, h]
}

/// Four values as an array.
#[inline(always)]
pub fn four<T: Copy>(a: T, b: T, c: T, d: T) -> [T; 4]
    ensures { result ≡ a ∷ b ∷ c ∷ d ∷ [] }
{
    [a, b, c, d]
}

/// An element of an array.
#[inline(always)]
pub fn element<T: Copy, const N: usize>(values: &[T; N], place: usize) -> T
    requires { place < N }
    ensures { result ≡ slice_index_or values.now place result }
{
    values[place]
}

/// The positions of eight lines: the sums over the even frequencies with those over the odd ones
/// added at the positions 0 to 3, and taken away at 7 to 4, divided by 2 ^ shift and rounded.
#[inline(always)]
pub fn positions(even: &[i32x8; 4], odd: &[i32x8; 4], shift: u32) -> [i32x8; 8]
    requires low { 1 ≤ shift }
    requires high { shift ≤ 16 }
    requires even { AreLanesBounded (2 ^ 29) 4 even.now }
    requires odd { AreLanesBounded (2 ^ 29) 4 odd.now }
    ensures near { (k lane : ℕ) → k < 4 → lane < 8
        → lane_at result k lane
        ≡ rounded shift (lane_at even.now k lane +ℤ lane_at odd.now k lane) }
    ensures far { (k lane : ℕ) → k < 4 → lane < 8
        → lane_at result (7 - k) lane
        ≡ rounded shift (lane_at even.now k lane -ℤ lane_at odd.now k lane) }
{
    let half = i32x8::splat(half(shift));
    let shift = i32x8::splat(shift as i32);
    let even_0 = element(even, 0);
    let even_1 = element(even, 1);
    let even_2 = element(even, 2);
    let even_3 = element(even, 3);
    let odd_0 = element(odd, 0);
    let odd_1 = element(odd, 1);
    let odd_2 = element(odd, 2);
    let odd_3 = element(odd, 3);
    eight(
        (even_0 + half + odd_0) >> shift,
        (even_1 + half + odd_1) >> shift,
        (even_2 + half + odd_2) >> shift,
        (even_3 + half + odd_3) >> shift,
        (even_3 + half - odd_3) >> shift,
        (even_2 + half - odd_2) >> shift,
        (even_1 + half - odd_1) >> shift,
        (even_0 + half - odd_0) >> shift,
    )
}

/// The frequencies of eight lines: the sums of the even and those of the odd frequencies in turn,
/// divided by 2 ^ shift and rounded.
#[inline(always)]
pub fn frequencies(even: &[i32x8; 4], odd: &[i32x8; 4], shift: u32) -> [i32x8; 8]
    requires low { 1 ≤ shift }
    requires high { shift ≤ 16 }
    requires even { AreLanesBounded (2 ^ 29) 4 even.now }
    requires odd { AreLanesBounded (2 ^ 29) 4 odd.now }
    ensures even { (k lane : ℕ) → k < 4 → lane < 8
        → lane_at result (2 * k) lane ≡ rounded shift (lane_at even.now k lane) }
    ensures odd { (k lane : ℕ) → k < 4 → lane < 8
        → lane_at result (2 * k + 1) lane ≡ rounded shift (lane_at odd.now k lane) }
{
    let half = i32x8::splat(half(shift));
    let shift = i32x8::splat(shift as i32);
    let even_0 = element(even, 0);
    let even_1 = element(even, 1);
    let even_2 = element(even, 2);
    let even_3 = element(even, 3);
    let odd_0 = element(odd, 0);
    let odd_1 = element(odd, 1);
    let odd_2 = element(odd, 2);
    let odd_3 = element(odd, 3);
    eight(
        (even_0 + half) >> shift,
        (odd_0 + half) >> shift,
        (even_1 + half) >> shift,
        (odd_1 + half) >> shift,
        (even_2 + half) >> shift,
        (odd_2 + half) >> shift,
        (even_3 + half) >> shift,
        (odd_3 + half) >> shift,
    )
}
