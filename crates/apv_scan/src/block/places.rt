//! The places of a block's levels that aren't 0.

ghost use Rattle.std.specs.Prelude.{◌≡◌, ℕ, List, [], ◌∷◌, ◌<◌, map, min, unsigned_abs, IfSome, IfNone};
ghost use Rattle.std.specs.Int.{bit_at};
ghost use Rattle.apv_base.specs.model.Scan.{level_at};
ghost use Rattle.apv_base.specs.model.Block.{places};
ghost use Rattle.apv_scan.specs.Places.{set_lane};

use std::marker::Model;
use std::simd::prelude::*;

/// The place, 8 * y + x, of each scan place, as lanes are numbered.
const SCAN_LANES: [usize; 64] = [
    0, 1, 8, 16, 9, 2, 3, 10, 17, 24, 32, 25, 18, 11, 4, 5, 12, 19, 26, 33, 40, 48, 41, 34, 27, 20,
    13, 6, 7, 14, 21, 28, 35, 42, 49, 56, 57, 50, 43, 36, 29, 22, 15, 23, 30, 37, 44, 51, 58, 59,
    52, 45, 38, 31, 39, 46, 53, 60, 61, 54, 47, 55, 62, 63,
];

/// The scan places after the first whose level isn't 0, from some place on, in their order. Seen
/// as the list of them.
#[derive(Drop)]
pub struct Places {
    /// Its bit p is 1 where the scan place p is one of them.
    mask: u64,
}

impl Model for Places {
    ghost use Rattle.std.specs.Prelude.{ℕ, List, ◌^◌, ◌<◌};
    ghost use Rattle.apv_scan.specs.Places.{places_in};

    ghost Value = { List ℕ };

    ghost view = { λ p. places_in p.mask };

    ghost invariant = { λ p. p.mask < 2 ^ 64 };
}

/// Lanes of -1 where a level isn't 0, and of 0 where it is.
#[inline]
fn are_set(levels: [i16; 64]) -> i8x64
    ensures { result ≡ map set_lane levels }
{
    i16x64::from_array(levels)
        .simd_ne(i16x64::splat(0))
        .cast::<i8>()
        .to_simd()
}

/// A number whose bit p is 1 exactly where the level at the scan place p isn't 0.
#[inline]
fn mask_of(levels: [i16; 64]) -> u64
    ensures { (p : ℕ) → p < 64 → bit_at result p ≡ min 1 (unsigned_abs (level_at levels p)) }
{
    are_set(levels)
        .swizzle(SCAN_LANES)
        .simd_ne(i8x64::splat(0))
        .to_bitmask()
}

impl Places {
    /// The places of a block.
    #[inline]
    pub fn of(levels: &[i16; 64]) -> Places
        ensures { result ≡ places (level_at levels.now) 63 1 }
    {
        Places {
            mask: mask_of(*levels) & !1,
        }
    }

    /// The first place.
    #[inline]
    pub fn first(&self) -> Option<u32>
        ensures some { IfSome result (λ place. (more : List ℕ) × (self.now ≡ place ∷ more)) }
        ensures none { IfNone result (self.now ≡ []) }
    {
        if self.mask == 0 {
            return None;
        }
        Some(self.mask.trailing_zeros())
    }

    /// Takes the first place away.
    #[inline]
    pub fn take_first(&mut self) -> Option<u32>
        ensures some { IfSome result (λ place. self.old ≡ place ∷ self.new) }
        ensures none { IfNone result (self.old ≡ []) }
    {
        let first = self.first()?;
        self.mask &= self.mask - 1;
        Some(first)
    }
}
