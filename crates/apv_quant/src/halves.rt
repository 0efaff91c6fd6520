//! Reciprocals of 32 bits, each in two halves, by which a block is quantised in numbers of 16 bits.
ghost use Rattle.std.specs.Prelude.{◌≡◌, ℕ, ◌+◌, ◌-◌, ◌*◌, ◌/◌, ◌%◌, ◌^◌, ◌<◌, ◌≤◌, pos};
ghost use Rattle.std.specs.Prelude.{unsigned_abs, slice_index, slice_index_or, IfSome, IfNone};
ghost use Rattle.apv_base.specs.model.Quant.{IsNearest};
ghost use Rattle.apv_quant.specs.Quotient.{reciprocal_of, short_level, IsShortReciprocal};
ghost use Rattle.apv_quant.specs.Quotient.{IsShortStep, AreNotShortSteps};
ghost use Rattle.apv_quant.specs.Scale.{AreBelow, AreReciprocals, AreMultiples, AreHalves};

use crate::level;

/// The maximum reciprocal by which each quotient is at most 32,767.
const MAX_SHORT: u64 = 65534 * 65536 - 1;

/// The reciprocals of 64 step numbers: the high and the low 16 bits of each.
#[derive(Debug, Drop)]
pub struct Halves {
    high: [u16; 64],
    low: [u16; 64],
}

/// The reciprocal of 32 bits of a step number, if there is one by which each quotient is exact. The
/// step number is a multiple of `2 ^ power`. There is one where it is above `2 ^ shift` and at most
/// `2 ^ (15 + power)`.
fn short_reciprocal(step: u32, reciprocal: u64, shift: u32, power: u32) -> Option<u32>
    requires reciprocal { reciprocal ≡ reciprocal_of step }
    requires multiple { step / 2 ^ power * 2 ^ power ≡ step }
    requires shift { shift ≤ 10 }
    requires power { power ≤ shift }
    ensures some { IfSome result (λ short. IsShortReciprocal step shift short) }
    ensures none { IfNone result (IsShortStep step shift power → ⊥) }
{
    let reduced = step >> power;
    if reduced == 0 || reduced > 32768 {
        return None;
    }
    let short = (reciprocal >> (32 - shift)) + 1;
    if short > MAX_SHORT {
        return None;
    }
    Some(short as u32)
}

impl Halves {
    /// The halves of the reciprocals of 64 step numbers, if each has one by which each quotient is
    /// exact. Each step number is a multiple of `2 ^ power`. There are some where each is above
    /// `2 ^ shift` and at most `2 ^ (15 + power)`.
    pub fn of(steps: &[u32; 64], reciprocals: &[u64; 64], shift: u32, power: u32) -> Option<Halves>
        requires reciprocals { AreReciprocals steps.now reciprocals.now }
        requires multiples { AreMultiples (2 ^ power) steps.now }
        requires shift { shift ≤ 10 }
        requires power { power ≤ shift }
        ensures some { IfSome result (λ halves. AreHalves steps.now shift halves.high halves.low) }
        ensures none { IfNone result (AreNotShortSteps steps.now shift power) }
    {
        let mut high = [0u16; 64];
        let mut low = [0u16; 64];
        for place in 0..64 {
            let short = short_reciprocal(steps[place], reciprocals[place], shift, power)?;
            high[place] = (short / 65536) as u16;
            low[place] = (short % 65536) as u16;
        }
        Some(Halves { high, low })
    }

    /// The levels of a block of coefficients.
    pub fn levels(&self, coeffs: &[i16; 64]) -> [i16; 64]
        requires { AreBelow 65534 self.now.high }
        ensures few { (place : ℕ) → place < 64
            → unsigned_abs (slice_index_or coeffs.now place (pos 0)) ≤ 2 ^ 15 }
        ensures levels { (place : ℕ) → place < 64 → slice_index_or result place (pos 0)
            ≡ short_level (slice_index_or coeffs.now place (pos 0))
            (slice_index self.now.high place * 2 ^ 16 + slice_index self.now.low place) }
    {
        let mut levels = [0i16; 64];
        for place in 0..64 {
            levels[place] = level::short_level(coeffs[place], self.high[place], self.low[place]);
        }
        levels
    }
}
