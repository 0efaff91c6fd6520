//! Step numbers of 16 bits, by which a block is scaled in 32 bits.
ghost use Rattle.std.specs.Prelude.{◌≡◌, ℕ, ◌*◌, ◌/◌, ◌^◌, ◌<◌, ◌≤◌};
ghost use Rattle.std.specs.Prelude.{length, slice_index, IfSome, IfNone};
ghost use Rattle.apv_quant.specs.Scale.{AreMultiples, AreQuotients, IsNarrow, AreNotBelow};

use crate::steps;

/// 64 step numbers of 16 bits at a shift, which scale levels as those of a QP do.
#[derive(Debug, Drop)]
pub struct Narrow {
    pub steps: [u32; 64],
    pub shift: u32,
}

impl Narrow {
    /// Step numbers that scale as 64 step numbers at the shift of a bit depth do, if there are some
    /// of 16 bits: at the shift of 10 bits, which is scaled fastest, or else at the minimum shift.
    /// Each step number is a multiple of `2 ^ power`. There are none only where a step number over
    /// `2 ^ power` has more than 16 bits.
    pub fn of(steps: &[u32; 64], shift: u32, power: u32) -> Option<Narrow>
        requires multiples { AreMultiples (2 ^ power) steps.now }
        requires shift_low { 8 ≤ shift }
        requires shift_high { shift ≤ 10 }
        requires power { power < shift }
        ensures some { IfSome result (λ narrow.
            IsNarrow steps.now shift narrow.steps narrow.shift) }
        ensures none { IfNone result (AreNotBelow (2 ^ 16 * 2 ^ power) steps.now) }
    {
        match Narrow::over(steps, shift, u32::min(shift - 8, power)) {
            Some(narrow) => Some(narrow),
            None => Narrow::over(steps, shift, power),
        }
    }

    /// Step numbers over `2 ^ power` at a shift that is less by `power`, if each has 16 bits.
    fn over(steps: &[u32; 64], shift: u32, power: u32) -> Option<Narrow>
        requires multiples { AreMultiples (2 ^ power) steps.now }
        requires shift { shift ≤ 10 }
        requires power { power < shift }
        ensures some { IfSome result (λ narrow.
            IsNarrow steps.now shift narrow.steps narrow.shift) }
        ensures none { IfNone result (AreNotBelow (2 ^ 16 * 2 ^ power) steps.now) }
    {
        let reduced = steps::reduced(steps, power);
        if !steps::are_narrow(&reduced) {
            return None;
        }
        Some(Narrow {
            steps: reduced,
            shift: shift - power,
        })
    }
}
