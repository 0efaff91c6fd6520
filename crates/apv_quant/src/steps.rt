//! The step numbers of a quantisation matrix at a QP.
ghost use Rattle.std.specs.Prelude.{◌≡◌, ◌+◌, ◌-◌, ◌/◌, min, ◌^◌, ◌<◌, ◌≤◌, ◌↔◌, length, IsTrue};
ghost use Rattle.apv_base.specs.model.Format.{IsDepth};
ghost use Rattle.apv_base.specs.model.Quant.{step_number, max_qp, shift_of};
ghost use Rattle.apv_quant.specs.Quotient.{reciprocal_of};
ghost use Rattle.apv_quant.specs.Scale.{AreBelow, AreQuotients, AreReciprocals, AreStepsOf};

use apv_base::Matrix;

/// The step numbers of the QPs 0 to 5 for a matrix value of 1.
const SCALE_TABLE: [u32; 6] = [40, 45, 51, 57, 64, 71];

/// The step number of a matrix value at a QP of a bit depth.
pub fn step_of(value: u8, qp: u8, depth: u8) -> u32
    requires depth { IsDepth depth }
    requires qp { qp ≤ max_qp depth }
    ensures is { result ≡ step_number value qp }
    ensures below { result < 2 ^ 27 }
    ensures within { result < 2 ^ (16 + shift_of depth) }
{
    (u32::from(value) * SCALE_TABLE[(qp % 6) as usize]) << (qp / 6)
}

/// The step numbers of a quantisation matrix at a QP of a bit depth, row after row.
pub fn steps_of(matrix: &Matrix, qp: u8, depth: u8) -> [u32; 64]
    requires depth { IsDepth depth }
    requires qp { qp ≤ max_qp depth }
    ensures count { length result ≡ 64 }
    ensures each { AreStepsOf matrix.now qp result }
    ensures below { AreBelow (2 ^ 27) result }
    ensures within { AreBelow (2 ^ (16 + shift_of depth)) result }
{
    let mut steps = [0u32; 64];
    for place in 0..64u8 {
        steps[place as usize] = step_of(matrix.at(place), qp, depth);
    }
    steps
}

/// The maximum power of 2 below the shift that divides each step number of a QP.
pub fn common_power(qp: u8, shift: u32) -> u32
    requires { 1 ≤ shift }
    ensures { result ≡ min (qp / 6) (shift - 1) }
{
    u32::min(u32::from(qp / 6), shift - 1)
}

/// Step numbers over `2 ^ power`.
pub fn reduced(steps: &[u32; 64], power: u32) -> [u32; 64]
    requires { power < 32 }
    ensures count { length result ≡ 64 }
    ensures each { AreQuotients (2 ^ power) steps.now result }
{
    let mut reduced = [0u32; 64];
    for place in 0..64 {
        reduced[place] = steps[place] >> power;
    }
    reduced
}

/// The reciprocal of a step number, by which a quotient is taken; 0 for a step number of 0.
fn reciprocal(step: u32) -> u64
    ensures { result ≡ reciprocal_of step }
{
    u64::MAX.checked_div(u64::from(step)).unwrap_or(0)
}

/// The reciprocals of step numbers.
pub fn reciprocals_of(steps: &[u32; 64]) -> [u64; 64]
    ensures count { length result ≡ 64 }
    ensures each { AreReciprocals steps.now result }
{
    let mut reciprocals = [0u64; 64];
    for (place, step) in steps.iter().enumerate() {
        reciprocals[place] = reciprocal(*step);
    }
    reciprocals
}

/// Each step number is at most 65,535, so that its product with a level fits 32 bits.
pub fn are_narrow(steps: &[u32; 64]) -> bool
    ensures { IsTrue result ↔ AreBelow (2 ^ 16) steps.now }
{
    steps.iter().all(|step| *step <= 65535)
}
