//! The sizes of coefficients from which on their levels have at least a size.
ghost use Rattle.std.specs.Prelude.{◌≡◌, ℕ, ◌+◌, ◌-◌, ◌*◌, ◌^◌, ◌<◌, ◌≤◌, min, length};
ghost use Rattle.std.specs.Prelude.{slice_index};
ghost use Rattle.apv_base.specs.model.Format.{IsDepth};
ghost use Rattle.apv_base.specs.model.Quant.{IsMatrix, max_qp, step_number};
ghost use Rattle.apv_quant.specs.Reaching.{ReachLevels, reaching_size};

use crate::steps::step_of;
use apv_base::Matrix;

/// The sizes of levels at which the code words of levels grow by a bit: 1, and each power of 2 and 1, up to 65.
pub const LEVEL_SIZES: [u16; 8] = [1, 2, 3, 5, 9, 17, 33, 65];

/// The maximum step number of a quantisation matrix at a QP of a bit depth.
fn maximum_step(matrix: &Matrix, qp: u8, depth: u8) -> u32
    requires depth { IsDepth depth }
    requires qp { qp ≤ max_qp depth }
    ensures each { (place : ℕ) → place < 64 → step_number (slice_index matrix.now place) qp ≤ result }
    ensures below { result < 2 ^ 27 }
    ensures matrix { IsMatrix matrix.now }
{
    let mut maximum = 0;
    for place in 0..64u8 {
        maximum = u32::max(maximum, step_of(matrix.at(place), qp, depth));
    }
    maximum
}

/// The size of a coefficient from which on its level has at least a size, at a step number and each one below it.
fn size_reaching(level: u16, step: u32, shift: u32) -> u16
    requires level { level ≤ 65 }
    requires step { step < 2 ^ 27 }
    requires shift { shift ≤ 10 }
    ensures { result ≡ reaching_size level step shift }
{
    let parts = u64::from(2 * level).saturating_sub(1) * u64::from(step);
    u64::min((parts >> (shift + 1)) + 1, 65535) as u16
}

/// For each of `LEVEL_SIZES`, a size of coefficients from which on the nearest level has at least that size, at each place
/// of a quantisation matrix, at a QP and at each one below it.
///
/// The bit depth is 10 to 12, and the QP at most the maximum of the bit depth. Make them once for a component, and not
/// for each block.
pub fn sizes_reaching(matrix: &Matrix, qp: u8, depth: u8) -> [u16; 8]
    requires depth { IsDepth depth }
    requires qp { qp ≤ max_qp depth }
    ensures count { length result ≡ 8 }
    ensures each { ReachLevels matrix.now qp depth result }
{
    let step = maximum_step(matrix, qp, depth);
    let mut sizes = [0u16; 8];
    for index in 0..8 {
        sizes[index] = size_reaching(LEVEL_SIZES[index], step, u32::from(depth - 2));
    }
    sizes
}
