//! A quantisation matrix at a QP and a bit depth, as a decoder takes it.
ghost use Rattle.std.specs.Prelude.{◌≡◌, ◌^◌, ◌<◌, ◌≤◌, length, slice_index};
ghost use Rattle.apv_base.specs.model.Format.{IsDepth};
ghost use Rattle.apv_base.specs.model.Quant.{shift_of, max_qp, scaled};
ghost use Rattle.apv_quant.specs.Scale.{AreBelow, AreStepsOf, AreScaled};

use crate::narrow::Narrow;
use crate::{block, level, steps};
use apv_base::Matrix;
use std::marker::Model;

/// A quantisation matrix at a QP and a bit depth: what scales levels to coefficients. A decoder
/// makes this one, which takes no division, and an encoder, which also finds levels, a `Scale`.
///
/// It is seen as a `Scale` is: as the step numbers of the 64 places, row after row, and the shift
/// of the bit depth.
#[derive(Debug, Drop)]
pub struct Scaling {
    steps: [u32; 64],
    shift: u32,
    narrow: Option<Narrow>,
}

impl Model for Scaling {
    ghost use Rattle.apv_quant.specs.Scale.{StepNumbers, IsScaling};

    ghost Value = { StepNumbers };

    ghost view = { λ s. record { steps = s.steps; shift = s.shift } };

    ghost invariant = { λ s. IsScaling s.steps s.shift s.narrow };
}

impl Scaling {
    /// The scaling by a quantisation matrix, `q_matrix`, at a QP, `qP`, and a bit depth,
    /// `BitDepth`.
    ///
    /// The bit depth is 10 to 12, and the QP at most the maximum of the bit depth, 63 at 10 bits
    /// and 75 at 12. Make it once for a component, and not for each block.
    pub fn of(matrix: &Matrix, qp: u8, depth: u8) -> Scaling
        requires depth { IsDepth depth }
        requires qp { qp ≤ max_qp depth }
        ensures count { length result.steps ≡ 64 }
        ensures each { AreStepsOf matrix.now qp result.steps }
        ensures shift { result.shift ≡ shift_of depth }
    {
        let steps = steps::steps_of(matrix, qp, depth);
        let shift = u32::from(depth - 2);
        Scaling {
            steps,
            shift,
            narrow: Narrow::of(&steps, shift, steps::common_power(qp, shift)),
        }
    }

    /// The step numbers of the 64 places, row after row.
    pub(crate) fn steps(&self) -> &[u32; 64]
        ensures is { result.now ≡ self.now.steps }
        ensures count { length result.now ≡ 64 }
        ensures below { AreBelow (2 ^ 27) result.now }
    {
        &self.steps
    }

    /// The shift of the bit depth.
    pub(crate) fn shift(&self) -> u32
        ensures is { result ≡ self.now.shift }
        ensures low { 8 ≤ result }
        ensures high { result ≤ 10 }
    {
        self.shift
    }

    /// A level scaled to the coefficient at a place, `8 * row + column`: the scaling process for
    /// transform coefficients of RFC 9924, rounded to the nearest (halves up) and clipped to 16
    /// bits.
    pub fn scaled(&self, level: i16, place: u8) -> i16
        requires { place < 64 }
        ensures { result ≡ scaled level (slice_index self.now.steps place) self.now.shift }
    {
        level::scaled_wide(level, self.steps[place as usize], self.shift)
    }

    /// The 64 levels of a block scaled to its coefficients, row after row, each as `scaled` does.
    pub fn scale_block(&self, levels: &[i16; 64]) -> [i16; 64]
        ensures { AreScaled self.now.steps self.now.shift levels.now result }
    {
        match &self.narrow {
            Some(narrow) if narrow.shift == 8 => block::scaled_by_8(levels, &narrow.steps),
            Some(narrow) => block::scaled_narrow(levels, &narrow.steps, narrow.shift),
            None => block::scaled_wide(levels, &self.steps, self.shift),
        }
    }
}
