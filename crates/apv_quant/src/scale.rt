//! A quantisation matrix at a QP and a bit depth, as an encoder takes it.
ghost use Rattle.std.specs.Prelude.{◌≡◌, ◌<◌, ◌≤◌, length, slice_index};
ghost use Rattle.apv_base.specs.model.Format.{IsDepth};
ghost use Rattle.apv_base.specs.model.Quant.{shift_of, max_qp, scaled, IsNearest};
ghost use Rattle.apv_quant.specs.Scale.{AreStepsOf, AreScaled, AreNearest};

use crate::halves::Halves;
use crate::{Scaling, block, level, steps};
use apv_base::Matrix;
use std::marker::Model;

/// A quantisation matrix at a QP and a bit depth: what scales levels to coefficients, and finds the
/// levels of coefficients.
///
/// It is seen as the step numbers of the 64 places, row after row, and the shift of the bit depth.
/// A step number is `q_matrix * levelScale[qP % 6] << (qP / 6)` in the RFC's words, and the shift
/// is its `bdShift`, `depth - 2`: a level times its step number over `2 ^ shift` is the
/// coefficient.
#[derive(Debug, Drop)]
pub struct Scale {
    scaling: Scaling,
    reciprocals: [u64; 64],
    halves: Option<Halves>,
}

impl Model for Scale {
    ghost use Rattle.apv_quant.specs.Scale.{StepNumbers, IsScale};

    ghost Value = { StepNumbers };

    ghost view = { λ s. s.scaling };

    ghost invariant = { λ s. IsScale s.scaling s.reciprocals s.halves };
}

impl Scale {
    /// The scale of a quantisation matrix, `q_matrix`, at a QP, `qP`, and a bit depth, `BitDepth`.
    ///
    /// The bit depth is 10 to 12, and the QP at most the maximum of the bit depth, 63 at 10 bits
    /// and 75 at 12. It takes 64 divisions: make it once for a component, and not for each block.
    pub fn of(matrix: &Matrix, qp: u8, depth: u8) -> Scale
        requires depth { IsDepth depth }
        requires qp { qp ≤ max_qp depth }
        ensures count { length result.steps ≡ 64 }
        ensures each { AreStepsOf matrix.now qp result.steps }
        ensures shift { result.shift ≡ shift_of depth }
    {
        let scaling = Scaling::of(matrix, qp, depth);
        let shift = scaling.shift();
        let reciprocals = steps::reciprocals_of(scaling.steps());
        let power = steps::common_power(qp, shift);
        let halves = Halves::of(scaling.steps(), &reciprocals, shift, power);
        Scale {
            scaling,
            reciprocals,
            halves,
        }
    }

    /// The scaling of the same matrix, QP and bit depth, without what finds levels.
    pub fn scaling(&self) -> &Scaling
        ensures { result.now ≡ self.now }
    {
        &self.scaling
    }

    /// A level scaled to the coefficient at a place, `8 * row + column`: the scaling process for
    /// transform coefficients of RFC 9924, rounded to the nearest (halves up) and clipped to 16
    /// bits.
    pub fn scaled(&self, level: i16, place: u8) -> i16
        requires { place < 64 }
        ensures { result ≡ scaled level (slice_index self.now.steps place) self.now.shift }
    {
        self.scaling.scaled(level, place)
    }

    /// The level, of those from -32,768 to 32,767, whose exact value, `level * step / 2 ^ shift`,
    /// is nearest to a coefficient at a place, `8 * row + column`; of two as near the one nearer to
    /// 0.
    pub fn nearest(&self, coeff: i16, place: u8) -> i16
        requires { place < 64 }
        ensures { IsNearest coeff (slice_index self.now.steps place) self.now.shift result }
    {
        let place = place as usize;
        level::nearest_level(
            coeff,
            self.scaling.steps()[place],
            self.reciprocals[place],
            self.scaling.shift(),
        )
    }

    /// The 64 levels of a block scaled to its coefficients, row after row, each as `scaled` does.
    pub fn scale_block(&self, levels: &[i16; 64]) -> [i16; 64]
        ensures { AreScaled self.now.steps self.now.shift levels.now result }
    {
        self.scaling.scale_block(levels)
    }

    /// The levels that are nearest to the 64 coefficients of a block, row after row, each as
    /// `nearest` finds it.
    pub fn quantise_block(&self, coeffs: &[i16; 64]) -> [i16; 64]
        ensures { AreNearest self.now.steps self.now.shift coeffs.now result }
    {
        match &self.halves {
            Some(halves) => halves.levels(coeffs),
            None => block::nearest(
                coeffs,
                self.scaling.steps(),
                &self.reciprocals,
                self.scaling.shift(),
            ),
        }
    }
}
