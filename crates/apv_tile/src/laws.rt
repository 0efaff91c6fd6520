//! Laws of the definitions. Each is the contract of a function that does nothing.
ghost use Rattle.std.specs.Prelude.{ℕ, List};
ghost use Rattle.apv_quant.specs.Scale.{StepNumbers};
ghost use Rattle.apv_tile.specs.Laws.{HasDefinedSamples};

/// The samples that a scale of a matrix, a QP and a bit depth gives are those that a frame's
/// samples are defined as.
pub fn samples_of_a_frame()
    ensures { (matrix : List ℕ) (qp depth : ℕ) (scale : StepNumbers)
        → HasDefinedSamples matrix qp depth scale }
{}
