//! What the calls on a component are lent.
ghost use Rattle.apv_base.specs.model.Format.{IsDepth};

use apv_base::Matrix;
use apv_quant::{Scale, Scaling};
use apv_scan::{CodeWords, StepTable};
use std::alloc::{AllocError, Global};

/// The QP of the component.
const QP: u8 = 20;

/// What is made once for a component, and the bit depth of its samples.
#[derive(Drop)]
pub struct Tables {
    pub steps: StepTable,
    pub words: CodeWords,
    pub scaling: Scaling,
    pub scale: Scale,
    pub depth: u8,
    ghost sound: { IsDepth depth },
}

impl Tables {
    /// Makes them, for a flat quantisation matrix and the QP 20. Fails where memory runs out.
    pub fn new(alloc: Global, depth: u8) -> Result<Tables, AllocError>
        requires { IsDepth depth }
    {
        Ok(Tables {
            steps: StepTable::new(alloc)?,
            words: CodeWords::new(alloc)?,
            scaling: Scaling::of(&Matrix::flat(), QP, depth),
            scale: Scale::of(&Matrix::flat(), QP, depth),
            depth,
        })
    }
}
