//! Quantisation matrices.
ghost use Rattle.std.specs.Prelude.{◌≡◌, ℕ, ◌<◌, List, length, replicate, slice_index, SomeIff, IsSome};
ghost use Rattle.apv_base.specs.model.Quant.{IsMatrix};

use std::marker::Model;

/// A quantisation matrix, `q_matrix`: 64 values of 1 to 255, row after row.
#[derive(Clone, Copy, Debug, PartialEq, Eq)]
pub struct Matrix {
    values: [u8; 64],
}

impl Model for Matrix {
    ghost Value = { List ℕ };

    ghost view = { λ m. m.values };

    ghost invariant = { λ m. IsMatrix m.values };

    ghost inverse = { λ values. record { values = values } };
}

impl Matrix {
    /// The matrix of these values, row after row, and none exactly where one of them is 0.
    pub fn of(values: [u8; 64]) -> Option<Matrix>
        ensures { SomeIff result (IsMatrix values) values }
    {
        if values.iter().all(|value| *value != 0) {
            Some(Matrix { values })
        } else {
            None
        }
    }

    /// The matrix with 16 everywhere, which is taken where a frame has none.
    pub fn flat() -> Matrix
        ensures { result ≡ replicate 64 16 }
    {
        Matrix { values: [16; 64] }
    }

    /// The value at a place, `8 * row + column`. All values are 1 to 255.
    pub fn at(&self, place: u8) -> u8
        requires { place < 64 }
        ensures value { result ≡ slice_index self.now place }
        ensures matrix { IsMatrix self.now }
    {
        self.values[place as usize]
    }
}
