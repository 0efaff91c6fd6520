//! The pieces of work that are timed.
ghost use Rattle.apv_base.specs.model.Format.{IsDepth};

use apv_base::Matrix;
use apv_quant::{Scale, Scaling};

/// What is done with a block.
#[derive(Clone, Copy)]
pub enum Piece {
    Scale,
    Quantise,
}

impl Piece {
    /// Takes a block through the piece; out of line, so that the whole result is made.
    #[inline(never)]
    fn apply(self, scale: &Scale, block: &[i16; 64]) -> [i16; 64] {
        match self {
            Piece::Scale => scale.scale_block(block),
            Piece::Quantise => scale.quantise_block(block),
        }
    }

    /// Takes `rounds` blocks through the piece, one of 16 in turn, and sums one value of each result.
    pub fn checksum(self, scale: &Scale, rounds: u32) -> u64 {
        let blocks = blocks();
        let mut sum = 0u64;
        for round in 0..rounds {
            let done = self.apply(scale, &blocks[(round % 16) as usize]);
            sum = added(sum, done[(round % 61) as usize]);
        }
        sum
    }
}

/// Makes the scale of an encoder `rounds` times, at the QPs 0 to 63 in turn, and sums one scaled level of each.
#[inline(never)]
pub fn make_scales(matrix: &Matrix, rounds: u32, depth: u8) -> u64
    requires { IsDepth depth }
{
    let mut sum = 0u64;
    for round in 0..rounds {
        let scale = Scale::of(matrix, (round % 64) as u8, depth);
        sum = added(sum, scale.scaled(9, (round % 61) as u8));
    }
    sum
}

/// Makes the scaling of a decoder as often, with the same sum.
#[inline(never)]
pub fn make_scalings(matrix: &Matrix, rounds: u32, depth: u8) -> u64
    requires { IsDepth depth }
{
    let mut sum = 0u64;
    for round in 0..rounds {
        let scaling = Scaling::of(matrix, (round % 64) as u8, depth);
        sum = added(sum, scaling.scaled(9, (round % 61) as u8));
    }
    sum
}

/// Sixteen blocks of values of both signs.
fn blocks() -> [[i16; 64]; 16] {
    let mut blocks = [[0i16; 64]; 16];
    for index in 0..16u32 {
        for place in 0..64u32 {
            let value = (place * 1237 + index * 777) % 4001;
            blocks[index as usize][place as usize] = value as i16 - 2000;
        }
    }
    blocks
}

/// The sum of a number and a value, modulo 2^64.
fn added(sum: u64, value: i16) -> u64 {
    sum.wrapping_add_signed(i64::from(value))
}
