//! Blocks, scaled and quantised, and what does so, made.
mod pieces;

use crate::plan::Plan;
use apv_base::Matrix;
use apv_quant::Scale;
use pieces::Piece;
use std::io;

/// A matrix with the same value at each place.
fn flat_matrix(value: u8) -> Matrix {
    Matrix::of([value; 64]).unwrap_or(Matrix::flat())
}

/// Measures scaling a block: by step numbers of 16 bits at the shift of 10 bits and at a lesser
/// one, and by step numbers of 32 bits.
fn scale_blocks(rt: &HostRuntime, plan: Plan) -> io::Result<()> {
    let low = Scale::of(&flat_matrix(16), 20, plan.depth());
    let high = Scale::of(&flat_matrix(16), 63, plan.depth());
    let wide = Scale::of(&flat_matrix(255), 63, plan.depth());
    plan.run(rt, "scale_block, narrow steps, QP 20", "block", || {
        Piece::Scale.checksum(&low, plan.rounds)
    })?;
    plan.run(rt, "scale_block, narrow steps, QP 63", "block", || {
        Piece::Scale.checksum(&high, plan.rounds)
    })?;
    plan.run(rt, "scale_block, wide steps", "block", || {
        Piece::Scale.checksum(&wide, plan.rounds)
    })
}

/// Measures quantising a block: by reciprocals of 32 bits, and by those of 64 bits, which step
/// numbers above 16 bits and very small ones need.
fn quantise_blocks(rt: &HostRuntime, plan: Plan) -> io::Result<()> {
    let narrow = Scale::of(&flat_matrix(16), 20, plan.depth());
    let wide = Scale::of(&flat_matrix(255), 63, plan.depth());
    let small = Scale::of(&flat_matrix(1), 0, plan.depth());
    plan.run(rt, "quantise_block, narrow steps", "block", || {
        Piece::Quantise.checksum(&narrow, plan.rounds)
    })?;
    plan.run(rt, "quantise_block, wide steps", "block", || {
        Piece::Quantise.checksum(&wide, plan.rounds)
    })?;
    plan.run(rt, "quantise_block, small steps", "block", || {
        Piece::Quantise.checksum(&small, plan.rounds)
    })
}

/// Measures a block in each call, and a `Scale` and a `Scaling` that are made.
pub fn run(rt: &HostRuntime, plan: Plan) -> io::Result<()> {
    println!(rt; "quant")?;
    scale_blocks(rt, plan)?;
    quantise_blocks(rt, plan)?;
    plan.run(rt, "Scale::of", "scale", || {
        pieces::make_scales(&Matrix::flat(), plan.rounds, plan.depth())
    })?;
    plan.run(rt, "Scaling::of", "scaling", || {
        pieces::make_scalings(&Matrix::flat(), plan.rounds, plan.depth())
    })
}
