//! The blocks of a component, transformed, quantised and rebuilt.
ghost use Rattle.std.specs.Prelude.{◌≡◌, ℕ, ◌%◌, ◌/◌, ◌^◌, ◌<◌, length, slice_index};
ghost use Rattle.apv_base.specs.model.Format.{IsDepth};
ghost use Rattle.apv_quant.specs.Scale.{AreNearest};
ghost use Rattle.apv_tile.specs.Blocks.{block_at, AreSamplesOfLevels};
ghost use Rattle.apv_transform.specs.Sample.{AreCoefficientsOf};

use crate::blocks::store;
use apv_quant::Scale;
use apv_transform::{forward, inverse};

/// Transforms the samples of a component of a tile to coefficients, each block by itself: the
/// coefficients of a block are those that `apv_transform::forward` finds.
///
/// The bit depth is 10 to 12, and each sample is below `2 ^ depth`. Both slices have the same
/// length, 64 values for each block.
pub fn transform_component(samples: &[u16], depth: u8, coeffs: &mut [i16])
    requires depth { IsDepth depth }
    requires whole { length samples.now % 64 ≡ 0 }
    requires same { length coeffs.old ≡ length samples.now }
    requires samples { (place : ℕ) → place < length samples.now
        → slice_index samples.now place < 2 ^ depth }
    ensures { (block : ℕ) → block < length samples.now / 64
        → AreCoefficientsOf depth (block_at samples.now block) (block_at coeffs.new block) }
{
    let (blocks, _) = samples.as_chunks::<64>();
    for (block, of_block) in blocks.iter().enumerate() {
        store(coeffs, block, &forward(of_block, depth));
    }
}

/// Finds the levels that are nearest to the coefficients of a component of a tile, each block by
/// itself. Both slices have the same length, 64 values for each block.
pub fn quantise_component(coeffs: &[i16], scale: &Scale, levels: &mut [i16])
    requires whole { length coeffs.now % 64 ≡ 0 }
    requires same { length levels.old ≡ length coeffs.now }
    ensures { (block : ℕ) → block < length coeffs.now / 64
        → AreNearest scale.now.steps scale.now.shift
        (block_at coeffs.now block) (block_at levels.new block) }
{
    let (blocks, _) = coeffs.as_chunks::<64>();
    for (block, of_block) in blocks.iter().enumerate() {
        store(levels, block, &scale.quantise_block(of_block));
    }
}

/// Rebuilds the samples of a component of a tile from its levels, each block by itself: those that
/// a decoder makes of them. The bit depth is 10 to 12. Both slices have the same length, 64 values
/// for each block.
pub fn rebuild_component(levels: &[i16], scale: &Scale, depth: u8, samples: &mut [u16])
    requires depth { IsDepth depth }
    requires whole { length levels.now % 64 ≡ 0 }
    requires same { length samples.old ≡ length levels.now }
    ensures { (block : ℕ) → block < length levels.now / 64
        → AreSamplesOfLevels scale.now depth
        (block_at levels.now block) (block_at samples.new block) }
{
    let (blocks, _) = levels.as_chunks::<64>();
    for (block, of_block) in blocks.iter().enumerate() {
        let coeffs = scale.scale_block(of_block);
        store(samples, block, &inverse(&coeffs, depth));
    }
}
