//! A component of a tile, and room for what is made of it.
ghost use Rattle.std.specs.Prelude.{◌≡◌, ◌%◌, ◌^◌, ◌≤◌, length, vec_len};
ghost use Rattle.apv_base.specs.model.Component.{component_bytes};
ghost use Rattle.apv_base.specs.model.Run.{MAX_UNIT};
ghost use Rattle.apv_tile.specs.Blocks.{blocks_of};

use super::sums::{sum_of_levels, sum_of_samples};
use super::tables::Tables;
use crate::noise::{Density, Noise};
use apv_tile::{
    decode_component_with, len_component, len_component_with, put_component_with,
    quantise_component, rebuild_component,
};
use std::alloc::{AllocError, Global};

/// The levels of n blocks.
fn levels(alloc: Global, count: u32, density: Density) -> Result<Vec<i16>, AllocError> {
    let mut noise = Noise::start();
    let mut levels = Vec::new(alloc);
    for _ in 0..count {
        levels.extend_from_slice(&noise.block(density))?;
    }
    Ok(levels)
}

/// Fills a slice with coefficients of about the size that the levels stand for at the QP 20.
fn fill_coefficients(coeffs: &mut [i16], levels: &[i16])
    ensures { length coeffs.new ≡ length coeffs.old }
{
    for (coeff, level) in coeffs.iter_mut().zip(levels) {
        *coeff = level.wrapping_mul(26);
    }
}

/// A component: its levels, its bytes and its coefficients, and room for other levels and for its
/// samples.
#[derive(Drop)]
pub struct Work {
    levels: Vec<i16>,
    bytes: Vec<u8>,
    coeffs: Vec<i16>,
    others: Vec<i16>,
    samples: Vec<u16>,
    ghost whole: { vec_len levels % 64 ≡ 0 },
    ghost few: { vec_len levels ≤ 2 ^ 26 },
    ghost small: { vec_len bytes ≤ MAX_UNIT },
    ghost room: { vec_len bytes ≡ length (component_bytes (blocks_of levels.items)) },
    ghost coeffs_too: { vec_len coeffs ≡ vec_len levels },
    ghost others_too: { vec_len others ≡ vec_len levels },
    ghost samples_too: { vec_len samples ≡ vec_len levels },
}

impl Work {
    /// A component of n blocks, and none where it has more than 67,108,864 levels or 536,870,912
    /// bytes.
    pub fn new(alloc: Global, count: u32, density: Density) -> Result<Option<Work>, AllocError> {
        let levels = levels(alloc, count, density)?;
        let len = levels.len();
        if len % 64 != 0 || len > 1 << 26 {
            return Ok(None);
        }
        let bytes = len_component(levels.as_slice());
        if bytes > 1 << 29 {
            return Ok(None);
        }
        let bytes = vec![in alloc; 0u8; bytes as usize]?;
        let mut coeffs = vec![in alloc; 0i16; len]?;
        fill_coefficients(coeffs.as_mut_slice(), levels.as_slice());
        let others = vec![in alloc; 0i16; len]?;
        let samples = vec![in alloc; 0u16; len]?;
        Ok(Some(Work {
            levels,
            bytes,
            coeffs,
            others,
            samples,
        }))
    }

    /// Finds the levels of its coefficients, and returns a checksum of them.
    pub fn quantise(&mut self, tables: &Tables) -> u64 {
        quantise_component(
            self.coeffs.as_slice(),
            &tables.scale,
            self.others.as_mut_slice(),
        );
        sum_of_levels(self.others.as_slice())
    }

    /// The number of bytes of the component, by a table of code words.
    pub fn count_with(&self, tables: &Tables) -> u64 {
        len_component_with(&tables.words, self.levels.as_slice())
    }

    /// Writes the component by a table of code words, and returns the number of bytes.
    pub fn write_with(&mut self, tables: &Tables) -> u64 {
        put_component_with(
            &tables.words,
            self.levels.as_slice(),
            self.bytes.as_mut_slice(),
        );
        self.bytes.len() as u64
    }

    /// Decodes the component by a table of steps, and returns a checksum of its samples.
    pub fn decode_with(&mut self, tables: &Tables) -> u64 {
        let answer = decode_component_with(
            &tables.steps,
            self.bytes.as_slice(),
            &tables.scaling,
            tables.depth,
            self.samples.as_mut_slice(),
        );
        if answer.is_err() {
            return 0;
        }
        sum_of_samples(self.samples.as_slice())
    }

    /// Rebuilds the samples from the levels, and returns a checksum of them.
    pub fn rebuild(&mut self, tables: &Tables) -> u64 {
        rebuild_component(
            self.levels.as_slice(),
            &tables.scale,
            tables.depth,
            self.samples.as_mut_slice(),
        );
        sum_of_samples(self.samples.as_slice())
    }
}
