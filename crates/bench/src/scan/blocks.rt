//! Blocks, made, counted, written and read.

ghost use Rattle.std.specs.Prelude.{◌≡◌, ◌*◌, ◌^◌, ◌<◌, ◌≤◌, length, vec_len, IfOk};
ghost use Rattle.apv_base.specs.model.Block.{start};
ghost use Rattle.apv_base.specs.model.Component.{component_bits};

use crate::noise::{Density, Noise};
use apv_bits::{BitReader, BitWriter};
use apv_scan::{
    CodeWords, Context, StepTable, len_block_with, put_block_with, read_block, read_block_with,
};
use std::alloc::{AllocError, Global};

/// N blocks.
pub fn blocks(alloc: Global, count: u32, density: Density) -> Result<Vec<[i16; 64]>, AllocError>
    ensures { IfOk result (λ blocks. vec_len blocks < 2 ^ 32) }
{
    let mut noise = Noise::start();
    let mut blocks = Vec::new(alloc);
    for _ in 0..count {
        blocks.push(noise.block(density))?;
    }
    Ok(blocks)
}

/// The number of bits of blocks, counted by a table of code words.
#[inline(never)]
pub fn count_bits_with(words: &CodeWords, blocks: &[[i16; 64]]) -> u64
    requires { length blocks.now < 2 ^ 32 }
    ensures { result ≡ length (component_bits start blocks.now) }
{
    let mut context = Context::start();
    let mut bits = 0;
    for levels in blocks {
        bits += u64::from(len_block_with(words, &mut context, levels));
    }
    bits
}

/// Writes blocks by a table of code words, and returns the number of bits.
#[inline(never)]
pub fn write_blocks_with(words: &CodeWords, bytes: &mut [u8], blocks: &[[i16; 64]]) -> u64
    requires bytes { length bytes.old ≤ 2 ^ 29 }
    requires room { length (component_bits start blocks.now) ≤ 8 * length bytes.old }
    ensures { result ≡ length (component_bits start blocks.now) }
{
    let mut writer = BitWriter::new(bytes);
    let mut context = Context::start();
    for levels in blocks {
        put_block_with(words, &mut writer, &mut context, levels);
    }
    writer.place()
}

/// Reads n blocks, and sums some of their levels.
#[inline(never)]
pub fn read_blocks(bytes: &[u8], count: u32) -> u64
    requires { length bytes.now ≤ 2 ^ 29 }
{
    let mut reader = BitReader::new(bytes);
    let mut context = Context::start();
    let mut levels = [0; 64];
    let mut sum: u64 = 0;
    for round in 0..count {
        if read_block(&mut reader, &mut context, &mut levels).is_err() {
            break;
        }
        let level = levels[(round % 64) as usize].unsigned_abs();
        sum = sum.wrapping_mul(31).wrapping_add(u64::from(level));
    }
    sum
}

/// Reads n blocks by a table, and sums some of their levels.
#[inline(never)]
pub fn read_blocks_with(table: &StepTable, bytes: &[u8], count: u32) -> u64
    requires { length bytes.now ≤ 2 ^ 29 }
{
    let mut reader = BitReader::new(bytes);
    let mut context = Context::start();
    let mut levels = [0; 64];
    let mut sum: u64 = 0;
    for round in 0..count {
        if read_block_with(table, &mut reader, &mut context, &mut levels).is_err() {
            break;
        }
        let level = levels[(round % 64) as usize].unsigned_abs();
        sum = sum.wrapping_mul(31).wrapping_add(u64::from(level));
    }
    sum
}
