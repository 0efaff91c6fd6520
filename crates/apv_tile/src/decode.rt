//! A component, decoded.
ghost use Rattle.apv_base.specs.model.Component.{IsBlock};
ghost use Rattle.apv_scan.specs.Reading.{ReadsBlock};
ghost use Rattle.apv_tile.specs.Blocks.{CanDecode, DecodesComponent};

use crate::blocks::store;
use apv_base::Rule;
use apv_bits::BitReader;
use apv_quant::{Scale, Scaling};
use apv_scan::{Context, StepTable, read_block, read_block_with};
use apv_transform::inverse;

/// Reads a block, by a table of steps where there is one.
#[inline]
fn read(
    table: Option<&StepTable>,
    reader: &mut BitReader<'_>,
    context: &mut Context,
    levels: &mut [i16; 64],
) -> Result<(), Rule>
    ensures block { IsBlock levels.new }
    ensures read { ReadsBlock (λ rule. rule) context.old reader.old result
        levels.new context.new reader.new }
{
    let outcome = match table {
        Some(table) => read_block_with(table, reader, context, levels),
        None => read_block(reader, context, levels),
    };
    match outcome {
        Ok(()) => Ok(()),
        Err(why) => Err(why.rule()),
    }
}

/// Decodes a component, by a table of steps where there is one.
#[inline(always)]
fn decode(
    table: Option<&StepTable>,
    bytes: &[u8],
    scaling: &Scaling,
    depth: u8,
    samples: &mut [u16],
) -> Result<(), Rule>
    requires { CanDecode depth bytes.now samples.old }
    ensures { DecodesComponent scaling.now depth bytes.now samples.old result samples.new }
{
    let mut reader = BitReader::new(bytes);
    let mut context = Context::start();
    let mut levels = [0; 64];
    for block in 0..samples.len() / 64 {
        read(table, &mut reader, &mut context, &mut levels)?;
        let coeffs = scaling.scale_block(&levels);
        store(samples, block, &inverse(&coeffs, depth));
    }
    match reader.align() {
        Ok(()) => Ok(()),
        Err(_) => Err(Rule::V31),
    }
}

/// Decodes a component of a tile, `tile_data()`, into the samples of as many blocks as the slice
/// has: reads each block, scales its levels and transforms them. After the last block zero bits
/// follow up to a whole byte; bytes after them are not read.
///
/// There are at most 536,870,912 bytes, the bit depth is 10 to 12, and the slice has 64 samples for
/// each block. The refusal is `V27` to `V30` by the first block that isn't whole, and `V31` where
/// all blocks are read and an alignment bit is 1. After a refusal nothing is said of the samples.
pub fn decode_component(
    bytes: &[u8],
    scale: &Scale,
    depth: u8,
    samples: &mut [u16],
) -> Result<(), Rule>
    requires { CanDecode depth bytes.now samples.old }
    ensures { DecodesComponent scale.now depth bytes.now samples.old result samples.new }
{
    decode(None, bytes, scale.scaling(), depth, samples)
}

/// Decodes a component as `decode_component` does, by a table of steps, which takes less time, and
/// by a scaling, which is made in less time than a `Scale`.
pub fn decode_component_with(
    table: &StepTable,
    bytes: &[u8],
    scaling: &Scaling,
    depth: u8,
    samples: &mut [u16],
) -> Result<(), Rule>
    requires { CanDecode depth bytes.now samples.old }
    ensures { DecodesComponent scaling.now depth bytes.now samples.old result samples.new }
{
    decode(Some(table), bytes, scaling, depth, samples)
}
