//! A component, counted and written.
ghost use Rattle.std.specs.Prelude.{◌≡◌, ◌%◌, ◌^◌, ◌≤◌, length};
ghost use Rattle.apv_base.specs.model.Block.{start};
ghost use Rattle.apv_base.specs.model.Component.{component_bits, component_bytes};
ghost use Rattle.apv_base.specs.model.Run.{MAX_UNIT};
ghost use Rattle.apv_bits.specs.Writer.{bits_after, slice_name, Appends};
ghost use Rattle.apv_scan.specs.Writing.{HasRoomForBlock, AppendsBlock, CountsBlock};
ghost use Rattle.apv_tile.specs.Blocks.{blocks_of, CountsComponent};

use apv_bits::BitWriter;
use apv_scan::{CodeWords, Context, len_block, len_block_with, put_block, put_block_with};

/// The number of bits of a block, by code words that were made before where there are some.
#[inline]
fn count(words: Option<&CodeWords>, context: &mut Context, levels: &[i16; 64]) -> u32
    ensures { CountsBlock context.old levels.now result context.new }
{
    match words {
        Some(words) => len_block_with(words, context, levels),
        None => len_block(context, levels),
    }
}

/// Appends a block, by code words that were made before where there are some.
#[inline]
fn put(
    words: Option<&CodeWords>,
    writer: &mut BitWriter<'_>,
    context: &mut Context,
    levels: &[i16; 64],
)
    requires { HasRoomForBlock writer.old context.old levels.now }
    ensures { AppendsBlock context.old writer.old levels.now context.new writer.new }
{
    match words {
        Some(words) => put_block_with(words, writer, context, levels),
        None => put_block(writer, context, levels),
    }
}

/// The number of bytes of a component, by code words that were made before where there are some.
#[inline(always)]
fn count_bytes(words: Option<&CodeWords>, levels: &[i16]) -> u64
    requires { length levels.now ≤ 2 ^ 26 }
    ensures { CountsComponent levels.now result }
{
    let mut context = Context::start();
    let mut bits = 0;
    let (blocks, _) = levels.as_chunks::<64>();
    for block in blocks {
        bits += u64::from(count(words, &mut context, block));
    }
    bits.div_ceil(8)
}

/// Appends blocks, by code words that were made before where there are some.
#[inline]
fn put_blocks(words: Option<&CodeWords>, writer: &mut BitWriter<'_>, blocks: &[[i16; 64]])
    requires { length (component_bits start blocks.now) ≤ length (bits_after writer.old) }
    ensures appends { Appends writer.old writer.new (component_bits start blocks.now) }
    ensures slice { slice_name writer.new ≡ slice_name writer.old }
{
    let mut context = Context::start();
    for block in blocks {
        put(words, writer, &mut context, block);
    }
}

/// Writes a component, by code words that were made before where there are some.
#[inline(always)]
fn put_bytes(words: Option<&CodeWords>, levels: &[i16], out: &mut [u8])
    requires bytes { length out.old ≤ MAX_UNIT }
    requires room { length out.old ≡ length (component_bytes (blocks_of levels.now)) }
    ensures { out.new ≡ component_bytes (blocks_of levels.now) }
{
    let (blocks, _) = levels.as_chunks::<64>();
    let mut writer = BitWriter::new(out);
    put_blocks(words, &mut writer, blocks);
    writer.align();
}

/// The number of bytes of a component of a tile, given as the levels of its blocks: of the bits of
/// each block, and of zeros up to a whole byte. There are at most 67,108,864 levels. A block has at
/// most 376 bytes.
pub fn len_component(levels: &[i16]) -> u64
    requires whole { length levels.now % 64 ≡ 0 }
    requires few { length levels.now ≤ 67108864 }
    ensures { CountsComponent levels.now result }
{
    count_bytes(None, levels)
}

/// The number of bytes of a component, as `len_component` counts them, by code words that were made
/// before.
pub fn len_component_with(words: &CodeWords, levels: &[i16]) -> u64
    requires whole { length levels.now % 64 ≡ 0 }
    requires few { length levels.now ≤ 67108864 }
    ensures { CountsComponent levels.now result }
{
    count_bytes(Some(words), levels)
}

/// Writes a component of a tile, given as the levels of its blocks: the bits of each block, and
/// zeros up to a whole byte. The output has just room for its bytes, whatever it held before.
pub fn put_component(levels: &[i16], out: &mut [u8])
    requires whole { length levels.now % 64 ≡ 0 }
    requires bytes { length out.old ≤ MAX_UNIT }
    requires room { length out.old ≡ length (component_bytes (blocks_of levels.now)) }
    ensures { out.new ≡ component_bytes (blocks_of levels.now) }
{
    put_bytes(None, levels, out)
}

/// Writes a component as `put_component` does, by code words that were made before, which takes
/// less time.
pub fn put_component_with(words: &CodeWords, levels: &[i16], out: &mut [u8])
    requires whole { length levels.now % 64 ≡ 0 }
    requires bytes { length out.old ≤ MAX_UNIT }
    requires room { length out.old ≡ length (component_bytes (blocks_of levels.now)) }
    ensures { out.new ≡ component_bytes (blocks_of levels.now) }
{
    put_bytes(Some(words), levels, out)
}
