//! Blocks, counted and written by tables of code words.

use super::rows::{ROWS, begins_with, numbers, shared};
use crate::{CodeWords, Context, len_block_with, put_block_with};
use apv_bits::{BitReader, BitWriter};

/// The maximum and the minimum level that the tables of code words have, levels that they don't
/// have, and the bits of a component's first block with that level at scan place 1 and no other.
const LARGE: [(i16, &str); 5] = [
    (63, "100000 1 0100000111101 0 0100000111101"),
    (64, "100000 1 0100000111110 0 0100000111101"),
    (-64, "100000 1 0100000111110 1 0100000111101"),
    (-65, "100000 1 0100000111111 1 0100000111101"),
    (
        -32768,
        "100000 1 0100000000000000111111111111110 1 0100000111101",
    ),
];

/// The context that a block leaves; none unless the block, counted and written by tables of code
/// words, has these bits.
fn written_with(
    words: &CodeWords,
    before: Context,
    levels: &[i16; 64],
    bits: &str,
) -> Option<Context> {
    let mut counted = before;
    let count = u64::from(len_block_with(words, &mut counted, levels));
    let mut bytes = [0xff; 24];
    let mut writer = BitWriter::new(&mut bytes);
    if count > writer.left() {
        return None;
    }
    let mut written = before;
    put_block_with(words, &mut writer, &mut written, levels);
    let place = writer.place();
    let mut reader = BitReader::new(&bytes);
    if begins_with(&mut reader, bits)
        && reader.place() == place
        && count == place
        && counted == written
    {
        return Some(written);
    }
    None
}

#[test]
fn writes_blocks_by_tables(rt: HostRuntime) {
    let Ok(words) = CodeWords::new(rt.alloc()) else {
        return;
    };
    let words = shared(&words);
    let mut context = Context::start();
    for row in ROWS {
        let levels = row.levels();
        let before = row.context(context);
        let Some(after) = written_with(words, before, &levels, row.bits) else {
            assert!(rt; false, "{}", row.bits);
            return;
        };
        assert_eq!(rt; numbers(after), row.after);
        context = after;
    }
}

#[test]
fn writes_large_levels_by_tables(rt: HostRuntime) {
    let Ok(words) = CodeWords::new(rt.alloc()) else {
        return;
    };
    for (level, bits) in LARGE {
        let mut levels = [0; 64];
        levels[1] = level;
        let Some(after) = written_with(&words, Context::start(), &levels, bits) else {
            assert!(rt; false, "{bits}");
            return;
        };
        assert_eq!(rt; after.first, u32::from(level.unsigned_abs()));
    }
}
