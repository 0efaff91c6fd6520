//! Blocks with their bits.

use crate::{Context, SCAN};
use apv_bits::BitReader;

/// A block, its bits, and the context that it leaves.
#[derive(Clone, Copy)]
pub struct Row {
    /// Whether it is its component's first block; else it comes after the one of the row before.
    pub is_first: bool,
    /// Its first level.
    pub dc: i16,
    /// The scan place of its only other level that isn't 0, and that level.
    pub other: (usize, i16),
    /// Its bits; blanks divide the code words.
    pub bits: &'static str,
    /// The context that it leaves: `PrevDC`, `PrevDcDiff` and `Prev1stAcLevel`.
    pub after: (i32, u32, u32),
}

impl Row {
    /// Its levels.
    pub fn levels(&self) -> [i16; 64] {
        let mut levels = [0; 64];
        levels[0] = self.dc;
        levels[usize::from(SCAN[self.other.0 % 64]) % 64] = self.other.1;
        levels
    }

    /// The context before it, where the row before left this one.
    pub fn context(&self, left: Context) -> Context {
        if self.is_first {
            Context::start()
        } else {
            left
        }
    }
}

/// Blocks of a component, one after another, and of others.
pub const ROWS: [Row; 5] = [
    Row {
        is_first: true,
        dc: 0,
        other: (63, 1),
        bits: "100000 0100000111101 1 0",
        after: (0, 0, 1),
    },
    Row {
        is_first: true,
        dc: 0,
        other: (62, 1),
        bits: "100000 0100000111100 1 0 101",
        after: (0, 0, 1),
    },
    Row {
        is_first: false,
        dc: 0,
        other: (1, 0),
        bits: "1 0100000111110",
        after: (0, 0, 1),
    },
    Row {
        is_first: true,
        dc: -32768,
        other: (1, 0),
        bits: "01 000000000 1 11111111100000 1 0100000111110",
        after: (-32768, 32768, 0),
    },
    Row {
        is_first: false,
        dc: 32767,
        other: (1, 0),
        bits: "01 0000000000 1 111111111011111 0 0100000111110",
        after: (32767, 65535, 0),
    },
];

/// The three numbers of a context.
pub fn numbers(context: Context) -> (i32, u32, u32) {
    (context.dc, context.diff, context.first)
}

/// Whether a reader's next bits are those of a text.
pub fn begins_with(reader: &mut BitReader<'_>, text: &str) -> bool {
    text.bytes().filter(|character| *character != b' ').all(|character| reader.read(1)
        == Ok(u32::from(character == b'1')))
}

/// A value that threads may share.
pub fn shared<T: Sync>(value: &T) -> &T {
    value
}
