//! What blocks are written into and read from.

ghost use Rattle.std.specs.Prelude.{◌≡◌, ◌*◌, ◌^◌, ◌<◌, ◌≤◌, length, vec_len};
ghost use Rattle.apv_base.specs.model.Block.{start};
ghost use Rattle.apv_base.specs.model.Component.{component_bits};

use super::blocks::{blocks, count_bits_with, read_blocks, read_blocks_with, write_blocks_with};
use crate::noise::Density;
use apv_scan::{CodeWords, StepTable};
use std::alloc::{AllocError, Global};

/// The maximum number of bytes that blocks may be written into.
const MAX_BYTES: u64 = 1 << 29;

/// Blocks, and bytes that have room for their bits.
#[derive(Drop)]
pub struct Work {
    blocks: Vec<[i16; 64]>,
    bytes: Vec<u8>,
    ghost few: { vec_len blocks < 2 ^ 32 },
    ghost small: { vec_len bytes ≤ 2 ^ 29 },
    ghost room: { length (component_bits start blocks.items) ≤ 8 * vec_len bytes },
}

impl Work {
    /// N blocks, with bytes for them, and none where they have more than 4,294,967,295 bits.
    pub fn new(
        alloc: Global,
        words: &CodeWords,
        count: u32,
        density: Density,
    ) -> Result<Option<Work>, AllocError> {
        let blocks = blocks(alloc, count, density)?;
        let bits = count_bits_with(words, blocks.as_slice());
        if bits >= 8 * MAX_BYTES {
            return Ok(None);
        }
        let bytes = vec![in alloc; 0u8; (bits / 8) as usize + 1]?;
        Ok(Some(Work { blocks, bytes }))
    }

    /// The number of bits of the blocks, by a table of code words.
    pub fn count_with(&self, words: &CodeWords) -> u64
        ensures { result ≡ length (component_bits start self.now.blocks.items) }
    {
        count_bits_with(words, self.blocks.as_slice())
    }

    /// Writes the blocks by a table of code words, and returns the number of bits.
    pub fn write_with(&mut self, words: &CodeWords) -> u64
        ensures { result ≡ length (component_bits start self.old.blocks.items) }
    {
        write_blocks_with(words, self.bytes.as_mut_slice(), self.blocks.as_slice())
    }

    /// Reads as many blocks from the bytes, and sums some of their levels.
    pub fn read(&self) -> u64 {
        read_blocks(self.bytes.as_slice(), self.blocks.len() as u32)
    }

    /// The same by a table.
    pub fn read_with(&self, table: &StepTable) -> u64 {
        read_blocks_with(table, self.bytes.as_slice(), self.blocks.len() as u32)
    }
}
