//! Bits that break in a block.
ghost use Rattle.std.specs.Prelude.{◌≤◌};

use crate::{BlockBreak, Context, StepTable, read_block, read_block_with};
use apv_bits::{BitReader, BitWriter};
use std::test::Fail;

/// Bits of a component, how many whole blocks they begin with, and why the next block isn't whole.
const BREAKS: [(&str, u32, BlockBreak); 4] = [
    ("", 0, BlockBreak::Ends),
    ("01 00000000000", 0, BlockBreak::Over),
    ("100000 1 1 0 0100000111110", 0, BlockBreak::Run),
    (
        "01 000000000 1 11111111100000 1 0100000111110 \
         01 0000000000 1 111111111011111 0 0100000111110 \
         01 0000000000 1 111111111011111 0",
        2,
        BlockBreak::Level,
    ),
];

/// The bits of a text as bytes, with zeros after them, and the number of bytes that the bits reach.
fn bytes_of(text: &str) -> ([u8; 24], usize)
    ensures { result.1 ≤ 24 }
{
    let mut bytes = [0; 24];
    let mut writer = BitWriter::new(&mut bytes);
    for character in text.bytes() {
        if character != b' ' && writer.left() > 0 {
            writer.put(u32::from(character == b'1'), 1);
        }
    }
    let end = writer.place().div_ceil(8) as usize;
    (bytes, end.min(24))
}

#[test]
fn finds_breaks(rt: HostRuntime) -> Result<(), Fail> {
    let table = StepTable::new(rt.alloc())?;
    for (text, whole, why) in BREAKS {
        let (bytes, end) = bytes_of(text);
        let mut reader = BitReader::new(&bytes[..end]);
        let mut context = Context::start();
        let mut levels = [0; 64];
        for _ in 0..whole {
            assert_eq!(rt; read_block(&mut reader, &mut context, &mut levels), Ok(()));
        }
        let after = context;
        let mut ahead = reader.ahead();
        assert_eq!(rt;
            read_block(&mut reader, &mut context, &mut levels),
            Err(why),
            "{text}"
        );
        assert_eq!(rt; context, after);
        assert_eq!(rt;
            read_block_with(&table, &mut ahead, &mut context, &mut levels),
            Err(why),
            "{text}"
        );
        assert_eq!(rt; context, after);
    }
    Ok(())
}
