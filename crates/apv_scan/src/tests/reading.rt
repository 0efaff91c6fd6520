//! Blocks, counted, written and read.

use super::rows::{ROWS, begins_with, numbers, shared};
use crate::{Context, StepTable, len_block, put_block, read_block, read_block_with};
use apv_bits::{BitReader, BitWriter};
use std::test::Fail;

#[test]
fn reads_and_writes_blocks(rt: HostRuntime) -> Result<(), Fail> {
    let table = StepTable::new(rt.alloc())?;
    let table = shared(&table);
    let mut context = Context::start();
    for row in ROWS {
        let levels = row.levels();
        let before = row.context(context);
        let mut counted = before;
        let bits = len_block(&mut counted, &levels);
        let mut bytes = [0xff; 24];
        let mut writer = BitWriter::new(&mut bytes);
        assert!(rt; u64::from(bits) <= writer.left());
        let mut written = before;
        put_block(&mut writer, &mut written, &levels);
        assert_eq!(rt; writer.place(), u64::from(bits));
        let mut reader = BitReader::new(&bytes);
        assert!(rt; begins_with(&mut reader.ahead(), row.bits), "{}", row.bits);
        let mut read = [1; 64];
        context = before;
        assert_eq!(rt; read_block(&mut reader, &mut context, &mut read), Ok(()));
        assert_eq!(rt; reader.place(), u64::from(bits));
        assert_eq!(rt; read, levels);
        assert_eq!(rt; [counted, written], [context; 2]);
        assert_eq!(rt; numbers(context), row.after);
        let mut reader = BitReader::new(&bytes);
        let mut read = [1; 64];
        context = before;
        assert_eq!(rt;
            read_block_with(table, &mut reader, &mut context, &mut read),
            Ok(())
        );
        assert_eq!(rt; reader.place(), u64::from(bits));
        assert_eq!(rt; read, levels);
        assert_eq!(rt; numbers(context), row.after);
    }
    Ok(())
}
