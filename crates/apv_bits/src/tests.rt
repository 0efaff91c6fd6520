ghost use Rattle.std.specs.Prelude.{◌^◌, ◌<◌, ◌≤◌};

use crate::{BitReader, BitWriter, Ended, NotZero, Word};
use std::process::Abort;

fn put(rt: &impl Abort, writer: &mut BitWriter<'_>, value: u32, n: u32)
    requires n { n ≤ 32 }
    requires value { value < 2 ^ n }
{
    assert!(rt; u64::from(n) <= writer.left());
    writer.put(value, n);
}

#[test]
fn reads_and_aligns(rt: HostRuntime) {
    let bytes = [0xa0, 0xff, 0, 1, 2, 3, 4, 5, 6, 7];
    let mut reader = BitReader::new(&bytes);
    for (n, value, place) in [(4, 0xa, 4), (1, 0, 5)] {
        assert_eq!(rt; reader.read(n), Ok(value));
        assert_eq!(rt; reader.place(), place);
    }
    assert!(rt; !reader.aligned());
    assert_eq!(rt; reader.align(), Ok(()));
    assert!(rt; reader.aligned());
    assert_eq!(rt; reader.read(3), Ok(7));
    assert_eq!(rt; reader.align(), Err(NotZero));
    assert_eq!(rt; reader.place(), 11);
    assert!(rt; 5 <= reader.left());
    reader.skip(5);
    for (n, value) in [(16, 1), (32, 0x0203_0405), (0, 0), (9, 0xc), (7, 7)] {
        assert_eq!(rt; reader.ahead().read(n), Ok(value));
        assert_eq!(rt; reader.read(n), Ok(value));
    }
    assert_eq!(rt; reader.left(), 0);
    assert_eq!(rt; reader.read(1), Err(Ended));
}

#[test]
fn shows_a_window(rt: HostRuntime) {
    let bytes = [0x12, 0x34, 0x56, 0x78, 0x9a, 0xbc, 0xde, 0xf0, 0x11];
    let mut reader = BitReader::new(&bytes);
    assert!(rt; 12 <= reader.left());
    reader.skip(12);
    let mut window = reader.window().expect(&rt, "eight bytes");
    assert_eq!(rt; window.bits() >> 48, 0x4567);
    for (n, value) in [(8, 0x45), (32, 0x6789_abcd), (16, 0xef01)] {
        assert_eq!(rt; window.read(n), Ok(value));
    }
    assert_eq!(rt; (window.left(), window.taken()), (1, 56));
    assert_eq!(rt; window.read(2), Err(Ended));
    assert!(rt; 12 <= reader.left());
    reader.skip(12);
    assert!(rt; reader.window().is_none());
}

#[test]
fn writes_and_aligns(rt: HostRuntime) {
    let mut bytes = [0xff; 11];
    let mut writer = BitWriter::new(&mut bytes);
    put(&rt, &mut writer, 5, 3);
    let word = Word::new(1, 2).join(Word::new(3, 4));
    assert!(rt; u64::from(word.bit_len()) <= writer.left());
    writer.put_word(word);
    assert_eq!(rt; writer.place(), 9);
    writer.align();
    put(&rt, &mut writer, 0x1234, 16);
    put(&rt, &mut writer, 0xabcd_ef01, 32);
    put(&rt, &mut writer, 0, 0);
    put(&rt, &mut writer, 2, 4);
    assert_eq!(rt; writer.left(), 20);
    assert_eq!(rt;
        bytes,
        [
            0xa9, 0x80, 0x12, 0x34, 0xab, 0xcd, 0xef, 0x01, 0x2f, 0xff, 0xff
        ]
    );
}
