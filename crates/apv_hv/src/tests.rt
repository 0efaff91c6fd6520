use crate::{Read, decode_h, encode_h, len_h, put_h, read_h};
use apv_bits::{BitReader, BitWriter};

/// A parameter, a value, and its code word as a number and its length.
const WORDS: [(u32, u32, u32, u32); 11] = [
    (0, 0, 0b1, 1),
    (0, 1, 0b00, 2),
    (0, 2, 0b011, 3),
    (0, 3, 0b01010, 5),
    (0, 63, 0b0100000111110, 13),
    (2, 0, 0b100, 3),
    (2, 3, 0b111, 3),
    (2, 4, 0b0000, 4),
    (2, 7, 0b0011, 4),
    (2, 8, 0b01100, 5),
    (2, 12, 0b0101000, 7),
];

/// A parameter, a limit, all bits that are left, as a number and their length, and what is read.
const REFUSED: [(u32, u32, u16, u32, Read); 5] = [
    (5, 65535, 0b01_0000000000, 12, Read::Ends),
    (5, 65535, 0b01_00000000000, 13, Read::Over),
    (5, 65535, 0, 0, Read::Ends),
    (0, 63, 0b0100000111111, 13, Read::Over),
    (0, 63, 0b010000011111, 12, Read::Ends),
];

#[test]
fn words(rt: HostRuntime) {
    for (k, value, bits, length) in WORDS {
        assert!(rt; k <= 5 && value < 65536 && length <= 32);
        assert_eq!(rt; len_h(k, value), length);
        let mut bytes = [0xff; 12];
        let mut writer = BitWriter::new(&mut bytes);
        assert!(rt; u64::from(len_h(k, value)) <= writer.left());
        put_h(&mut writer, k, value);
        assert_eq!(rt; writer.place(), u64::from(length));
        let mut reader = BitReader::new(&bytes);
        assert_eq!(rt; reader.ahead().read(length), Ok(bits));
        let mut window = reader.window().expect(&rt, "eight bytes");
        assert_eq!(rt; decode_h(&mut window, k), Some(value));
        assert_eq!(rt; window.taken(), length);
        assert_eq!(rt; read_h(&mut reader, k, value), Read::Value(value));
        assert_eq!(rt; reader.place(), u64::from(length));
        assert_eq!(rt; encode_h(k, value).bit_len(), length);
    }
}

#[test]
fn refuses(rt: HostRuntime) {
    for (k, limit, bits, length, read) in REFUSED {
        assert!(rt; k <= 5 && limit < 65536 && length <= 16);
        let bytes = bits.to_be_bytes();
        let mut reader = BitReader::new(&bytes);
        assert_eq!(rt; reader.read(16 - length), Ok(0));
        assert_eq!(rt; read_h(&mut reader, k, limit), read);
        assert_eq!(rt; reader.left(), u64::from(length));
    }
}
