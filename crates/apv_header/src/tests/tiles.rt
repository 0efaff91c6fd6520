ghost use Rattle.std.specs.Prelude.{◌<◌};

use super::INFO;
use crate::put_tile_header;
use crate::tiles::{TileEntry, read_tile};
use apv_base::Rule;

/// A tile with a tile header and eight bytes of data, after a header of 20 bytes.
const BODY: [u8; 42] = [
    0, 0, 0, 0, 0, 0, 0, 0, 0, 0, 0, 0, 0, 0, 0, 0, 0, 0, 0, 0, 0, 0, 0, 0x12, 0, 0x0a, 0, 0, 0, 0,
    0, 8, 0, 0, 0x81, 0x07, 0xd4, 0x1f, 0x50, 0x7d, 0x41, 0xf0,
];

/// The first tile of the body with another byte at one place and a stated size, in a frame of one component of 10 bits.
fn read_with(
    body: &[u8; 42],
    place: usize,
    byte: u8,
    stated: Option<u32>,
) -> Result<TileEntry, Rule>
    requires { place < 42 }
{
    let mut bytes = *body;
    bytes[place] = byte;
    read_tile(&bytes, 20, 0, stated, &INFO)
}

#[test]
fn reads_a_tile(rt: HostRuntime) {
    for stated in [None, Some(18)] {
        let Ok(entry) = read_with(&BODY, 23, 0x12, stated) else {
            panic!(rt; "the tile breaks no rule");
        };
        assert_eq!(rt; (entry.place, entry.size), (24, 18));
        assert_eq!(rt; (entry.lengths[0], entry.qp[0]), (8, 0));
    }
}

#[test]
fn names_the_rule(rt: HostRuntime) {
    for (place, byte, rule) in [
        (23, 0x13, Rule::V20),
        (23, 0x09, Rule::V20),
        (25, 0x0b, Rule::V21),
        (27, 1, Rule::V21),
        (31, 9, Rule::V24),
        (32, 0x40, Rule::V22),
        (33, 1, Rule::V14),
    ] {
        assert!(rt; place < 42);
        assert_eq!(rt; read_with(&BODY, place, byte, None), Err(rule));
    }
    assert_eq!(rt; read_with(&BODY, 23, 0x12, Some(0x13)), Err(Rule::V18));
    let mut body = BODY;
    body[31] = 9;
    assert_eq!(rt; read_with(&body, 32, 0x40, None), Err(Rule::V24));
}

#[test]
fn writes_tile_headers(rt: HostRuntime) {
    let mut grey = [0xff; 10];
    put_tile_header(0, &[8], &[0], &mut grey);
    assert_eq!(rt; grey[..], BODY[24..34]);
    let mut header = [0xff; 20];
    put_tile_header(
        0x0102,
        &[0x0304_0506, 7, 0x0800_0009],
        &[20, 21, 22],
        &mut header,
    );
    assert_eq!(rt;
        header,
        [
            0, 20, 1, 2, 3, 4, 5, 6, 0, 0, 0, 7, 8, 0, 0, 9, 20, 21, 22, 0
        ]
    );
}
