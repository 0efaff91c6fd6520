ghost use Rattle.std.specs.Prelude.{◌^◌, ◌≤◌, length};
ghost use Rattle.apv_base.specs.model.Run.{MAX_UNIT};

use super::INFO;
use crate::{HeadEnd, read_frame_header, read_frame_info};
use apv_base::{Colour, Matrix, Rule};
use apv_bits::BitReader;

/// 16x16 samples in 4:0:0 and 10 bits, in one tile.
const HEADER: [u8; 20] = [
    0x63, 0x7b, 0, 0, 0, 0x10, 0, 0, 0x10, 0x02, 0, 0, 0, 0, 0, 0x40, 0, 0x04, 0, 0,
];

fn end_of(body: &[u8]) -> Option<HeadEnd>
    requires { length body.now ≤ MAX_UNIT }
{
    match read_frame_header(body) {
        Ok(_) => None,
        Err(end) => Some(end),
    }
}

#[test]
fn reads_frame_info(rt: HostRuntime) {
    let mut reader = BitReader::new(&HEADER);
    assert_eq!(rt; read_frame_info(&mut reader), Ok(INFO));
    assert_eq!(rt; reader.place(), 96);
}

#[test]
fn reads_a_plain_header(rt: HostRuntime) {
    let head = read_frame_header(&HEADER).expect(&rt, "a header");
    assert_eq!(rt; head.header.info, INFO);
    assert!(rt; head.header.colour.is_none());
    assert!(rt; !head.header.use_matrix);
    assert_eq!(rt; head.header.matrices, [Matrix::flat(); 4]);
    assert_eq!(rt; (head.header.tile_width, head.header.tile_height), (16, 16));
    assert!(rt; !head.header.sizes_present);
    assert!(rt; head.sizes.is_empty());
    assert_eq!(rt; (head.len, head.grid.tiles()), (20, 1));
}

#[test]
fn reads_what_is_announced(rt: HostRuntime) {
    let mut body = [0; 23];
    body[..13].copy_from_slice(&HEADER[..13]);
    body[13..].copy_from_slice(&[0x84, 0x88, 0x04, 0xc0, 0, 0x20, 0, 0x01, 0, 0]);
    let head = read_frame_header(&body).expect(&rt, "a colour description");
    let colour = Colour {
        primaries: 9,
        transfer: 16,
        matrix: 9,
        full_range: true,
    };
    assert_eq!(rt; head.header.colour, Some(colour));
    assert_eq!(rt;
        (head.header.tile_width, head.header.tile_height, head.len),
        (16, 8, 23)
    );

    let mut body = [0x40; 84];
    body[..13].copy_from_slice(&HEADER[..13]);
    body[77..].copy_from_slice(&[0x40, 0, 0x40, 0, 0x04, 0, 0]);
    let head = read_frame_header(&body).expect(&rt, "a matrix");
    assert!(rt; head.header.use_matrix);
    let ones = Matrix::of([1; 64]).expect(&rt, "a matrix of ones");
    let flat = Matrix::flat();
    assert_eq!(rt; head.header.matrices, [ones, flat, flat, flat]);
    assert_eq!(rt; head.len, 84);

    let mut body = [0; 24];
    body[..13].copy_from_slice(&HEADER[..13]);
    body[13..].copy_from_slice(&[0, 0, 0x40, 0, 0x04, 0x20, 0x20, 0x40, 0x60, 0x80, 0]);
    let head = read_frame_header(&body).expect(&rt, "a tile size");
    assert!(rt; head.header.sizes_present);
    assert_eq!(rt; head.sizes.as_slice(), [0x0102_0304].as_slice());
    assert_eq!(rt; head.len, 24);
}

#[test]
fn names_the_first_fault(rt: HostRuntime) {
    for (place, value, rule) in [
        (0, 64, Rule::V9),
        (2, 0x01, Rule::V14),
        (5, 0, Rule::V11),
        (9, 0x12, Rule::V10),
        (9, 0x05, Rule::V12),
        (9, 0x22, Rule::V13),
        (11, 0x01, Rule::V14),
        (12, 0x01, Rule::V14),
        (13, 0x40, Rule::V15),
        (15, 0, Rule::V16),
        (19, 0x01, Rule::V19),
    ] {
        let mut body = HEADER;
        if let Some(byte) = body.get_mut(place) {
            *byte = value;
        }
        assert_eq!(rt; end_of(&body), Some(HeadEnd::Rule(rule)), "at byte {place}");
    }
    let mut body = HEADER;
    body[6] = 0x40;
    assert_eq!(rt; end_of(&body), Some(HeadEnd::Wide(262_145)));
    let mut body = HEADER;
    body[0] = 0x21;
    body[5] = 0x11;
    body[9] = 0x22;
    assert_eq!(rt; end_of(&body), Some(HeadEnd::Rule(Rule::V11)));
    for len in 0..20 {
        assert_eq!(rt;
            end_of(&HEADER[..len]),
            Some(HeadEnd::Rule(Rule::V8)),
            "of {len} bytes"
        );
    }
}
