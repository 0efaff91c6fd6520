ghost use Rattle.std.specs.Prelude.{◌≡◌, length, true};
ghost use Rattle.apv_base.specs.model.Grid.{tile_count};
ghost use Rattle.apv_base.specs.model.Header.{IsSoundHeader, grid_of};

use super::INFO;
use crate::{FrameHeader, len_frame_header, put_frame_header};
use apv_base::{Colour, Matrix};
use apv_bits::BitReader;
use std::process::Abort;

/// A header of a frame of 16x16 samples in 4:0:0 and 10 bits, which is one tile.
fn small(colour: Option<Colour>, sizes_present: bool) -> FrameHeader
    ensures sound { IsSoundHeader result }
    ensures tiles { tile_count (grid_of result) ≡ 1 }
    ensures present { result.sizes_present ≡ sizes_present }
{
    FrameHeader {
        info: INFO,
        colour,
        use_matrix: false,
        matrices: [Matrix::flat(); 4],
        tile_width: 16,
        tile_height: 16,
        sizes_present,
    }
}

/// Writes a header of one tile over all bytes.
fn put(rt: &impl Abort, header: &FrameHeader, sizes: &[u32], out: &mut [u8])
    requires sound { IsSoundHeader header.now }
    requires tiles { tile_count (grid_of header.now) ≡ 1 }
    requires sizes { header.now.sizes_present ≡ true → length sizes.now ≡ 1 }
{
    assert!(rt; len_frame_header(header, 1) as usize == out.len());
    put_frame_header(header, sizes, out);
}

#[test]
fn writes_a_small_header(rt: HostRuntime) {
    let mut bytes = [0xff; 20];
    put(&rt, &small(None, false), &[18], &mut bytes);
    assert_eq!(rt;
        bytes,
        [
            0x63, 0x7b, 0, 0, 0, 0x10, 0, 0, 0x10, 2, 0, 0, 0, 0, 0, 0x40, 0, 0x04, 0, 0
        ]
    );
}

#[test]
fn writes_the_tile_sizes(rt: HostRuntime) {
    let mut bytes = [0xff; 24];
    put(&rt, &small(None, true), &[18], &mut bytes);
    assert_eq!(rt;
        bytes,
        [
            0x63, 0x7b, 0, 0, 0, 0x10, 0, 0, 0x10, 2, 0, 0, 0, 0, 0, 0x40, 0, 0x04, 0x20, 0, 0, 2,
            0x40, 0
        ]
    );
}

#[test]
fn writes_a_colour_description(rt: HostRuntime) {
    let colour = Colour {
        primaries: 1,
        transfer: 2,
        matrix: 3,
        full_range: true,
    };
    let mut bytes = [0xff; 23];
    put(&rt, &small(Some(colour), false), &[], &mut bytes);
    assert_eq!(rt;
        bytes,
        [
            0x63, 0x7b, 0, 0, 0, 0x10, 0, 0, 0x10, 2, 0, 0, 0, 0x80, 0x81, 1, 0xc0, 0, 0x20, 0, 2,
            0, 0
        ]
    );
}

#[test]
fn writes_a_matrix(rt: HostRuntime) {
    let mut values = [0; 64];
    for (place, value) in values.iter_mut().enumerate() {
        *value = place as u8 + 1;
    }
    let mut header = small(None, false);
    header.use_matrix = true;
    header.matrices[0] = Matrix::of(values).expect(&rt, "no value is 0");
    let mut bytes = [0xff; 84];
    put(&rt, &header, &[], &mut bytes);
    let mut reader = BitReader::new(&bytes);
    assert_eq!(rt; reader.read(32), Ok(0x637b_0000));
    assert!(rt; 73 <= reader.left());
    reader.skip(73);
    assert_eq!(rt; reader.read(1), Ok(1));
    for value in values {
        assert_eq!(rt; reader.read(8), Ok(u32::from(value)));
    }
    assert_eq!(rt; reader.read(20), Ok(16));
}
