//! The access unit whose structure is judged: a primary frame of 1920x1080 samples in 4:2:2 and 10 bits, of 40 tiles.

ghost use Rattle.std.specs.Prelude.{◌≤◌, length, vec_len, IfOk};

use apv_base::{Chroma, FrameHeader, FrameInfo, Matrix};
use apv_header::{put_frame_header, put_tile_header};
use apv_unit::{put_pbu_header, structure};
use std::alloc::{AllocError, Global};

/// The tiles of the frame, in 8 columns and 5 rows.
const TILES: u16 = 40;

/// `tile_data_size` of each component, in bytes.
const DATA_SIZES: [u32; 3] = [4000, 2000, 2000];

/// The bytes of a tile's data.
const DATA: [u8; 8000] = [0x55; 8000];

/// `tile_size`: the bytes of a tile header and of its data.
const TILE_SIZE: u32 = 20 + 8000;

/// `pbu_size`: four bytes of the PBU's header, the frame header, and the tiles, each after its `tile_size`.
const PBU_SIZE: u32 = 4 + 20 + 40 * (4 + TILE_SIZE);

/// The bytes of the frame header.
fn frame_header_bytes() -> [u8; 20] {
    let header = FrameHeader {
        info: FrameInfo {
            profile: 33,
            level: 123,
            band: 0,
            width: 1920,
            height: 1080,
            chroma: Chroma::C422,
            depth: 10,
            capture: 0,
        },
        colour: None,
        use_matrix: false,
        matrices: [Matrix::flat(); 4],
        tile_width: 16,
        tile_height: 16,
        sizes_present: false,
    };
    let mut bytes = [0; 20];
    put_frame_header(&header, &[], &mut bytes);
    bytes
}

/// The bytes of a tile's header.
fn tile_header_bytes(index: u16) -> [u8; 20] {
    let mut bytes = [0; 20];
    put_tile_header(index, &DATA_SIZES, &[20; 3], &mut bytes);
    bytes
}

/// The bytes of the access unit. The PBU's header is that of a primary frame.
pub fn unit(alloc: Global) -> Result<Vec<u8>, AllocError>
    ensures { IfOk result (λ unit. vec_len unit ≤ 536870912) }
{
    let mut pbu_header = [0; 8];
    put_pbu_header(1, 1, PBU_SIZE, &mut pbu_header);
    let mut unit = Vec::new(alloc);
    unit.extend_from_slice(b"aPv1")?;
    unit.extend_from_slice(&pbu_header)?;
    unit.extend_from_slice(&frame_header_bytes())?;
    for index in 0..TILES {
        unit.extend_from_slice(&TILE_SIZE.to_be_bytes())?;
        unit.extend_from_slice(&tile_header_bytes(index))?;
        unit.extend_from_slice(&DATA)?;
    }
    Ok(unit)
}

/// Judges the structure of a unit n times, and counts how often it is sound. Each time the unit has another number,
/// so that it is judged anew.
#[inline(never)]
pub fn count_sound(unit: &[u8], rounds: u32) -> u64
    requires { length unit.now ≤ 536870912 }
{
    let mut count = 0;
    for number in 0..rounds {
        if structure(unit, number).is_ok() {
            count += 1;
        }
    }
    count
}
