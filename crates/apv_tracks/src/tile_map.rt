//! The file of QP offsets.
ghost use Rattle.std.specs.Prelude.{◌≡◌, ◌<◌, ◌≤◌, ℕ, List, [], IfNone, IfSome};
ghost use Rattle.apv_base.specs.declared.slot.Slot.TheVariants.{TileQp};
ghost use Rattle.apv_files.specs.SlotView.{OnlyAt};
ghost use Rattle.apv_files.specs.declared.files.Mode.TheVariants.{Reading};
ghost use Rattle.apv_encoding.specs.Answer.{HasBadOffset, IsBadOffset};
ghost use Rattle.apv_tracks.specs.TileMap.{HasNoBadOffset, ReadsTileMap, is_outside_byte};

use apv_base::Slot;
use apv_files::{Failed, Files, fill};

/// The bytes that are read at most: one for each of 400 tiles, and one after them.
const MAP: usize = 401;

/// Why no file of QP offsets was read.
///
/// - `Bad`: the byte at that place, counted from 0, is missing, is outside -75 to 75, or is after that of the last
///   tile, and none before it is.
/// - `Read`: a read of the slot `TileQp` failed by its device.
/// - `Memory`: memory ran out.
#[derive(Clone, Copy, Debug, PartialEq, Eq)]
pub enum MapEnd {
    Bad(u64),
    Read,
    Memory,
}

/// Whether a byte, in two's complement, is outside -75 to 75.
fn is_outside(byte: u8) -> bool
    ensures { result ≡ is_outside_byte byte }
{
    matches!(byte, 76..=180)
}

/// The first byte that is missing, is outside -75 to 75, or is after that of the last tile.
fn bad_byte(bytes: &[u8], tiles: usize) -> Option<usize>
    ensures some { IfSome result (λ place. HasBadOffset tiles bytes.now place) }
    ensures none { IfNone result (HasNoBadOffset tiles bytes.now) }
{
    let count = usize::min(bytes.len(), tiles);
    for place in 0..count {
        if is_outside(bytes[place]) {
            return Some(place);
        }
    }
    if bytes.len() == tiles {
        None
    } else {
        Some(count)
    }
}

/// Reads the file of QP offsets from `TileQp`: one byte for each tile, in two's complement, -75 to 75. The vector,
/// which is empty before, becomes the file.
///
/// `Bad` comes exactly where a byte is missing, is outside -75 to 75, or is after that of the last tile, with the place
/// of the first such byte. `Read` comes only where the read faults of `TileQp` rose. `Memory` comes from the files, or
/// where the vector can't grow. After a refusal nothing is said of the vector. At most 401 bytes are read.
pub fn read_tile_map<F: Files>(files: &mut F, tiles: u32, map: &mut Vec<u8>) -> Result<(), MapEnd>
    requires reading { (F.slot_view files.old TileQp).mode ≡ Reading }
    requires empty { map.old.items ≡ [] }
    requires few { tiles ≤ 400 }
    ensures here { ReadsTileMap tiles (F.slot_view files.old TileQp) result map.new.items
        (F.slot_view files.new TileQp) }
    ensures elsewhere { OnlyAt TileQp (F.slot_view files.old) (F.slot_view files.new) }
    ensures held { (file : List ℕ) → F.held files.new file ≡ F.held files.old file }
{
    let mut buf = [0; MAP];
    let count = match fill(files, Slot::TileQp, &mut buf) {
        Ok(count) => count,
        Err(Failed::Device) => return Err(MapEnd::Read),
        Err(Failed::Memory) => return Err(MapEnd::Memory),
    };
    let (bytes, _) = buf.split_at(count);
    if let Some(place) = bad_byte(bytes, tiles as usize) {
        return Err(MapEnd::Bad(place as u64));
    }
    if map.extend_from_slice(bytes).is_err() {
        return Err(MapEnd::Memory);
    }
    Ok(())
}
