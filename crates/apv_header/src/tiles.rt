//! The tiles of a frame, read.
ghost use Rattle.std.specs.Prelude.{◌≡◌, ◌≤◌, ◌<◌, ◌*◌, true, take, drop, length, nat_lt, not};
ghost use Rattle.std.specs.Prelude.{IfOk, IfErr, MatchResult};
ghost use Rattle.std.specs.List.{sum, list_all};
ghost use Rattle.apv_base.specs.model.Format.{comps_of, IsDepth};
ghost use Rattle.apv_base.specs.model.Run.{MAX_UNIT};
ghost use Rattle.apv_base.specs.model.Tile.{tile_header_size, stated};
ghost use Rattle.apv_header.specs.Read.{IsReadFrom};
ghost use Rattle.apv_header.specs.Tiles.{AreTilesOf, TilesBreak, AreZeroFrom};
ghost use Rattle.apv_header.specs.Walks.{numbers, stated_at, differs_from, HasTileSize, HasTileHeader};
ghost use Rattle.apv_header.specs.Walks.{TileHeaderBreaks, HasTile, TileBreaks};

use crate::HeaderRead;
use apv_base::{FrameInfo, Rule, TileBreak, qp_max};
use apv_bits::{be16, be32};
use arrayvec::ArrayVec;

/// A tile of a frame, by its place in the body (`tile()`).
#[derive(Clone, Copy, Debug, Default, PartialEq, Eq)]
pub struct TileEntry {
    /// The byte of the body, counted from 0, at which the tile header begins, after `tile_size`.
    pub place: u32,
    /// `tile_size`: the bytes of the tile header, of the components' data and of dummy bytes.
    pub size: u32,
    /// `tile_data_size` of each component, in bytes, and 0 for each that the frame doesn't have.
    pub lengths: [u32; 4],
    /// `tile_qp` of each component, 0 to the maximum of the bit depth, and 0 for each that the frame doesn't have.
    pub qp: [u8; 4],
}

/// The tiles of a frame in order, row after row.
#[derive(Debug, Drop)]
pub struct TileTable {
    /// An entry for each tile, 1 to 400.
    pub tiles: ArrayVec<TileEntry, 400>,
    /// The byte of the body after the last tile, which is the body's length where no filler follows.
    pub end: u32,
}

/// The bytes of a tile header (`tile_header_size`).
fn header_size(comps: u8) -> u32
    requires { comps ≤ 4 }
    ensures { result ≡ tile_header_size comps }
{
    5 * u32::from(comps) + 5
}

/// The `tile_data_size` of each component, and 0 for each that the frame doesn't have.
fn data_sizes(bytes: &[u8], comps: u8) -> [u32; 4]
    requires few { comps ≤ 4 }
    requires long { 4 * comps ≤ length bytes.now }
    ensures sizes { take comps result ≡ numbers 4 comps bytes.now }
    ensures others { AreZeroFrom comps result }
{
    let mut sizes = [0; 4];
    for comp in 0..usize::from(comps) {
        let (_, rest) = bytes.split_at(4 * comp);
        sizes[comp] = be32(rest);
    }
    sizes
}

/// The bytes of the data of the first components.
fn data_total(sizes: &[u32; 4], comps: u8) -> u64
    requires { comps ≤ 4 }
    ensures { result ≡ sum (take comps sizes.now) }
{
    let mut total = 0;
    for comp in 0..usize::from(comps) {
        total += u64::from(sizes[comp]);
    }
    total
}

/// Whether no QP is above the maximum.
fn qps_permitted(qps: &[u8], maximum: u8) -> bool
    ensures { result ≡ list_all (λ qp. not (nat_lt maximum qp)) qps.now }
{
    qps.iter().all(|qp| *qp <= maximum)
}

/// The `tile_qp` of each component, and 0 for each that the frame doesn't have.
fn qp_table(qps: &[u8]) -> [u8; 4]
    requires { length qps.now ≤ 4 }
    ensures qps { take (length qps.now) result ≡ qps.now }
    ensures others { AreZeroFrom (length qps.now) result }
{
    let mut table = [0; 4];
    for (comp, qp) in qps.iter().enumerate() {
        table[comp] = *qp;
    }
    table
}

/// Whether the header states another size for a tile.
fn is_another(stated: Option<u32>, size: u32) -> bool
    ensures { result ≡ differs_from stated size }
{
    match stated {
        Some(stated) => stated != size,
        None => false,
    }
}

/// `tile_size`, which begins the bytes. V20 where they don't have it; V18 where another size is stated; V20 where the
/// tile is smaller than its header or the bytes end inside it.
fn read_tile_size(
    bytes: &[u8],
    number: u32,
    stated: Option<u32>,
    info: &FrameInfo,
) -> Result<u32, Rule>
    ensures { MatchResult result (λ size. HasTileSize bytes.now info.now number stated size)
        (λ rule. TileBreaks bytes.now info.now number stated rule) }
{
    if bytes.len() < 4 {
        return Err(Rule::V20);
    }
    let size = be32(bytes);
    if is_another(stated, size) {
        return Err(Rule::V18);
    }
    if size < header_size(info.chroma.comps()) {
        return Err(Rule::V20);
    }
    if size as usize > bytes.len() - 4 {
        return Err(Rule::V20);
    }
    Ok(size)
}

/// The data sizes and QPs of a tile header (`tile_header()`), which begins the bytes, in a tile of that number and
/// size. V21 where `tile_header_size` or `tile_index` is another one; V24 where the data are larger than the tile has
/// room for; V22 where a QP is above the maximum; V14 where the reserved byte isn't 0.
fn read_tile_header(
    bytes: &[u8],
    number: u32,
    size: u32,
    info: &FrameInfo,
) -> Result<([u32; 4], [u8; 4]), Rule>
    requires depth { IsDepth info.now.depth }
    requires long { tile_header_size (comps_of info.now.chroma) ≤ length bytes.now }
    requires size { tile_header_size (comps_of info.now.chroma) ≤ size }
    ensures { MatchResult result (λ found. HasTileHeader bytes.now info.now number size found)
        (λ rule. TileHeaderBreaks bytes.now info.now number size rule) }
{
    let comps = info.chroma.comps();
    let header_size = header_size(comps);
    if u32::from(be16(bytes)) != header_size {
        return Err(Rule::V21);
    }
    let (_, from_index) = bytes.split_at(2);
    if u32::from(be16(from_index)) != number {
        return Err(Rule::V21);
    }
    let (_, from_sizes) = from_index.split_at(2);
    let sizes = data_sizes(from_sizes, comps);
    if data_total(&sizes, comps) > u64::from(size - header_size) {
        return Err(Rule::V24);
    }
    let (_, from_qps) = from_sizes.split_at(4 * usize::from(comps));
    let (qps, reserved) = from_qps.split_at(usize::from(comps));
    if !qps_permitted(qps, qp_max(info.depth)) {
        return Err(Rule::V22);
    }
    if reserved[0] != 0 {
        return Err(Rule::V14);
    }
    Ok((sizes, qp_table(qps)))
}

/// The tile whose `tile_size` is at a place of a body (`tile()`), or the first rule that it breaks: V20, V18, V21, V24,
/// V22, V14.
pub fn read_tile(
    body: &[u8],
    place: u32,
    number: u32,
    stated: Option<u32>,
    info: &FrameInfo,
) -> Result<TileEntry, Rule>
    requires depth { IsDepth info.now.depth }
    requires small { length body.now ≤ MAX_UNIT }
    requires inside { place ≤ length body.now }
    ensures { MatchResult result (λ entry. HasTile body.now place info.now number stated entry)
        (λ rule. TileBreaks (drop place body.now) info.now number stated rule) }
{
    let (_, bytes) = body.split_at(place as usize);
    let size = read_tile_size(bytes, number, stated, info)?;
    let (_, header) = bytes.split_at(4);
    let (lengths, qp) = read_tile_header(header, number, size, info)?;
    Ok(TileEntry {
        place: place + 4,
        size,
        lengths,
        qp,
    })
}

/// The size that the header states for a tile (`tile_size_in_fh`), if it states sizes.
fn stated_size(head: &HeaderRead, number: u32) -> Option<u32>
    requires { head.now.header.sizes_present ≡ true → number < length head.now.sizes.items }
    ensures { let header = head.now.header in
        result ≡ stated_at (stated header.sizes_present head.now.sizes.items) number }
{
    if head.header.sizes_present {
        Some(head.sizes[number as usize])
    } else {
        None
    }
}

/// The tiles of a frame after its header (`tile()`), in a body of at most 536,870,912 bytes (limit L1) from which
/// that header was read. Else returns the first tile that breaks a rule, counted from 0, and the rule: V20 where
/// `tile_size` or the tile doesn't fit what is left of the body or the tile is smaller than its header, V18 where the
/// header states another size, V21 where `tile_header_size` or `tile_index` is another one, V24 where the data are
/// larger than the tile has room for, V22 where a QP is above the maximum of the bit depth, V14 where the reserved
/// byte isn't 0.
pub fn read_tiles(body: &[u8], head: &HeaderRead) -> Result<TileTable, TileBreak>
    requires small { length body.now ≤ MAX_UNIT }
    requires head { IsReadFrom body.now head.now }
    ensures ok { IfOk result (λ table. AreTilesOf body.now head.now table) }
    ensures err { IfErr result (λ broken. TilesBreak body.now head.now broken) }
{
    let mut tiles = ArrayVec::new();
    let mut end = head.len;
    for tile in 0..head.grid.tiles() {
        let stated = stated_size(head, tile);
        match read_tile(body, end, tile, stated, &head.header.info) {
            Ok(entry) => {
                end = entry.place + entry.size;
                tiles.push(entry);
            }
            Err(rule) => return Err(TileBreak { tile, rule }),
        }
    }
    Ok(TileTable { tiles, end })
}
