//! The rules and limits that access units keep, and the places at which they are broken.

/// A rule of the bitstream, as `docs/FORMATS.md` states it.
///
/// - `V1`: one to three bytes are left where `au_size` should be.
/// - `V2`: fewer than `au_size` bytes follow.
/// - `V3`: the access unit has fewer than 4 bytes or doesn't begin with the signature.
/// - `V4`: fewer than 4 bytes are left where `pbu_size` should be.
/// - `V5`: `pbu_size` is below 4.
/// - `V6`: `pbu_size` is above what is left of the access unit.
/// - `V7`: the reserved byte of the PBU header isn't 0.
/// - `V8`: the body ends inside a frame header, access unit information or `metadata_size`.
/// - `V9`: `profile_idc` isn't known.
/// - `V10`: `chroma_format_idc` isn't known.
/// - `V11`: the width or height is 0, or the width is odd with 4:2:2.
/// - `V12`: the bit depth isn't 10, 11 or 12.
/// - `V13`: the profile doesn't take the chroma format and depth.
/// - `V14`: a reserved field of a frame header, tile header or access unit information isn't 0.
/// - `V15`: a value of a quantisation matrix is 0.
/// - `V16`: the tile width is below 16 or the tile height below 8 macroblocks.
/// - `V17`: there are more than 20 tile columns or rows.
/// - `V18`: `tile_size_in_fh` is present and differs from `tile_size`.
/// - `V19`: an alignment bit of the frame header is 1.
/// - `V20`: `tile_size` or the tile doesn't fit, or the tile is smaller than its header.
/// - `V21`: `tile_header_size` or `tile_index` isn't the one that must be there.
/// - `V22`: a `tile_qp` is above the maximum QP of the depth.
/// - `V23`: a filler byte isn't FF.
/// - `V24`: the sum of `tile_data_size` is above what the tile has for data.
/// - `V25`: `metadata_size` is below 2 or above what is left of the body.
/// - `V26`: a payload's type, size or bytes reach past `metadata_size`.
/// - `V27`: a component's data end inside a code word or before a sign.
/// - `V28`: a component's bits are no prefix of a code word of a permitted value.
/// - `V29`: a run of zeros is above `64 - p` at scan place p.
/// - `V30`: a level is outside -32768 to 32767.
/// - `V31`: an alignment bit after a component's last block is 1.
/// - `V32`: judged strictly: the access unit doesn't have exactly one primary frame.
/// - `V33`: judged strictly: two primary or non-primary frames have the same group.
/// - `V34`: judged strictly: access unit information lists other frames than those of its access unit.
#[derive(Clone, Copy, Debug, PartialEq, Eq)]
pub enum Rule {
    V1,
    V2,
    V3,
    V4,
    V5,
    V6,
    V7,
    V8,
    V9,
    V10,
    V11,
    V12,
    V13,
    V14,
    V15,
    V16,
    V17,
    V18,
    V19,
    V20,
    V21,
    V22,
    V23,
    V24,
    V25,
    V26,
    V27,
    V28,
    V29,
    V30,
    V31,
    V32,
    V33,
    V34,
}

/// A limit of this product.
///
/// - `L1`: an access unit or a metadata file has at most 536,870,912 bytes.
/// - `L2`: a frame has at most 262,144 macroblocks.
/// - `L3`: a run has at most 4,294,967,295 access units or frames.
#[derive(Clone, Copy, Debug, PartialEq, Eq)]
pub enum Limit {
    L1,
    L2,
    L3,
}

/// Where a rule is broken, counted from 0. A part that the rule doesn't reach is 0.
#[derive(Clone, Copy, Debug, PartialEq, Eq)]
pub struct Place {
    /// The access unit in its file.
    pub unit: u32,
    /// The PBU in its access unit.
    pub pbu: u32,
    /// The tile in its frame.
    pub tile: u32,
    /// The component.
    pub comp: u8,
}

/// A rule that is broken, and where.
#[derive(Clone, Copy, Debug, PartialEq, Eq)]
pub struct Break {
    pub rule: Rule,
    pub place: Place,
}

/// The maximum number of bytes of an access unit, and of a metadata file: the limit L1.
pub const MAX_UNIT_BYTES: u32 = 536_870_912;

/// The maximum number of macroblocks of a frame: the limit L2.
pub const MAX_MACROBLOCKS: u64 = 262_144;

/// Why the fields of a frame header (`frame_header()`) or of access unit information (`au_info()`) aren't taken.
///
/// - `Rule`: the rule that is broken first, in the order of the fields.
/// - `Wide`: the limit L2 isn't kept: the number of macroblocks of 16x16 samples of the frame, which is above
///   262,144.
#[derive(Clone, Copy, Debug, PartialEq, Eq)]
pub enum HeadEnd {
    Rule(Rule),
    Wide(u64),
}

/// A rule that a tile breaks, and the number of the tile in its frame.
#[derive(Clone, Copy, Debug, PartialEq, Eq)]
pub struct TileBreak {
    pub tile: u32,
    pub rule: Rule,
}

/// Why an access unit isn't valid.
///
/// - `Broken`: a rule is broken.
/// - `Limit`: a frame has that many macroblocks, more than the limit L2.
#[derive(Clone, Copy, Debug, PartialEq, Eq)]
pub enum UnitEnd {
    Broken(Break),
    Limit(u64),
}
