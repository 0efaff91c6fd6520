//! The grid of tiles of a frame (`tile_info()`).
ghost use Rattle.std.specs.Prelude.{◌≡◌, ◌<◌, ◌≤◌, ◌+◌, ◌-◌, ◌*◌, min, IfOk, IfErr, Some};
ghost use Rattle.apv_base.specs.model.Format.{IsSoundFormat, comps_of, parts as parts_of};
ghost use Rattle.apv_base.specs.model.Format.{macroblock_columns as columns_of};
ghost use Rattle.apv_base.specs.model.Format.{macroblock_rows as rows_of};
ghost use Rattle.apv_base.specs.model.Grid.{Grid as Tiling, IsSoundGrid, grid_with, tile_rule};
ghost use Rattle.apv_base.specs.model.Grid.{tile_columns, tile_rows, tile_count, block_count};
ghost use Rattle.apv_base.specs.model.Grid.{tile_x, tile_y, tile_w, tile_h};
ghost use Rattle.apv_base.specs.model.Grid.{default_size as size_by_default};
ghost use Rattle.apv_base.specs.model.Grid.{macroblock_blocks as blocks_of_macroblock};

use apv_base::{Chroma, Format, Rule};
use std::marker::Model;

/// The rectangle of a frame that a tile covers, in macroblocks of 16x16 luma samples.
#[derive(Clone, Copy, Debug, PartialEq, Eq)]
pub struct Rect {
    /// The columns of macroblocks to its left, counted from the frame's left edge.
    pub x: u32,
    /// The rows of macroblocks above it, counted from the frame's top edge.
    pub y: u32,
    /// The width in macroblocks, at least 1.
    pub w: u32,
    /// The height in macroblocks, at least 1.
    pub h: u32,
}

/// The tiles of a frame (`tile_info()`), 1 to 400 in at most 20 columns and 20 rows, counted from 0 row after row.
/// Seen as the frame's format and the size of its tiles in macroblocks: `tile_width_in_mbs`, at least 16, and
/// `tile_height_in_mbs`, at least 8.
#[derive(Clone, Copy, Debug, PartialEq, Eq)]
pub struct Grid {
    /// The format of the frame, which is sound.
    pub(crate) format: Format,
    pub(crate) tile_width: u32,
    pub(crate) tile_height: u32,
}

impl Model for Grid {
    ghost Value = { Tiling };

    ghost view = { λ g. grid_with g.format g.tile_width g.tile_height };

    ghost invariant = { λ g. IsSoundGrid (grid_with g.format g.tile_width g.tile_height) };

    ghost inverse = { λ g. record {
      format = g.format;
      tile_width = g.tile_width;
      tile_height = g.tile_height;
    } };
}

/// How many parts of `size` there are in `whole`, the last one cut or whole.
fn parts(whole: u32, size: u32) -> u32
    requires { 1 ≤ size }
    ensures { result ≡ parts_of whole size }
{
    whole.div_ceil(size)
}

/// Where a part begins and its size. The last part is cut at the end of the whole.
fn part(whole: u32, size: u32, number: u32) -> (u32, u32)
    requires some { 1 ≤ size }
    requires within { number < parts_of whole size }
    ensures start { result.0 ≡ number * size }
    ensures size { result.1 ≡ min size (whole - number * size) }
    ensures some { 1 ≤ result.1 }
    ensures within { result.0 + result.1 ≤ whole }
{
    let start = number * size;
    (start, u32::min(size, whole - start))
}

/// The width or height of tiles that is taken where none is asked for: the smallest, from 16 macroblocks on, that
/// makes at most 20 tiles of n macroblocks.
fn default_size(macroblocks: u32) -> u32
    ensures size { result ≡ size_by_default macroblocks }
    ensures some { 16 ≤ result }
    ensures few { parts_of macroblocks result ≤ 20 }
{
    u32::max(16, parts(macroblocks, 20))
}

/// The blocks that a macroblock has of a component: 4, and 2 of a component that has half the width.
fn macroblock_blocks(chroma: Chroma, comp: u8) -> u32
    ensures count { result ≡ blocks_of_macroblock chroma comp }
    ensures few { result ≤ 4 }
{
    if chroma == Chroma::C422 && matches!(comp, 1 | 2) {
        2
    } else {
        4
    }
}

/// The width and height of tiles, in macroblocks, that are taken where none are asked for (`tile_width_in_mbs` and
/// `tile_height_in_mbs`): each the smallest, from 16 on, that makes at most 20 columns or rows. They make a sound grid.
pub fn default_tile(format: &Format) -> (u32, u32)
    requires { IsSoundFormat format.now }
    ensures size { let columns = columns_of format.now in
        result ≡ (size_by_default columns, size_by_default (rows_of format.now)) }
    ensures sound { IsSoundGrid (grid_with format.now result.0 result.1) }
{
    (
        default_size(format.macroblock_columns()),
        default_size(format.macroblock_rows()),
    )
}

impl Grid {
    /// The grid of a sound format with tiles of that many macroblocks, `tile_width_in_mbs` and `tile_height_in_mbs`.
    /// V16 exactly where the tile width is below 16 or the tile height below 8; V17 exactly where that isn't so and
    /// there are more than 20 columns or rows of tiles.
    pub fn of(format: &Format, tile_width: u32, tile_height: u32) -> Result<Grid, Rule>
        requires { IsSoundFormat format.now }
        ensures ok { let tiles = grid_with format.now tile_width tile_height in
            IfOk result (λ grid. (grid ≡ tiles) × IsSoundGrid grid) }
        ensures err { let tiles = grid_with format.now tile_width tile_height in
            IfErr result (λ rule. tile_rule tiles ≡ Some rule) }
    {
        if tile_width < 16 || tile_height < 8 {
            return Err(Rule::V16);
        }
        let columns = parts(format.macroblock_columns(), tile_width);
        let rows = parts(format.macroblock_rows(), tile_height);
        if columns > 20 || rows > 20 {
            return Err(Rule::V17);
        }
        Ok(Grid {
            format: *format,
            tile_width,
            tile_height,
        })
    }

    /// The format of the frame.
    pub fn format(&self) -> Format
        ensures { result ≡ self.now.format }
    {
        self.format
    }

    /// The columns of tiles, 1 to 20.
    pub(crate) fn columns(&self) -> u32
        ensures count { result ≡ tile_columns self.now }
        ensures some { 1 ≤ result }
        ensures few { result ≤ 20 }
        ensures sound { IsSoundGrid self.now }
    {
        parts(self.format.macroblock_columns(), self.tile_width)
    }

    /// The rows of tiles, 1 to 20.
    fn rows(&self) -> u32
        ensures count { result ≡ tile_rows self.now }
        ensures some { 1 ≤ result }
        ensures few { result ≤ 20 }
    {
        parts(self.format.macroblock_rows(), self.tile_height)
    }

    /// The number of tiles, 1 to 400.
    pub fn tiles(&self) -> u32
        ensures count { result ≡ tile_count self.now }
        ensures some { 1 ≤ result }
        ensures few { result ≤ 400 }
        ensures sound { IsSoundGrid self.now }
    {
        self.columns() * self.rows()
    }

    /// Where the tile in that column and row of tiles lies in the frame.
    pub(crate) fn rect_in(&self, column: u32, row: u32) -> Rect
        requires column { column < tile_columns self.now }
        requires row { row < tile_rows self.now }
        ensures x { (result.x ≡ column * self.now.tile_width) × (1 ≤ result.w) }
        ensures y { (result.y ≡ row * self.now.tile_height) × (1 ≤ result.h) }
        ensures w { result.w ≡ min self.now.tile_width (columns_of self.now.format - result.x) }
        ensures h { result.h ≡ min self.now.tile_height (rows_of self.now.format - result.y) }
        ensures columns { result.x + result.w ≤ columns_of self.now.format }
        ensures rows { result.y + result.h ≤ rows_of self.now.format }
    {
        let whole = self.format.macroblock_columns();
        let (x, w) = part(whole, self.tile_width, column);
        let whole = self.format.macroblock_rows();
        let (y, h) = part(whole, self.tile_height, row);
        Rect { x, y, w, h }
    }

    /// Where a tile lies in the frame. Tiles are counted row after row from 0. The last column and row of tiles are cut
    /// at the frame's edge, so a tile is never empty and never beyond the frame.
    pub fn rect(&self, tile: u32) -> Rect
        requires { tile < tile_count self.now }
        ensures rect { result ≡ record {
          x = tile_x self.now tile;
          y = tile_y self.now tile;
          w = tile_w self.now tile;
          h = tile_h self.now tile;
        } }
        ensures wide { 1 ≤ result.w }
        ensures high { 1 ≤ result.h }
        ensures columns { result.x + result.w ≤ columns_of self.now.format }
        ensures rows { result.y + result.h ≤ rows_of self.now.format }
    {
        let columns = self.columns();
        self.rect_in(tile % columns, tile / columns)
    }

    /// The 8x8 blocks of a component of a tile, 2 to 1048576. A macroblock has 4 of a component, and 2 of one that has
    /// half the width.
    pub fn blocks(&self, tile: u32, comp: u8) -> u32
        requires tile { tile < tile_count self.now }
        requires comp { comp < comps_of self.now.format.chroma }
        ensures count { result ≡ block_count self.now tile comp }
        ensures few { result ≤ 1048576 }
    {
        let each = macroblock_blocks(self.format.chroma, comp);
        let rect = self.rect(tile);
        rect.w * rect.h * each
    }
}
