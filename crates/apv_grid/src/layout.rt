//! Where the values of a frame's blocks are in one buffer.
ghost use Rattle.std.specs.Prelude.{◌≡◌, ℕ, ◌<◌, ◌≤◌, ◌+◌, ◌-◌, ◌*◌, ◌/◌, ◌%◌, ◌^◌};
ghost use Rattle.apv_base.specs.model.Format.{comps_of, component_width};
ghost use Rattle.apv_base.specs.model.Format.{macroblock_columns as columns_of};
ghost use Rattle.apv_base.specs.model.Format.{macroblock_rows as rows_of};
ghost use Rattle.apv_base.specs.model.Grid.{IsSoundGrid, tile_count, is_half};
ghost use Rattle.apv_grid.specs.Buffer.{macroblock_before, values_before, tile_start, value_count};
ghost use Rattle.apv_grid.specs.Buffer.{filled_width, filled_height, IsFilled};
ghost use Rattle.apv_grid.specs.Strip.{IsStrip};

use crate::{Grid, Rect};
use apv_base::Chroma;

/// The samples of a row of a component that are in one tile.
#[derive(Clone, Copy)]
pub(crate) struct Strip {
    /// The first of them.
    pub first: usize,
    /// The first after them.
    pub end: usize,
    /// The place of the first one's value.
    pub start: usize,
    /// Whether the component has half the width.
    pub half: bool,
}

/// Whether the component has half the width.
fn has_half(chroma: Chroma, comp: u8) -> bool
    ensures { result ≡ is_half chroma comp }
{
    chroma == Chroma::C422 && matches!(comp, 1 | 2)
}

/// The values that a macroblock has of the components before one.
fn macroblock_values(chroma: Chroma, comp: u8) -> usize
    requires { comp ≤ comps_of chroma }
    ensures count { result ≡ macroblock_before chroma comp }
    ensures few { result ≤ 1024 }
{
    if !has_half(chroma, 1) {
        return 256 * usize::from(comp);
    }
    if comp == 0 {
        return 0;
    }
    128 + 128 * usize::from(comp)
}

/// The macroblocks of the tiles before one, in a frame of n columns of macroblocks.
fn macroblocks_before(columns: u32, rect: Rect) -> usize
    requires columns { columns ≤ 2 ^ 20 }
    requires rect { (rect.x ≤ 2 ^ 20) × (rect.y ≤ 2 ^ 20) × (rect.h ≤ 2 ^ 20) }
    ensures count { result ≡ rect.y * columns + rect.x * rect.h }
    ensures few { result ≤ 2 ^ 41 }
{
    rect.y as usize * columns as usize + rect.x as usize * rect.h as usize
}

/// The place of the first value of a row of samples, counted from that of the first of a component
/// of a tile, which is as many samples wide for each macroblock.
fn row_start(rect: Rect, width: usize, y: u32) -> usize
    requires below { rect.y ≤ y / 16 }
    requires small { (y < 2 ^ 24) × (rect.w ≤ 2 ^ 20) × (width ≤ 16) }
    ensures start { let above = (y / 16 - rect.y) * rect.w * (16 * width) in
        result ≡ above + (y / 8 % 2 * (8 * width) + y % 8 * 8) }
    ensures few { result ≤ 2 ^ 52 }
{
    let above = (y / 16 - rect.y) as usize * rect.w as usize;
    above * (16 * width) + ((y / 8 % 2) as usize * (8 * width) + (y % 8) as usize * 8)
}

impl Grid {
    /// The values that a macroblock has.
    fn macroblock(&self) -> usize
        ensures count { let chroma = self.now.format.chroma in
            result ≡ macroblock_before chroma (comps_of chroma) }
        ensures few { result ≤ 1024 }
    {
        macroblock_values(self.format.chroma, self.format.chroma.comps())
    }

    /// The number of values before those of a component of the tile in that rectangle.
    fn part_start(&self, rect: Rect, comp: u8) -> usize
        requires columns { rect.x + rect.w ≤ columns_of self.now.format }
        requires rows { rect.y + rect.h ≤ rows_of self.now.format }
        requires comp { comp ≤ comps_of self.now.format.chroma }
        ensures start { let per = macroblock_before self.now.format.chroma in
            let before = rect.y * columns_of self.now.format + rect.x * rect.h in
            result ≡ before * per (comps_of self.now.format.chroma) + rect.w * rect.h * per comp }
        ensures few { result ≤ 2 ^ 52 }
    {
        let tiles = macroblocks_before(self.format.macroblock_columns(), rect) * self.macroblock();
        let macroblocks = rect.w as usize * rect.h as usize;
        tiles + macroblocks * macroblock_values(self.format.chroma, comp)
    }

    /// The number of values of all tiles: 64 for each block.
    pub fn values(&self) -> usize
        ensures count { result ≡ value_count self.now }
        ensures few { result ≤ 2 ^ 28 }
        ensures sound { IsSoundGrid self.now }
    {
        let columns = self.format.macroblock_columns();
        let rows = self.format.macroblock_rows();
        columns as usize * rows as usize * self.macroblock()
    }

    /// The number of values of the tiles before one, or of all tiles.
    pub fn tile_start(&self, tile: u32) -> usize
        requires { tile ≤ tile_count self.now }
        ensures start { result ≡ tile_start self.now tile }
        ensures few { result ≤ value_count self.now }
    {
        if tile == self.tiles() {
            return self.values();
        }
        let columns = self.format.macroblock_columns();
        macroblocks_before(columns, self.rect(tile)) * self.macroblock()
    }

    /// The number of values of the components of a tile before one, or of all its components.
    pub fn values_before(&self, tile: u32, comp: u8) -> usize
        requires tile { tile < tile_count self.now }
        requires comp { comp ≤ comps_of self.now.format.chroma }
        ensures count { result ≡ values_before self.now tile comp }
        ensures few { result ≤ value_count self.now }
    {
        let rect = self.rect(tile);
        rect.w as usize * rect.h as usize * macroblock_values(self.format.chroma, comp)
    }

    /// The visible width of a component.
    pub fn width(&self, comp: u8) -> u32
        ensures width { result ≡ component_width self.now.format comp }
        ensures some { 1 ≤ result }
        ensures filled { result ≤ filled_width self.now comp }
        ensures edge { filled_width self.now comp - result ≤ 16 }
    {
        if has_half(self.format.chroma, comp) {
            self.format.width / 2
        } else {
            self.format.width
        }
    }

    /// The width of a component's area filled up to whole macroblocks.
    pub(crate) fn filled_width(&self, comp: u8) -> u32
        ensures width { result ≡ filled_width self.now comp }
        ensures small { result ≤ 2 ^ 24 }
    {
        let columns = self.format.macroblock_columns();
        if has_half(self.format.chroma, comp) {
            8 * columns
        } else {
            16 * columns
        }
    }

    /// The height of the area filled up to whole macroblocks.
    pub(crate) fn filled_height(&self) -> u32
        ensures height { result ≡ filled_height self.now }
        ensures small { result ≤ 2 ^ 24 }
        ensures visible { (1 ≤ self.now.format.height) × (self.now.format.height ≤ result) }
    {
        16 * self.format.macroblock_rows()
    }

    /// The samples of the row of a sample that are in the same tile.
    #[inline]
    pub(crate) fn strip(&self, comp: u8, x: u32, y: u32) -> Strip
        requires { IsFilled self.now comp x y }
        ensures half { result.half ≡ is_half self.now.format.chroma comp }
        ensures range { (result.first ≤ x) × (x < result.end) }
        ensures filled { result.end ≤ filled_width self.now comp }
        ensures strip { IsStrip self.now comp y result.first result.end result.start }
    {
        let half = has_half(self.format.chroma, comp);
        let width = if half { 8 } else { 16 };
        let column = if half { x / 8 } else { x / 16 };
        let rect = self.rect_in(column / self.tile_width, y / 16 / self.tile_height);
        let start = self.part_start(rect, comp) + row_start(rect, width, y);
        Strip {
            first: rect.x as usize * width,
            end: (rect.x + rect.w) as usize * width,
            start,
            half,
        }
    }
}
