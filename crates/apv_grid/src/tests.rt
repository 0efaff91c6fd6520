ghost use Rattle.std.specs.Prelude.{◌≡◌, ◌<◌, ◌≤◌, length, replicate};
ghost use Rattle.apv_base.specs.model.Format.{IsSoundFormat, comps_of, component_width};
ghost use Rattle.apv_base.specs.model.Grid.{grid_with};

use crate::{Blocks, Frame, Grid, Pieces, Rect, default_tile};
use apv_base::{Chroma, Format, Rule};
use std::alloc::Global;
use std::process::Abort;

fn format(width: u32, height: u32, chroma: Chroma) -> Format
    ensures { result ≡ record { width = width; height = height; chroma = chroma; depth = 10 } }
{
    Format {
        width,
        height,
        chroma,
        depth: 10,
    }
}

fn grid(rt: &impl Abort, format: &Format, tile_width: u32, tile_height: u32) -> Grid
    requires { IsSoundFormat format.now }
    ensures { result ≡ grid_with format.now tile_width tile_height }
{
    Grid::of(format, tile_width, tile_height).expect(rt, "a sound grid")
}

#[test]
fn tiles_without_a_cut(rt: HostRuntime) {
    let grid = grid(&rt, &format(768, 256, Chroma::C400), 16, 8);
    assert_eq!(rt; grid.tiles(), 6);
    assert_eq!(rt;
        grid.rect(4),
        Rect {
            x: 16,
            y: 8,
            w: 16,
            h: 8
        }
    );
    assert_eq!(rt; grid.format(), format(768, 256, Chroma::C400));
}

#[test]
fn tiles_of_a_cut_frame(rt: HostRuntime) {
    let format = format(1920, 1080, Chroma::C422);
    let (width, height) = default_tile(&format);
    assert_eq!(rt; (width, height), (16, 16));
    let grid = grid(&rt, &format, width, height);
    assert_eq!(rt; grid.tiles(), 40);
    assert_eq!(rt;
        grid.rect(39),
        Rect {
            x: 112,
            y: 64,
            w: 8,
            h: 4
        }
    );
    assert_eq!(rt; (grid.blocks(39, 0), grid.blocks(39, 1)), (128, 64));
}

#[test]
fn a_frame_of_one_tile(rt: HostRuntime) {
    let grid = grid(&rt, &format(18, 18, Chroma::C422), 16, 8);
    assert_eq!(rt; grid.tiles(), 1);
    assert_eq!(rt;
        grid.rect(0),
        Rect {
            x: 0,
            y: 0,
            w: 2,
            h: 2
        }
    );
    assert_eq!(rt;
        (grid.blocks(0, 0), grid.blocks(0, 1), grid.blocks(0, 2)),
        (16, 8, 8)
    );
}

#[test]
fn refused_sizes_of_tiles(rt: HostRuntime) {
    let small = format(16, 16, Chroma::C400);
    let wide = format(5136, 16, Chroma::C400);
    assert_eq!(rt; Grid::of(&small, 15, 8), Err(Rule::V16));
    assert_eq!(rt; Grid::of(&small, 16, 7), Err(Rule::V16));
    assert_eq!(rt; Grid::of(&wide, 16, 8), Err(Rule::V17));
    assert_eq!(rt; Grid::of(&wide, 16, 7), Err(Rule::V16));
}

#[test]
fn default_sizes_of_tiles(rt: HostRuntime) {
    assert_eq!(rt; default_tile(&format(16, 16, Chroma::C400)), (16, 16));
    assert_eq!(rt; default_tile(&format(8192, 16, Chroma::C400)), (26, 16));
}

/// A value for each sample.
fn value(comp: u8, x: u32, y: u32) -> u16 {
    ((u64::from(comp) * 7919 + u64::from(y) * 263 + u64::from(x)) % 65521) as u16
}

/// Writes each visible sample of a row by itself.
fn fill_row(frame: &mut Frame, comp: u8, y: u32)
    requires comp { comp < comps_of frame.old.grid.format.chroma }
    requires y { y < frame.old.grid.format.height }
    ensures { frame.new.grid ≡ frame.old.grid }
{
    for x in 0..frame.width(comp) {
        frame.put_row(comp, x, y, &[value(comp, x, y)]);
    }
}

fn fill_component(frame: &mut Frame, comp: u8)
    requires { comp < comps_of frame.old.grid.format.chroma }
    ensures { frame.new.grid ≡ frame.old.grid }
{
    for y in 0..frame.height(comp) {
        fill_row(frame, comp, y);
    }
}

/// Writes each visible sample.
fn fill(frame: &mut Frame)
    ensures { frame.new.grid ≡ frame.old.grid }
{
    for comp in 0..frame.grid().format().chroma.comps() {
        fill_component(frame, comp);
    }
}

/// Whether the visible samples of a row are those that `fill` writes.
fn is_row_filled(frame: &Frame, comp: u8, y: u32) -> bool
    requires comp { comp < comps_of frame.now.grid.format.chroma }
    requires y { y < frame.now.grid.format.height }
{
    let mut buffer = [0; 768];
    let width = frame.width(comp);
    if width > 768 {
        return false;
    }
    let row = &mut buffer[..width as usize];
    frame.row_into(comp, 0, y, row);
    (0u32..)
        .zip(row.iter())
        .all(|(x, sample)| *sample == value(comp, x, y))
}

/// Whether the visible samples of a component are those that `fill` writes.
fn is_filled(frame: &Frame, comp: u8) -> bool {
    if comp >= frame.grid().format().chroma.comps() {
        return false;
    }
    (0..frame.height(comp)).all(|y| is_row_filled(frame, comp, y))
}

/// Whether three rows of a component from the row `y` on, which are in one row of blocks, are those that `fill` writes.
fn are_rows_filled(frame: &Frame, comp: u8, y: u32) -> bool {
    if comp >= frame.grid().format().chroma.comps() {
        return false;
    }
    if y > frame.height(comp).saturating_sub(3) || y % 8 > 5 || frame.height(comp) < 3 {
        return false;
    }
    let mut buffer = [0; 2304];
    let width = frame.width(comp);
    if width == 0 || width > 768 {
        return false;
    }
    let rows = &mut buffer[..3 * width as usize];
    frame.rows_into(comp, y, 3, rows);
    (0u32..).zip(rows.iter()).all(|(n, sample)| *sample
        == value(comp, n % width, y.wrapping_add(n / width)))
}

/// A sample, where it is in the filled area.
fn sample(frame: &Frame, comp: u8, x: u32, y: u32) -> Option<u16> {
    let grid = frame.grid();
    if comp >= grid.format().chroma.comps() {
        return None;
    }
    if x >= grid.filled_width(comp) {
        return None;
    }
    if y >= grid.filled_height() {
        return None;
    }
    Some(frame.sample(comp, x, y))
}

/// A value of a part, where there is one.
fn in_part(frame: &Frame, tile: u32, comp: u8, number: usize) -> Option<u16> {
    let grid = frame.grid();
    if tile >= grid.tiles() {
        return None;
    }
    if comp >= grid.format().chroma.comps() {
        return None;
    }
    frame.part(tile, comp).get(number).copied()
}

fn frame(rt: &impl Abort, alloc: Global, format: &Format) -> Frame
    requires sound { IsSoundFormat format.now }
    ensures { result.grid ≡ grid_with format.now 16 8 }
{
    let grid = grid(rt, format, 16, 8);
    let mut frame = Frame::new(alloc, &grid).expect(rt, "memory");
    fill(&mut frame);
    frame
}

#[test]
fn parts_with_chroma_of_half_the_width(rt: HostRuntime) {
    let frame = frame(&rt, rt.alloc(), &format(18, 18, Chroma::C422));
    assert!(rt; is_filled(&frame, 0) && is_filled(&frame, 1) && is_filled(&frame, 2));
    // the block to the right of the first, the one below it, and the next macroblock
    assert_eq!(rt; in_part(&frame, 0, 0, 64), Some(value(0, 8, 0)));
    assert_eq!(rt;
        in_part(&frame, 0, 0, 128 + 8 * 7 + 3),
        Some(value(0, 3, 15))
    );
    assert_eq!(rt; in_part(&frame, 0, 0, 256), Some(value(0, 16, 0)));
    assert_eq!(rt; in_part(&frame, 0, 1, 64), Some(value(1, 0, 8)));
    assert_eq!(rt; in_part(&frame, 0, 2, 3 * 64), Some(value(2, 8, 8)));
    assert_eq!(rt;
        (in_part(&frame, 0, 0, 1024), in_part(&frame, 0, 2, 512)),
        (None, None)
    );
}

#[test]
fn samples_beside_and_below_the_visible_ones(rt: HostRuntime) {
    let mut frame = frame(&rt, rt.alloc(), &format(18, 18, Chroma::C422));
    assert_eq!(rt; sample(&frame, 0, 18, 0), Some(0));
    frame.pad();
    assert_eq!(rt; sample(&frame, 0, 31, 31), Some(value(0, 17, 17)));
    assert_eq!(rt; sample(&frame, 0, 18, 5), Some(value(0, 17, 5)));
    assert_eq!(rt; sample(&frame, 0, 3, 18), Some(value(0, 3, 17)));
    assert_eq!(rt; sample(&frame, 1, 15, 31), Some(value(1, 8, 17)));
    assert_eq!(rt; sample(&frame, 2, 9, 2), Some(value(2, 8, 2)));
    assert!(rt; is_filled(&frame, 0) && is_filled(&frame, 1) && is_filled(&frame, 2));
}

#[test]
fn a_row_over_three_tiles(rt: HostRuntime) {
    let mut frame = frame(&rt, rt.alloc(), &format(768, 256, Chroma::C400));
    assert!(rt; is_filled(&frame, 0));
    assert_eq!(rt; in_part(&frame, 4, 0, 0), Some(value(0, 256, 128)));
    assert_eq!(rt; in_part(&frame, 5, 0, 32767), Some(value(0, 767, 255)));
    frame.put_row(0, 251, 130, &[7; 300]);
    assert_eq!(rt;
        (sample(&frame, 0, 251, 130), sample(&frame, 0, 550, 130)),
        (Some(7), Some(7))
    );
    assert_eq!(rt; sample(&frame, 0, 250, 130), Some(value(0, 250, 130)));
    assert_eq!(rt; sample(&frame, 0, 551, 130), Some(value(0, 551, 130)));
    assert_eq!(rt; sample(&frame, 0, 512, 131), Some(value(0, 512, 131)));
}

#[test]
fn rows_of_a_row_of_blocks(rt: HostRuntime) {
    let small = frame(&rt, rt.alloc(), &format(18, 18, Chroma::C422));
    assert!(rt; (0..3).all(|comp| are_rows_filled(&small, comp, 0)));
    assert!(rt; (0..3).all(|comp| are_rows_filled(&small, comp, 13)));
    assert_eq!(rt; are_rows_filled(&small, 0, 16), false);
    let wide = frame(&rt, rt.alloc(), &format(766, 256, Chroma::C400));
    assert!(rt; are_rows_filled(&wide, 0, 133));
}

#[test]
fn four_components(rt: HostRuntime) {
    let mut frame = frame(&rt, rt.alloc(), &format(272, 24, Chroma::C4444));
    frame.pad();
    assert!(rt; (0..4).all(|comp| is_filled(&frame, comp)));
    assert_eq!(rt; in_part(&frame, 1, 3, 0), Some(value(3, 256, 0)));
    assert_eq!(rt; in_part(&frame, 1, 3, 2 * 64), Some(value(3, 256, 8)));
    assert_eq!(rt; sample(&frame, 3, 271, 31), Some(value(3, 271, 23)));
}

/// Sets all values by the slice that is lent.
fn set_all(blocks: &mut Blocks, value: i16)
    ensures grid { blocks.new.grid ≡ blocks.old.grid }
    ensures values { blocks.new.values ≡ replicate (length blocks.old.values) value }
{
    let Pieces { values, .. } = blocks.pieces();
    values.fill(value);
}

/// The last value of the last component of the last tile.
fn last(blocks: &Blocks) -> Option<i16> {
    let grid = blocks.grid();
    let comps = grid.format().chroma.comps();
    let part = blocks.part(grid.tiles() - 1, comps - 1);
    part.last().copied()
}

#[test]
fn values_are_lent(rt: HostRuntime) {
    let grid = grid(&rt, &format(768, 256, Chroma::C422), 16, 8);
    let mut blocks = Blocks::new(rt.alloc(), &grid).expect(&rt, "memory");
    assert_eq!(rt; last(&blocks), Some(0));
    set_all(&mut blocks, -5);
    assert_eq!(rt; last(&blocks), Some(-5));
}
