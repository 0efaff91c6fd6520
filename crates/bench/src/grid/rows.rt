//! The pieces of work that are timed.

ghost use Rattle.std.specs.Prelude.{◌≡◌, ◌<◌, IfOk};
ghost use Rattle.apv_base.specs.model.Format.{IsSoundFormat, comps_of};

use apv_base::{Chroma, Format};
use apv_grid::{Frame, Grid, default_tile};
use std::alloc::{AllocError, Global};

/// A frame of 1920x1080 samples in 4:2:2 and 10 bits, with tiles of 16 by 16 macroblocks.
pub fn frame(alloc: Global) -> Result<Frame, AllocError>
    ensures { IfOk result (λ frame. IsSoundFormat frame.grid.format) }
{
    let format = Format {
        width: 1920,
        height: 1080,
        chroma: Chroma::C422,
        depth: 10,
    };
    let (width, height) = default_tile(&format);
    match Grid::of(&format, width, height) {
        Ok(grid) => Frame::new(alloc, &grid),
        Err(_) => unreachable!(),
    }
}

/// Copies each visible row of a component out, and sums the first sample of each.
pub fn component_out(frame: &Frame, comp: u8) -> u64
    requires { comp < comps_of frame.now.grid.format.chroma }
{
    let mut buffer = [0; 1920];
    let width = u32::min(frame.width(comp), 1920);
    let row = &mut buffer[..width as usize];
    let mut sum: u64 = 0;
    for y in 0..frame.height(comp) {
        frame.row_into(comp, 0, y, row);
        sum = sum.wrapping_add(u64::from(row.first().copied().unwrap_or(0)));
    }
    sum
}

/// Writes each visible row of a component, of a number that goes up by one from row to row.
fn component_in(frame: &mut Frame, comp: u8, first: u16)
    requires { comp < comps_of frame.old.grid.format.chroma }
    ensures { frame.new.grid ≡ frame.old.grid }
{
    let width = u32::min(frame.width(comp), 1920);
    for y in 0..frame.height(comp) {
        let row = [first.wrapping_add((y % 1024) as u16); 1920];
        frame.put_row(comp, 0, y, &row[..width as usize]);
    }
}

/// Copies all visible rows out, n times, and sums samples of them.
#[inline(never)]
pub fn rows_out(frame: &Frame, rounds: u32) -> u64 {
    let mut sum: u64 = 0;
    for _round in 0..rounds {
        for comp in 0..frame.grid().format().chroma.comps() {
            sum = sum.wrapping_add(component_out(frame, comp));
        }
    }
    sum
}

/// Writes all visible rows, of a number that goes up by one from row to row.
pub fn frame_in(frame: &mut Frame, first: u16)
    ensures { frame.new.grid ≡ frame.old.grid }
{
    for comp in 0..frame.grid().format().chroma.comps() {
        component_in(frame, comp, first);
    }
}

/// Writes all visible rows, n times, and gives a sample of them.
#[inline(never)]
pub fn rows_in(frame: &mut Frame, rounds: u32) -> u64 {
    for round in 0..rounds {
        frame_in(frame, (round % 1024) as u16);
    }
    last_value(frame)
}

/// Pads the frame, n times, and gives a sample of it.
#[inline(never)]
pub fn pad(frame: &mut Frame, rounds: u32) -> u64 {
    for _round in 0..rounds {
        frame.pad();
    }
    last_value(frame)
}

/// The last value of the first component of the last tile.
fn last_value(frame: &Frame) -> u64 {
    frame
        .part(frame.grid().tiles() - 1, 0)
        .last()
        .map_or(0, |sample| u64::from(*sample))
}
