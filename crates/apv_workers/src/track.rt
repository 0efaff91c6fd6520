//! The pictures of one slot, on their way to coded tiles.
ghost use Rattle.std.specs.Prelude.{◌≡◌, ◌<◌, ◌≤◌, ◌+ℤ◌, length, slice_index, slice_index_or};
ghost use Rattle.std.specs.Prelude.{IfOk, pos, negsuc, ◌≤ℤ◌};
ghost use Rattle.std.specs.Borrow.{Lends, sem};
ghost use Rattle.apv_base.specs.model.Format.{IsDepth};
ghost use Rattle.apv_base.specs.model.Grid.{tile_count};
ghost use Rattle.apv_base.specs.model.Header.{IsSoundHeader, grid_of, header_comps, flat};
ghost use Rattle.apv_base.specs.model.Quant.{max_qp, qp_with};
ghost use Rattle.apv_grid.specs.contracts.frame.Frame.{the_row as frame_row};
ghost use Rattle.apv_tile.specs.Laws.{IsScaleOf};
ghost use Rattle.apv_workers.specs.Track.{new_track, with_frame, length_place};
ghost use Rattle.apv_workers.specs.TrackFields.{IsHead, head_qps};
ghost use Rattle.apv_workers.specs.contracts.track.Track.{the_row};

use apv_base::{Format, FrameHeader, qp_max};
use apv_grid::{Blocks, Frame, Grid};
use apv_quant::Scale;
use std::alloc::{AllocError, Global};
use std::marker::Model;

/// The header of the frames of a track, and the QPs of their tiles.
#[derive(Drop)]
pub(crate) struct TrackHead {
    pub header: FrameHeader,
    pub grid: Grid,
    pub offsets: [i8; 4],
    pub tile_offsets: Vec<i8>,
    pub q: u8,
}

/// The offset of the QP of a component of a tile: those of the component and of the tile together.
fn both_offsets(offset: i8, tile_offset: i8) -> i16
    ensures sum { result ≡ offset +ℤ tile_offset }
    ensures low { negsuc 255 ≤ℤ result }
    ensures high { result ≤ℤ pos 254 }
{
    i16::from(offset) + i16::from(tile_offset)
}

/// A QP with an offset of -256 to 254, kept between 0 and the maximum of the bit depth.
fn offset_qp(q: u8, offset: i16, depth: u8) -> u8
    requires depth { IsDepth depth }
    requires low { negsuc 255 ≤ℤ offset }
    requires high { offset ≤ℤ pos 254 }
    ensures is { result ≡ qp_with q offset depth }
    ensures few { result ≤ max_qp depth }
{
    let sum = i16::from(q) + offset;
    sum.clamp(0, i16::from(qp_max(depth))) as u8
}

impl TrackHead {
    /// The QP of a component of a tile (`tile_qp`).
    pub fn qp(&self, tile: u32, comp: u8) -> u8
        requires head { IsHead self.now }
        requires tile { tile < tile_count (grid_of self.now.header) }
        requires comp { comp < header_comps self.now.header }
        ensures is { result ≡ head_qps self.now tile comp }
        ensures few { result ≤ max_qp self.now.header.info.depth }
    {
        let offset = self.offsets[comp as usize];
        let tile_offset = self.tile_offsets[tile as usize];
        let both = both_offsets(offset, tile_offset);
        offset_qp(self.q, both, self.header.info.depth)
    }

    /// The scale of a component of a tile.
    pub fn scale(&self, tile: u32, comp: u8) -> Scale
        requires head { IsHead self.now }
        requires tile { tile < tile_count (grid_of self.now.header) }
        requires comp { comp < header_comps self.now.header }
        ensures { let matrix = slice_index_or self.now.header.matrices comp flat in
            let depth = self.now.header.info.depth in
            IsScaleOf matrix (head_qps self.now tile comp) depth result }
    {
        let matrix = &self.header.matrices[comp as usize];
        Scale::of(matrix, self.qp(tile, comp), self.header.info.depth)
    }
}

/// The pictures of one slot on their way to coded tiles: the header of their frames, offsets of QPs, and memory for the
/// samples, the coefficients, the levels and the lengths of the data of one frame, which is used again for the next.
///
/// The offset of a component is for all its tiles. The QP of a component of a tile (`tile_qp`) is that of the levels
/// with both offsets, kept between 0 and the maximum of the bit depth.
#[derive(Drop)]
pub struct Track {
    pub(crate) head: TrackHead,
    pub(crate) frame: Frame,
    pub(crate) coeffs: Blocks,
    pub(crate) levels: Blocks,
    pub(crate) lengths: Vec<u32>,
}

impl Model for Track {
    ghost use Rattle.apv_workers.specs.Track.{TrackState};
    ghost use Rattle.apv_workers.specs.TrackFields.{IsTrack};

    ghost Value = { TrackState };

    ghost view = { λ t. record {
      header = t.head.header;
      offsets = t.head.offsets;
      tile_offsets = t.head.tile_offsets.items;
      frame = t.frame;
      coeffs = t.coeffs.values;
      levels = t.levels.values;
      lengths = t.lengths.items;
      q = t.head.q;
    } };

    ghost invariant = { λ t. IsTrack t.head t.coeffs t.levels t.lengths.items };
}

impl Track {
    /// A track of a sound header, with the offset of the QPs of each component. It takes all the memory that the works on
    /// its tiles need, or fails where too little is left.
    pub fn new(alloc: Global, header: &FrameHeader, offsets: [i8; 4]) -> Result<Track, AllocError>
        requires { IsSoundHeader header.now }
        ensures { IfOk result (λ track. track ≡ new_track header.now offsets) }
    {
        let info = &header.info;
        let format = Format {
            width: info.width,
            height: info.height,
            chroma: info.chroma,
            depth: info.depth,
        };
        let Ok(grid) = Grid::of(&format, header.tile_width, header.tile_height) else {
            unreachable!()
        };
        let tiles = grid.tiles() as usize;
        let head = TrackHead {
            header: *header,
            grid,
            offsets,
            tile_offsets: vec![in alloc; 0; tiles]?,
            q: 0,
        };
        Ok(Track {
            head,
            frame: Frame::new(alloc, &grid)?,
            coeffs: Blocks::new(alloc, &grid)?,
            levels: Blocks::new(alloc, &grid)?,
            lengths: vec![in alloc; 0; 4 * tiles]?,
        })
    }

    /// The header of the frames.
    pub fn header(&self) -> &FrameHeader
        ensures header { result.now ≡ self.now.header }
        ensures sound { IsSoundHeader self.now.header }
    {
        &self.head.header
    }

    /// The grid of the frames.
    pub fn grid(&self) -> &Grid
        ensures { result.now ≡ grid_of self.now.header }
    {
        &self.head.grid
    }

    /// The QP of the levels: that of the last `quantise_tiles`, and 0 at first.
    pub fn qp(&self) -> u8
        ensures { result ≡ self.now.q }
    {
        self.head.q
    }

    /// The samples.
    pub fn frame(&self) -> &Frame
        ensures { result.now ≡ self.now.frame }
    {
        &self.frame
    }

    /// The samples, to be set. At first the frame has the grid of the header; the works ask that it has it again.
    pub fn frame_mut(&mut self) -> &mut Frame
        ensures* lends { sem 𝓛 (Lends the_row frame_row self.entry result
            (with_frame self.old)) }
        ensures frame { result.now ≡ self.old.frame }
    {
        &mut self.frame
    }

    /// The number of bytes of the data of a component of a tile (`tile_data_size`): that of the levels at the last
    /// `len_tiles`, and 0 at first.
    pub fn data_len(&self, tile: u32, comp: u8) -> u64
        requires tile { tile < tile_count (grid_of self.now.header) }
        requires comp { comp < 4 }
        ensures { result ≡ slice_index self.now.lengths (length_place tile comp) }
    {
        u64::from(self.lengths[4 * tile as usize + usize::from(comp)])
    }

    /// Sets the offset of the QPs of each tile, tile after tile. At first all are 0.
    pub fn set_tile_offsets(&mut self, offsets: &[i8])
        requires { length offsets.now ≡ tile_count (grid_of self.old.header) }
        ensures { self.new ≡ record self.old { tile_offsets = offsets.now } }
    {
        self.head
            .tile_offsets
            .as_mut_slice()
            .copy_from_slice(offsets);
    }
}
