//! The tiles of a frame, decoded.
ghost use Rattle.std.specs.Prelude.{◌≡◌, ℕ, ◌+◌, ◌*◌, ◌^◌, ◌<◌, ◌≤◌, length, take, slice_index};
ghost use Rattle.std.specs.Prelude.{OnOk, IfErr};
ghost use Rattle.std.specs.List.{AllByRecursion, sum};
ghost use Rattle.apv_base.specs.model.CodedFrame.{component_data, tile_at};
ghost use Rattle.apv_base.specs.model.Component.{ComponentBreaks};
ghost use Rattle.apv_base.specs.model.Format.{comps_of, IsDepth};
ghost use Rattle.apv_base.specs.model.Grid.{tile_count, block_count};
ghost use Rattle.apv_base.specs.model.Header.{header_comps, grid_of};
ghost use Rattle.apv_base.specs.model.Judge.{ContentBreaks};
ghost use Rattle.apv_base.specs.model.Run.{MAX_UNIT};
ghost use Rattle.apv_base.specs.model.Tile.{tile_header_size};
ghost use Rattle.apv_grid.specs.Buffer.{tile_start, tile_value_count};
ghost use Rattle.apv_header.specs.Read.{IsReadFrom};
ghost use Rattle.apv_header.specs.Tiles.{AreTilesOf, tile_of_entry};
ghost use Rattle.apv_workers.specs.Decode.{frame_read, IsDecoded, break_of};
ghost use Rattle.apv_workers.specs.Decode.{IsDecodedPart, component_values};
ghost use Rattle.apv_workers.specs.Decode.{Fits, HasQps, WereRead};
ghost use Rattle.apv_workers.specs.TileDecoding.{coded_by, is_ready, is_sound, breaks_first};
ghost use Rattle.apv_workers.specs.TileDecoding.{is_done};

use crate::crew::Crew;
use crate::gate::Gate;
use crate::run::{ComponentBreak, ContentBreak, TileRun, TileWork};
use apv_base::Rule;
use apv_grid::laws::block_of_a_sample;
use apv_grid::{Frame, Grid, Pieces};
use apv_header::{HeaderRead, TileEntry, TileTable};
use apv_quant::{Scale, Scaling};
use apv_scan::StepTable;
use apv_tile::laws::samples_of_a_frame;
use apv_tile::{decode_component, decode_component_with};
use std::thread::Threads;

/// The bytes of the data of the components of a tile before one.
fn data_before(lengths: &[u32; 4], comp: u8) -> usize
    requires { comp ≤ 4 }
    ensures bytes { result ≡ sum (take comp lengths.now) }
    ensures few { result ≤ 2 ^ 34 }
{
    let mut total = 0;
    for before in 0..usize::from(comp) {
        total += lengths[before] as usize;
    }
    total
}

/// The data of a component of a tile: as many bytes of the body as the tile header states, after
/// the tile header and the data of the components before it.
fn component_bytes<'b>(body: &'b [u8], entry: &TileEntry, comps: u8, comp: u8) -> &'b [u8]
    requires comps { comps ≤ 4 }
    requires comp { comp < comps }
    requires fits { Fits body.now comps entry.now }
    ensures data { result.now ≡ component_data (tile_of_entry body.now comps entry.now) comp }
    ensures few { length result.now ≤ length body.now }
{
    let header = 5 * usize::from(comps) + 5;
    let start = entry.place as usize + header + data_before(&entry.lengths, comp);
    let (_, after) = body.split_at(start);
    let (bytes, _) = after.split_at(entry.lengths[comp as usize] as usize);
    bytes
}

/// Where the values of each tile of a grid begin, and the end of those of the last tile.
pub(crate) fn tile_cuts(grid: &Grid) -> [usize; 401]
    ensures len { length result ≡ 401 }
    ensures few { tile_count grid.now ≤ 400 }
    ensures each { (tile : ℕ) → tile ≤ tile_count grid.now
        → slice_index result tile ≡ tile_start grid.now tile }
{
    let mut cuts = [0; 401];
    for tile in 0..grid.tiles() + 1 {
        cuts[tile as usize] = grid.tile_start(tile);
    }
    cuts
}

/// A frame whose header and tiles were read from a body, and whose tiles are to be decoded.
#[derive(Drop)]
struct TileDecoding<'a> {
    body: &'a [u8],
    head: &'a HeaderRead,
    table: &'a TileTable,
    steps: Option<&'a StepTable>,
}

impl TileDecoding<'_> {
    /// The entry of a tile.
    fn entry(&self, tile: u32) -> &TileEntry
        requires read { WereRead self.now.body.now self.now.head.now self.now.table.now }
        requires tile { tile < tile_count self.now.head.now.grid }
        ensures tile { let coded = coded_by self.now in
            let comps = header_comps self.now.head.now.header in
            tile_at coded tile ≡ tile_of_entry self.now.body.now comps result.now }
        ensures fits { Fits self.now.body.now (header_comps self.now.head.now.header) result.now }
        ensures qps { let header = self.now.head.now.header in
            HasQps (header_comps header) header.info.depth result.now }
    {
        &self.table.tiles[tile as usize]
    }

    /// Decodes a component of a tile into its samples.
    fn decode_component(&self, tile: u32, comp: u8, samples: &mut [u16]) -> Result<(), Rule>
        requires read { WereRead self.now.body.now self.now.head.now self.now.table.now }
        requires tile { tile < tile_count self.now.head.now.grid }
        requires comp { comp < header_comps self.now.head.now.header }
        requires samples { length samples.old ≡ 64 * block_count self.now.head.now.grid tile comp }
        ensures ok { let coded = coded_by self.now in
            OnOk result (IsDecodedPart coded tile comp samples.new) }
        ensures err { let coded = coded_by self.now in
            let blocks = block_count (grid_of coded.header) tile comp in
            let bytes = component_data (tile_at coded tile) comp in
            IfErr result (λ rule. ComponentBreaks blocks bytes rule) }
    {
        samples_of_a_frame();
        let header = &self.head.header;
        let entry = self.entry(tile);
        let bytes = component_bytes(self.body, entry, header.info.chroma.comps(), comp);
        let matrix = &header.matrices[comp as usize];
        let qp = entry.qp[comp as usize];
        let depth = header.info.depth;
        match self.steps {
            Some(steps) => {
                let scaling = Scaling::of(matrix, qp, depth);
                decode_component_with(steps, bytes, &scaling, depth, samples)
            }
            None => decode_component(bytes, &Scale::of(matrix, qp, depth), depth, samples),
        }
    }

    /// Decodes a component of a tile into its samples, out of those of the tile. The samples of the
    /// components before it stay.
    fn decode_part(&self, tile: u32, comp: u8, part: &mut [u16]) -> Result<(), Rule>
        requires read { WereRead self.now.body.now self.now.head.now self.now.table.now }
        requires tile { tile < tile_count self.now.head.now.grid }
        requires comp { comp < header_comps self.now.head.now.header }
        requires part { length part.old ≡ tile_value_count self.now.head.now.grid tile }
        ensures ok { let coded = coded_by self.now in
            let grid = grid_of coded.header in
            OnOk result (IsDecodedPart coded tile comp (component_values grid tile comp part.new)) }
        ensures err { let coded = coded_by self.now in
            let blocks = block_count (grid_of coded.header) tile comp in
            let bytes = component_data (tile_at coded tile) comp in
            IfErr result (λ rule. ComponentBreaks blocks bytes rule) }
        ensures others { let grid = grid_of self.now.head.now.header in
            let values = component_values grid tile in
            (other : ℕ) → other < comp → values other part.new ≡ values other part.old }
    {
        let start = self.head.grid.values_before(tile, comp);
        let size = 64 * self.head.grid.blocks(tile, comp) as usize;
        let (_, after) = part.split_at_mut(start);
        let (samples, _) = after.split_at_mut(size);
        self.decode_component(tile, comp, samples)
    }
}

impl TileWork<u16> for TileDecoding<'_> {
    ghost ready = { is_ready };

    ghost sound = { is_sound };

    ghost breaks = { breaks_first };

    ghost done = { is_done };

    fn work(&self, tile: u32, part: &mut [u16]) -> Result<(), ComponentBreak> {
        for comp in 0..self.head.header.info.chroma.comps() {
            match self.decode_part(tile, comp, part) {
                Ok(()) => {}
                Err(rule) => return Err(ComponentBreak { comp, rule }),
            }
        }
        Ok(())
    }
}

/// Decodes the tiles of a frame (`tile()`): of each tile the data of each component, with the
/// component's quantisation matrix, `q_matrix`, and the tile's QP, `tile_qp`, into the frame's
/// samples. The result is the same for every number of workers.
///
/// The header and the tiles were read from the body, of at most 536,870,912 bytes, and the frame
/// has the header's grid. The refusal is `V27` to `V31`, by the first tile that breaks a rule, and
/// of its components the first; after it nothing is said of the samples.
pub fn decode_tiles<R: Threads + Sync, G: Gate>(
    crew: &Crew<'_, R, G>,
    body: &[u8],
    head: &HeaderRead,
    table: &TileTable,
    frame: &mut Frame,
) -> Result<(), ContentBreak>
    requires small { length body.now ≤ MAX_UNIT }
    requires header { IsReadFrom body.now head.now }
    requires tiles { AreTilesOf body.now head.now table.now }
    requires grid { frame.old.grid ≡ head.now.grid }
    ensures ok { OnOk result (IsDecoded (frame_read body.now head.now table.now) frame.new) }
    ensures err { IfErr result (λ at. ContentBreaks
        (frame_read body.now head.now table.now) (break_of at)) }
    ensures grid { frame.new.grid ≡ frame.old.grid }
{
    block_of_a_sample();
    let work = TileDecoding {
        body,
        head,
        table,
        steps: crew.steps(),
    };
    let cuts = tile_cuts(&head.grid);
    let Pieces {
        first,
        count,
        values,
        ..
    } = frame.pieces();
    let tiles = TileRun {
        cuts: &cuts,
        first,
        count,
    };
    crew.work(&work, tiles, values)
}
