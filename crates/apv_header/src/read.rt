//! The header of a frame (`frame_header()`), read.
ghost use Rattle.std.specs.Prelude.{◌≡◌, ◌≤◌, ◌<◌, ◌+◌, ◌^◌, ◌%◌, [], None, true, false};
ghost use Rattle.std.specs.Prelude.{length, IfSome, IfOk, OnOk, IfErr};
ghost use Rattle.apv_base.specs.model.Bits.{padding};
ghost use Rattle.apv_base.specs.model.Format.{IsSoundFormat};
ghost use Rattle.apv_base.specs.model.Grid.{tile_count, grid_with, tile_rule};
ghost use Rattle.apv_base.specs.model.Header.{grid_of, IsSoundColour, IsSoundHeader};
ghost use Rattle.apv_base.specs.model.Run.{MAX_UNIT};
ghost use Rattle.apv_header.specs.Parts.{HasDescription, DescriptionBreaks, HasColour, ColourBreaks};
ghost use Rattle.apv_header.specs.Parts.{HasGrid, GridBreaks, HasTileSizes, TileSizesBreak, HasSizes, SizesBreak};
ghost use Rattle.apv_header.specs.Parts.{HasAlignment, AlignmentBreaks, HasPrefix, PrefixBreaks};
ghost use Rattle.apv_header.specs.Read.{IsReadFrom, FrameHeaderBreaks};

use crate::fields::{read_byte, read_field, read_flag, read_reserved};
use crate::head::HeaderRead;
use crate::info::read_info;
use crate::matrices::read_matrices;
use apv_base::{Colour, Format, FrameHeader, HeadEnd, Rule};
use apv_bits::BitReader;
use apv_grid::Grid;
use arrayvec::ArrayVec;

/// `color_primaries`, `transfer_characteristics`, `matrix_coefficients` and `full_range_flag`.
fn read_description(reader: &mut BitReader<'_>) -> Result<Colour, HeadEnd>
    ensures ok { IfOk result (λ colour. HasDescription reader.old colour reader.new) }
    ensures err { IfErr result (λ end. DescriptionBreaks reader.old end) }
{
    let primaries = read_byte(reader)?;
    let transfer = read_byte(reader)?;
    let matrix = read_byte(reader)?;
    let full_range = read_flag(reader)?;
    Ok(Colour {
        primaries,
        transfer,
        matrix,
        full_range,
    })
}

/// `color_description_present_flag`, and the colour description where it is 1.
fn read_colour(reader: &mut BitReader<'_>) -> Result<Option<Colour>, HeadEnd>
    ensures ok { IfOk result (λ colour. HasColour reader.old colour reader.new) }
    ensures sound { IfOk result (λ colour. IfSome colour IsSoundColour) }
    ensures err { IfErr result (λ end. ColourBreaks reader.old end) }
{
    let present = read_flag(reader)?;
    if !present {
        return Ok(None);
    }
    let colour = read_description(reader)?;
    Ok(Some(colour))
}

/// `tile_width_in_mbs` and `tile_height_in_mbs`, and the grid of such tiles. V16 and V17 at the height.
fn read_grid(reader: &mut BitReader<'_>, format: &Format) -> Result<(u32, u32, Grid), HeadEnd>
    requires { IsSoundFormat format.now }
    ensures ok { IfOk result (λ tiles. HasGrid format.now reader.old tiles reader.new) }
    ensures width { IfOk result (λ tiles. tiles.0 < 2 ^ 20) }
    ensures height { IfOk result (λ tiles. tiles.1 < 2 ^ 20) }
    ensures grid { IfOk result (λ tiles. tiles.2 ≡ grid_with format.now tiles.0 tiles.1) }
    ensures sound { IfOk result (λ tiles. tile_rule (grid_with format.now tiles.0 tiles.1) ≡ None) }
    ensures err { IfErr result (λ end. GridBreaks format.now reader.old end) }
{
    let tile_width = read_field(reader, 20)?;
    let tile_height = read_field(reader, 20)?;
    match Grid::of(format, tile_width, tile_height) {
        Ok(grid) => Ok((tile_width, tile_height, grid)),
        Err(rule) => Err(HeadEnd::Rule(rule)),
    }
}

/// N sizes of tiles (`tile_size_in_fh`).
fn read_tile_sizes(reader: &mut BitReader<'_>, count: u32) -> Result<ArrayVec<u32, 400>, HeadEnd>
    requires { count ≤ 400 }
    ensures ok { IfOk result (λ sizes. HasTileSizes count reader.old sizes.items reader.new) }
    ensures count { IfOk result (λ sizes. length sizes.items ≡ count) }
    ensures err { IfErr result (λ end. TileSizesBreak count reader.old end) }
{
    let mut sizes = ArrayVec::new();
    for _tile in 0..count {
        let size = read_field(reader, 32)?;
        sizes.push(size);
    }
    Ok(sizes)
}

/// `tile_size_present_in_fh_flag`, and one size for each tile where it is 1.
fn read_sizes(reader: &mut BitReader<'_>, count: u32) -> Result<(bool, ArrayVec<u32, 400>), HeadEnd>
    requires { count ≤ 400 }
    ensures ok { IfOk result (λ read. HasSizes count reader.old read.0 read.1.items reader.new) }
    ensures present { IfOk result (λ read. read.0 ≡ true → length read.1.items ≡ count) }
    ensures absent { IfOk result (λ read. read.0 ≡ false → read.1.items ≡ []) }
    ensures err { IfErr result (λ end. SizesBreak count reader.old end) }
{
    let present = read_flag(reader)?;
    if !present {
        return Ok((false, ArrayVec::new()));
    }
    let sizes = read_tile_sizes(reader, count)?;
    Ok((true, sizes))
}

/// The alignment bits up to the next whole byte (`byte_alignment()`). V19 where one of them is 1.
fn read_alignment(reader: &mut BitReader<'_>) -> Result<(), HeadEnd>
    requires { (length reader.old.left + reader.old.place) % 8 ≡ 0 }
    ensures ok { OnOk result (HasAlignment (padding reader.old.place) reader.old reader.new) }
    ensures err { IfErr result (λ end. AlignmentBreaks (padding reader.old.place) reader.old end) }
{
    match reader.align() {
        Ok(()) => Ok(()),
        Err(_) => Err(HeadEnd::Rule(Rule::V19)),
    }
}

/// The fields of `frame_header()` before the alignment bits, with the grid and the sizes of the tiles.
fn read_fields(
    reader: &mut BitReader<'_>,
) -> Result<(FrameHeader, Grid, ArrayVec<u32, 400>), HeadEnd>
    ensures ok { IfOk result (λ read. HasPrefix reader.old read.0 read.2.items reader.new) }
    ensures sound { IfOk result (λ read. IsSoundHeader read.0) }
    ensures grid { IfOk result (λ read. read.1 ≡ grid_of read.0) }
    ensures present { IfOk result (λ read. read.0.sizes_present ≡ true
        → length read.2.items ≡ tile_count (grid_of read.0)) }
    ensures absent { IfOk result (λ read. read.0.sizes_present ≡ false → read.2.items ≡ []) }
    ensures err { IfErr result (λ end. PrefixBreaks reader.old end) }
{
    let info = read_info(reader)?;
    read_reserved(reader, 8)?;
    let colour = read_colour(reader)?;
    let (use_matrix, matrices) = read_matrices(reader, info.chroma)?;
    let (tile_width, tile_height, grid) = read_grid(reader, &info.format())?;
    let (sizes_present, sizes) = read_sizes(reader, grid.tiles())?;
    read_reserved(reader, 8)?;
    let header = FrameHeader {
        info,
        colour,
        use_matrix,
        matrices,
        tile_width,
        tile_height,
        sizes_present,
    };
    Ok((header, grid, sizes))
}

/// Reads the header (`frame_header()`) at the start of a frame's body, which has at most 536,870,912 bytes (limit
/// L1). Else returns the first fault from the left: V8 where the body ends inside a field; in `frame_info()` those of
/// `read_frame_info`; V14 at a reserved field that isn't 0; V15 at a value of a matrix that is 0; V16 and then V17 at
/// `tile_height_in_mbs`; V19 at an alignment bit that isn't 0.
pub fn read_frame_header(body: &[u8]) -> Result<HeaderRead, HeadEnd>
    requires { length body.now ≤ MAX_UNIT }
    ensures ok { IfOk result (λ head. IsReadFrom body.now head) }
    ensures err { IfErr result (λ end. FrameHeaderBreaks body.now end) }
{
    let mut reader = BitReader::new(body);
    let (header, grid, sizes) = read_fields(&mut reader)?;
    read_alignment(&mut reader)?;
    let len = (reader.place() / 8) as u32;
    Ok(HeaderRead {
        header,
        grid,
        sizes,
        len,
    })
}
