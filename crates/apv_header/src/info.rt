//! The format and profile of a frame (`frame_info()`), read.
ghost use Rattle.std.specs.Prelude.{◌≡◌, ◌≤◌, ◌<◌, ◌^◌, ◌*◌, Some, None, true, IfOk, OnOk, IfErr};
ghost use Rattle.apv_base.specs.model.Format.{parts, IsDepth};
ghost use Rattle.apv_base.specs.model.Header.{IsSoundInfo};
ghost use Rattle.apv_base.specs.model.Profile.{is_readable};
ghost use Rattle.apv_bits.specs.Reader.{Takes};
ghost use Rattle.apv_header.specs.Info.{HasProfile, ProfileBreaks, HasProfileLevelBand, ProfileLevelBandBreaks};
ghost use Rattle.apv_header.specs.Info.{size_fault, HasChroma, ChromaBreaks, HasFrameSize, FrameSizeBreaks};
ghost use Rattle.apv_header.specs.Info.{HasDepth, DepthBreaks, HasInfo, InfoBreaks};
ghost use Rattle.apv_header.specs.Info.{frame_info_word, HasFrameInfo, FrameInfoBreaks};

use crate::fields::{read_byte, read_field, read_reserved};
use apv_base::{
    Chroma, Format, FrameInfo, HeadEnd, MAX_MACROBLOCKS, Rule, profile_known, profile_takes,
};
use apv_bits::BitReader;

/// `profile_idc`. V9 where the profile isn't known.
fn read_profile(reader: &mut BitReader<'_>) -> Result<u8, HeadEnd>
    ensures ok { IfOk result (λ profile. HasProfile reader.old profile reader.new) }
    ensures err { IfErr result (λ end. ProfileBreaks reader.old end) }
{
    let profile = read_byte(reader)?;
    if !profile_known(profile) {
        return Err(HeadEnd::Rule(Rule::V9));
    }
    Ok(profile)
}

/// Tests the size of a frame: V11 where the width or height is 0 or the width odd with 4:2:2, and else `Wide` where
/// there are too many macroblocks.
fn check_frame_size(width: u32, height: u32, chroma: Chroma) -> Result<(), HeadEnd>
    requires width { width < 2 ^ 24 }
    requires height { height < 2 ^ 24 }
    ensures ok { OnOk result (size_fault width height chroma ≡ None) }
    ensures err { IfErr result (λ end. size_fault width height chroma ≡ Some end) }
{
    if width == 0 || height == 0 {
        return Err(HeadEnd::Rule(Rule::V11));
    }
    if chroma == Chroma::C422 && width % 2 == 1 {
        return Err(HeadEnd::Rule(Rule::V11));
    }
    let format = Format {
        width,
        height,
        chroma,
        depth: 0,
    };
    let count = format.macroblocks();
    if count > MAX_MACROBLOCKS {
        return Err(HeadEnd::Wide(count));
    }
    Ok(())
}

/// `chroma_format_idc`. V10 where it isn't known; V11 and `Wide` where the size isn't one of the chroma format.
fn read_chroma(reader: &mut BitReader<'_>, width: u32, height: u32) -> Result<Chroma, HeadEnd>
    requires width { width < 2 ^ 24 }
    requires height { height < 2 ^ 24 }
    ensures ok { IfOk result (λ chroma. HasChroma width height reader.old chroma reader.new) }
    ensures sound { IfOk result (λ chroma. size_fault width height chroma ≡ None) }
    ensures err { IfErr result (λ end. ChromaBreaks width height reader.old end) }
{
    let idc = read_field(reader, 4)?;
    let Some(chroma) = Chroma::of_idc(idc as u8) else {
        return Err(HeadEnd::Rule(Rule::V10));
    };
    check_frame_size(width, height, chroma)?;
    Ok(chroma)
}

/// `bit_depth_minus8`, as the bit depth. V12 where that isn't 10, 11 or 12; V13 where the profile doesn't take the
/// chroma format and depth.
fn read_depth(reader: &mut BitReader<'_>, profile: u8, chroma: Chroma) -> Result<u8, HeadEnd>
    ensures ok { IfOk result (λ depth. HasDepth profile chroma reader.old depth reader.new) }
    ensures known { IfOk result (λ depth. IsDepth depth) }
    ensures readable { IfOk result (λ depth. is_readable profile chroma depth ≡ true) }
    ensures err { IfErr result (λ end. DepthBreaks profile chroma reader.old end) }
{
    let value = read_field(reader, 4)?;
    if value < 2 || value > 4 {
        return Err(HeadEnd::Rule(Rule::V12));
    }
    let depth = value as u8 + 8;
    if !profile_takes(profile, chroma, depth) {
        return Err(HeadEnd::Rule(Rule::V13));
    }
    Ok(depth)
}

/// `profile_idc`, `level_idc`, `band_idc` and the reserved bits after them. V9 at the profile, and V14 at the
/// reserved bits.
fn read_profile_level_band(reader: &mut BitReader<'_>) -> Result<(u8, u8, u8), HeadEnd>
    ensures ok { IfOk result (λ idc. HasProfileLevelBand reader.old idc reader.new) }
    ensures band { IfOk result (λ idc. idc.2 ≤ 7) }
    ensures err { IfErr result (λ end. ProfileLevelBandBreaks reader.old end) }
{
    let profile = read_profile(reader)?;
    let level = read_byte(reader)?;
    let band = read_field(reader, 3)? as u8;
    read_reserved(reader, 5)?;
    Ok((profile, level, band))
}

/// `frame_width`, `frame_height` and `chroma_format_idc`. V10, V11 and `Wide` at the chroma format.
fn read_frame_size(reader: &mut BitReader<'_>) -> Result<(u32, u32, Chroma), HeadEnd>
    ensures ok { IfOk result (λ size. HasFrameSize reader.old size reader.new) }
    ensures width { IfOk result (λ size. size.0 < 2 ^ 24) }
    ensures height { IfOk result (λ size. size.1 < 2 ^ 24) }
    ensures sound { IfOk result (λ size. size_fault size.0 size.1 size.2 ≡ None) }
    ensures err { IfErr result (λ end. FrameSizeBreaks reader.old end) }
{
    let width = read_field(reader, 24)?;
    let height = read_field(reader, 24)?;
    let chroma = read_chroma(reader, width, height)?;
    Ok((width, height, chroma))
}

/// The fields of `frame_info()`, 96 bits, whatever follows them: V9 at the profile; V14 at the reserved bits; V10, V11
/// and `Wide` at the chroma format; V12 and V13 at the bit depth; V8 where the bits end inside a field.
pub fn read_info(reader: &mut BitReader<'_>) -> Result<FrameInfo, HeadEnd>
    ensures ok { IfOk result (λ info. HasInfo reader.old info reader.new) }
    ensures sound { IfOk result (λ info. IsSoundInfo info) }
    ensures err { IfErr result (λ end. InfoBreaks reader.old end) }
{
    let (profile, level, band) = read_profile_level_band(reader)?;
    let (width, height, chroma) = read_frame_size(reader)?;
    let depth = read_depth(reader, profile, chroma)?;
    let capture = read_byte(reader)?;
    read_reserved(reader, 8)?;
    Ok(FrameInfo {
        profile,
        level,
        band,
        width,
        height,
        chroma,
        depth,
        capture,
    })
}

/// Reads `frame_info()`, 96 bits. Else returns the first fault from the left: V9 at `profile_idc`; V14 at reserved
/// bits that aren't 0; V10, V11 and then `HeadEnd::Wide` (limit L2) at `chroma_format_idc`; V12 and then V13 at
/// `bit_depth_minus8`; V8 where the bits end inside a field.
pub fn read_frame_info(reader: &mut BitReader<'_>) -> Result<FrameInfo, HeadEnd>
    ensures ok { IfOk result (λ info. HasFrameInfo reader.old info reader.new) }
    ensures sound { IfOk result (λ info. IsSoundInfo info) }
    ensures taken { IfOk result (λ info. Takes reader.old reader.new (frame_info_word info)) }
    ensures err { IfErr result (λ end. FrameInfoBreaks reader.old end) }
{
    read_info(reader)
}
