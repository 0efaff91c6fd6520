//! The tracks of a run, made.
ghost use Rattle.std.specs.Prelude.{◌≡◌, ◌++◌, ℕ, List, IfErr, IfOk, IfSome, None, OnOk};
ghost use Rattle.std.specs.Prelude.{is_some, map};
ghost use Rattle.std.specs.Bool.{OnTrue};
ghost use Rattle.apv_base.specs.declared.format.Format.{Format as FormatRecord};
ghost use Rattle.apv_base.specs.declared.slot.Slot.TheVariants.{Input, Metadata, TileQp};
ghost use Rattle.apv_base.specs.model.Grid.{tile_count};
ghost use Rattle.apv_base.specs.model.Header.{IsSoundHeader, grid_of};
ghost use Rattle.apv_files.specs.SlotView.{OnlyAt};
ghost use Rattle.apv_files.specs.declared.files.Mode.TheVariants.{Reading};
ghost use Rattle.apv_words.specs.Encoder.{HasEncBounds, HasEncFiles};
ghost use Rattle.apv_encoding.specs.Answer.{signed_byte};
ghost use Rattle.apv_encoding.specs.Settings.{check_input};
ghost use Rattle.apv_tracks.specs.Format.{FormatEnds, TookFormat};
ghost use Rattle.apv_tracks.specs.Opening.{AreInputsReading, ListEnds, MapEnds, OpensTracks};
ghost use Rattle.apv_tracks.specs.Opening.{SetsOffsets, SetsWhereGiven, TookFormats, TookList};
ghost use Rattle.apv_tracks.specs.Opening.{TracksEnd, primary_state, state_where, states_with};
ghost use Rattle.apv_tracks.specs.Opening.{component_offsets as offsets_of};
ghost use Rattle.apv_tracks.specs.PayloadFile.{list_exit};
ghost use Rattle.apv_tracks.specs.Plain.{plain_settings, given_format as format_given};
ghost use Rattle.apv_tracks.specs.TileMap.{OffsetsEnd, map_exit};

use crate::format::{grey_header, judge_format, judge_preview};
use crate::payload_file::{ListEnd, read_payload_file};
use crate::pictures::video_end_exit;
use crate::tile_map::{MapEnd, read_tile_map};
use apv_base::{Chroma, Exit, Form, Format, FrameHeader, Limit, Slot};
use apv_files::Files;
use apv_generated::GENERATED_FORMAT;
use apv_video::open_video;
use apv_words::EncSettings;
use apv_workers::Track;
use std::alloc::{AllocError, Global};

/// The answer of a run that has no file of payloads.
fn list_end(end: ListEnd) -> Exit
    ensures { result ≡ list_exit end }
{
    match end {
        ListEnd::Bad(byte) => Exit::BadPayloads(byte),
        ListEnd::Limit(count) => Exit::LimitMet(Limit::L1, count),
        ListEnd::Read => Exit::ReadFailed(Slot::Metadata),
        ListEnd::Memory => Exit::Memory,
    }
}

/// Reads the file of payloads, where the words name it. Without it there are none.
fn read_payloads<F: Files>(
    alloc: Global,
    settings: &EncSettings,
    files: &mut F,
) -> Result<Vec<u8>, Exit>
    requires { OnTrue (is_some settings.now.metadata)
        ((F.slot_view files.old Metadata).mode ≡ Reading) }
    ensures ok { IfOk result (λ list. TookList settings.now (F.slot_view files.old Metadata)
        list.items (F.slot_view files.new Metadata)) }
    ensures err { IfErr result (ListEnds settings.now (F.slot_view files.old Metadata)
        (F.slot_view files.new Metadata)) }
    ensures elsewhere { OnlyAt Metadata (F.slot_view files.old) (F.slot_view files.new) }
    ensures held { (file : List ℕ) → F.held files.new file ≡ F.held files.old file }
{
    let mut list = Vec::new(alloc);
    if settings.metadata.is_none() {
        return Ok(list);
    }
    match read_payload_file(files, &mut list) {
        Ok(()) => Ok(list),
        Err(end) => Err(list_end(end)),
    }
}

/// The format of a planar file: that of a generated video, where there is one, else the one that the words give.
fn given_format(settings: &EncSettings) -> Format
    requires { HasEncBounds settings.now }
    ensures { result ≡ format_given settings.now }
{
    if settings.generate.is_some() {
        return GENERATED_FORMAT;
    }
    Format {
        width: settings.width.unwrap_or(0),
        height: settings.height.unwrap_or(0),
        chroma: settings.chroma.unwrap_or(Chroma::C400),
        depth: settings.depth.unwrap_or(0) as u8,
    }
}

/// The format of the pictures of `Input`: as the words say, or as the header of the Y4M file does.
fn read_format<F: Files>(files: &mut F, settings: &EncSettings) -> Result<Format, Exit>
    requires bounds { HasEncBounds settings.now }
    requires reading { (F.slot_view files.old Input).mode ≡ Reading }
    ensures ok { IfOk result (λ format. TookFormat settings.now (F.slot_view files.old Input)
        format (F.slot_view files.new Input)) }
    ensures err { IfErr result (FormatEnds settings.now (F.slot_view files.old Input)
        (F.slot_view files.new Input)) }
    ensures elsewhere { OnlyAt Input (F.slot_view files.old) (F.slot_view files.new) }
    ensures held { (file : List ℕ) → F.held files.new file ≡ F.held files.old file }
{
    match settings.form {
        Form::Planar => Ok(given_format(settings)),
        Form::Y4m => match open_video(files) {
            Ok(shape) => Ok(shape.format),
            Err(end) => Err(video_end_exit(end)),
        },
    }
}

/// The format of the pictures of `Input`, and the headers of primary and of preview frames (`frame_header()`).
#[derive(Clone, Copy)]
struct Formats {
    format: Format,
    primary: FrameHeader,
    preview: Option<FrameHeader>,
}

/// Reads the format of the pictures of `Input`, and judges the formats of primary and of preview frames.
fn read_formats<F: Files>(files: &mut F, settings: &EncSettings) -> Result<Formats, Exit>
    requires bounds { HasEncBounds settings.now }
    requires reading { (F.slot_view files.old Input).mode ≡ Reading }
    ensures ok { IfOk result (λ formats. TookFormats settings.now (F.slot_view files.old Input)
        formats (F.slot_view files.new Input)) }
    ensures err { IfErr result (FormatEnds settings.now (F.slot_view files.old Input)
        (F.slot_view files.new Input)) }
    ensures elsewhere { OnlyAt Input (F.slot_view files.old) (F.slot_view files.new) }
    ensures held { (file : List ℕ) → F.held files.new file ≡ F.held files.old file }
{
    let format = read_format(files, settings)?;
    let primary = judge_format(settings, &format)?;
    let preview = judge_preview(settings)?;
    Ok(Formats {
        format,
        primary,
        preview,
    })
}

/// The numbers that bytes are in two's complement.
fn signed_bytes(alloc: Global, bytes: &[u8]) -> Result<Vec<i8>, AllocError>
    ensures { IfOk result (λ offsets. offsets.items ≡ map signed_byte bytes.now) }
{
    let mut offsets = Vec::new(alloc);
    for byte in bytes {
        offsets.push(byte.cast_signed())?;
    }
    Ok(offsets)
}

/// The answer of a run that has no file of QP offsets.
fn map_end(end: MapEnd) -> Exit
    ensures { result ≡ map_exit end }
{
    match end {
        MapEnd::Bad(place) => Exit::BadTileQp(place),
        MapEnd::Read => Exit::ReadFailed(Slot::TileQp),
        MapEnd::Memory => Exit::Memory,
    }
}

/// Reads the file of QP offsets, and sets them in the track.
fn read_offsets<F: Files>(alloc: Global, files: &mut F, track: &mut Track) -> Result<(), Exit>
    requires { (F.slot_view files.old TileQp).mode ≡ Reading }
    ensures ok { IfOk result (λ _. SetsOffsets track.old (F.slot_view files.old TileQp) track.new
        (F.slot_view files.new TileQp)) }
    ensures err { IfErr result (OffsetsEnd (tile_count (grid_of track.old.header))
        (F.slot_view files.old TileQp) (F.slot_view files.new TileQp)) }
    ensures elsewhere { OnlyAt TileQp (F.slot_view files.old) (F.slot_view files.new) }
    ensures held { (file : List ℕ) → F.held files.new file ≡ F.held files.old file }
{
    let mut bytes = Vec::new(alloc);
    match read_tile_map(files, track.grid().tiles(), &mut bytes) {
        Ok(()) => {}
        Err(end) => return Err(map_end(end)),
    }
    let Ok(offsets) = signed_bytes(alloc, bytes.as_slice()) else {
        return Err(Exit::Memory);
    };
    track.set_tile_offsets(offsets.as_slice());
    Ok(())
}

/// Sets the QP offset of each tile by the file of QP offsets, where the words name it.
fn set_offsets<F: Files>(
    alloc: Global,
    settings: &EncSettings,
    files: &mut F,
    track: &mut Track,
) -> Result<(), Exit>
    requires { OnTrue (is_some settings.now.tile_qp)
        ((F.slot_view files.old TileQp).mode ≡ Reading) }
    ensures ok { IfOk result (λ _. SetsWhereGiven settings.now.tile_qp track.old
        (F.slot_view files.old TileQp) track.new (F.slot_view files.new TileQp)) }
    ensures err { IfErr result (MapEnds settings.now (tile_count (grid_of track.old.header))
        (F.slot_view files.old TileQp) (F.slot_view files.new TileQp)) }
    ensures elsewhere { OnlyAt TileQp (F.slot_view files.old) (F.slot_view files.new) }
    ensures held { (file : List ℕ) → F.held files.new file ≡ F.held files.old file }
{
    if settings.tile_qp.is_none() {
        return Ok(());
    }
    read_offsets(alloc, files, track)
}

/// The offset of the QPs of each component, which is 0 for the first.
fn component_offsets(settings: &EncSettings) -> [i8; 4]
    requires { HasEncBounds settings.now }
    ensures { result ≡ offsets_of settings.now }
{
    [
        0,
        settings.qp_offset_1,
        settings.qp_offset_2,
        settings.qp_offset_3,
    ]
}

/// Adds a track without offsets to the tracks, where it is asked for.
fn add_where(
    alloc: Global,
    tracks: &mut Vec<Track>,
    asked: bool,
    header: &FrameHeader,
) -> Result<(), AllocError>
    requires { IsSoundHeader header.now }
    ensures { OnOk result
        (tracks.new.items ≡ tracks.old.items ++ state_where asked header.now) }
{
    if asked {
        tracks.push(Track::new(alloc, header, [0; 4])?)?;
    }
    Ok(())
}

/// The tracks in the order of their frames in an access unit: new ones of primary, preview, depth and alpha frames.
fn new_tracks(
    alloc: Global,
    settings: &EncSettings,
    formats: &Formats,
) -> Result<Vec<Track>, AllocError>
    requires bounds { HasEncBounds settings.now }
    requires passes { check_input (plain_settings settings.now) formats.now.format ≡ None }
    requires primary { IsSoundHeader formats.now.primary }
    requires preview { IfSome formats.now.preview IsSoundHeader }
    ensures { IfOk result (λ tracks. tracks.items
        ≡ states_with settings.now formats.now (primary_state settings.now formats.now.primary)) }
{
    let mut tracks = Vec::new(alloc);
    tracks.push(Track::new(alloc, &formats.primary, component_offsets(settings))?)?;
    if let Some(header) = &formats.preview {
        add_where(alloc, &mut tracks, true, header)?;
    }
    let grey = grey_header(settings, &formats.format);
    add_where(alloc, &mut tracks, settings.depth_map.is_some(), &grey)?;
    add_where(alloc, &mut tracks, settings.alpha.is_some(), &grey)?;
    Ok(tracks)
}

/// What a run encodes from: the payloads that each access unit carries, and the tracks.
#[derive(Drop)]
pub struct Opening {
    pub payloads: Vec<u8>,
    pub tracks: Vec<Track>,
}

/// Makes the tracks of a run: reads the payloads from `Metadata` where the words name it, reads the header of `Input`
/// where it is a Y4M file, judges the formats of primary and preview frames, takes the memory of the tracks, and reads
/// the QP offset of each tile of the primary frames from `TileQp` where the words name it.
///
/// The refusals come in this order: L1 with 536,870,913, where the file of payloads is longer than 536,870,912 bytes,
/// and `BadPayloads` with the first byte of its first payload that isn't whole; those of the header of a Y4M file
/// (`Header`, `Tag`, `Size`, L2); those of the primary frames' format (`Size`, L2, `Profile`, `Grid`, `Qp`), and of the
/// preview's (`Size`, L2); and `BadTileQp` with the first byte of the file of QP offsets that is missing, is outside
/// -75 to 75, or is after that of the last tile. `ReadFailed` comes only where the read faults of its slot, `Metadata`,
/// `Input` or `TileQp`, rose; `Memory` may come at any time. Of a planar file nothing is taken, and of a Y4M file no
/// byte after the first line feed, whatever the answer is.
pub fn open_tracks<F: Files>(
    alloc: Global,
    settings: &EncSettings,
    files: &mut F,
) -> Result<Opening, Exit>
    requires bounds { HasEncBounds settings.now }
    requires given { HasEncFiles settings.now }
    requires reading { AreInputsReading settings.now (F.slot_view files.old) }
    ensures ok { IfOk result (λ opening. (format : FormatRecord)
        × OpensTracks settings.now (F.slot_view files.old) format opening.payloads.items
        opening.tracks.items (F.slot_view files.new)) }
    ensures err { IfErr result
        (TracksEnd settings.now (F.slot_view files.old) (F.slot_view files.new)) }
    ensures held { (file : List ℕ) → F.held files.new file ≡ F.held files.old file }
{
    let payloads = read_payloads(alloc, settings, files)?;
    let formats = read_formats(files, settings)?;
    let mut tracks = match new_tracks(alloc, settings, &formats) {
        Ok(tracks) => tracks,
        Err(_) => return Err(Exit::Memory),
    };
    set_offsets(alloc, settings, files, &mut tracks[0])?;
    Ok(Opening { payloads, tracks })
}
