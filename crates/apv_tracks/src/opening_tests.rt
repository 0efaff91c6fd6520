//! Files of QP offsets, and tracks that are made.
ghost use Rattle.std.specs.Prelude.{◌≡◌, ◌≤◌, IfOk, OnOk};
ghost use Rattle.apv_base.specs.declared.slot.Slot.TheVariants.{Input, Metadata, TileQp};
ghost use Rattle.apv_files.specs.Memory.{memory_view};
ghost use Rattle.apv_files.specs.SlotView.{AllClosed};
ghost use Rattle.apv_files.specs.declared.files.Mode.TheVariants.{Reading};
ghost use Rattle.apv_words.specs.Encoder.{HasEncBounds, HasEncFiles};

use crate::settings_for_tests::{bad, format, settings};
use crate::{MapEnd, Opening, open_tracks, read_tile_map};
use apv_base::{Chroma, Exit, Form, Name, Slot, VideoRule};
use apv_files::{Call, Failed, Files, MemoryFiles};
use apv_words::EncSettings;
use std::alloc::{AllocError, Global};
use std::test::Fail;

/// Opens the files that are read before the first frame.
fn open_files<F: Files>(files: &mut F) -> Result<(), Failed>
    requires { AllClosed (F.slot_view files.old) }
    ensures input { OnOk result ((F.slot_view files.new Input).mode ≡ Reading) }
    ensures payloads { OnOk result ((F.slot_view files.new Metadata).mode ≡ Reading) }
    ensures map { OnOk result ((F.slot_view files.new TileQp).mode ≡ Reading) }
{
    files.open(Slot::Input, "in")?;
    files.open(Slot::Metadata, "payloads")?;
    files.open(Slot::TileQp, "map")
}

/// These files, in memory.
fn files_with(alloc: Global, input: &[u8], payloads: &[u8], map: &[u8]) -> Result<MemoryFiles, Fail>
    ensures { IfOk result (λ files. AllClosed (memory_view files)) }
{
    let mut files = MemoryFiles::new(alloc);
    files.hold("in", input)?;
    files.hold("payloads", payloads)?;
    files.hold("map", map)?;
    Ok(files)
}

/// Reads the file of QP offsets for that many tiles.
fn read_map<F: Files>(alloc: Global, files: &mut F, tiles: u32) -> Result<Vec<u8>, MapEnd>
    requires closed { AllClosed (F.slot_view files.old) }
    requires few { tiles ≤ 400 }
{
    let mut map = Vec::new(alloc);
    if open_files(files).is_err() {
        return Err(MapEnd::Memory);
    }
    read_tile_map(files, tiles, &mut map)?;
    Ok(map)
}

#[test]
fn reads_tile_maps(rt: HostRuntime) -> Result<(), Fail> {
    // The file, the number of tiles, and the answer where it isn't taken.
    let table: [(&[u8], u8, Option<MapEnd>); 11] = [
        (b"\xFD", 1, None),
        (b"\xB5", 1, None),
        (b"\x4B", 1, None),
        (b"\x00\xFF\x4B", 3, None),
        (b"", 1, Some(MapEnd::Bad(0))),
        (b"\x4C", 1, Some(MapEnd::Bad(0))),
        (b"\xB4", 1, Some(MapEnd::Bad(0))),
        (b"\xFD\x00", 1, Some(MapEnd::Bad(1))),
        (b"\xFD\x00", 4, Some(MapEnd::Bad(2))),
        (b"\x00\x80\x00", 2, Some(MapEnd::Bad(1))),
        (b"\x00\x00\x80", 2, Some(MapEnd::Bad(2))),
    ];
    for (bytes, tiles, answer) in table {
        let mut files = files_with(rt.alloc(), b"", b"", bytes)?;
        match read_map(rt.alloc(), &mut files, u32::from(tiles)) {
            Ok(map) => {
                assert_eq!(rt; answer, None, "{bytes:?}");
                assert!(rt; map.as_slice() == bytes);
            }
            Err(end) => assert_eq!(rt; Some(end), answer, "{bytes:?}"),
        }
        assert!(rt; files.left(Slot::TileQp).is_empty());
    }
    Ok(())
}

#[test]
fn names_a_fault_of_the_tile_map(rt: HostRuntime) -> Result<(), Fail> {
    for number in 0..2 {
        let mut files = files_with(rt.alloc(), b"", b"", b"\xFD")?;
        files.fail(Call::Read, number)?;
        let end = read_map(rt.alloc(), &mut files, 1).err();
        assert_eq!(rt; end, Some(MapEnd::Read));
    }
    Ok(())
}

/// Opens the files, and makes the tracks.
fn opened<F: Files>(alloc: Global, settings: &EncSettings, files: &mut F) -> Result<Opening, Exit>
    requires bounds { HasEncBounds settings.now }
    requires given { HasEncFiles settings.now }
    requires closed { AllClosed (F.slot_view files.old) }
{
    if open_files(files).is_err() {
        return Err(Exit::Memory);
    }
    open_tracks(alloc, settings, files)
}

/// The numbers of tracks, and of the tiles and components of primary frames.
fn counts_of(opening: &Opening) -> Option<(usize, u32, u8)> {
    let primary = opening.tracks.first()?;
    let comps = primary.header().info.chroma.comps();
    Some((opening.tracks.len(), primary.grid().tiles(), comps))
}

/// The settings for a planar file of 272 by 16 samples, 4:4:4:4.
fn wide_settings(alloc: Global) -> Result<EncSettings, AllocError>
    ensures bounds { IfOk result (λ settings. HasEncBounds settings) }
    ensures files { IfOk result (λ settings. HasEncFiles settings) }
{
    let mut settings = settings(alloc)?;
    settings.width = Some(272);
    settings.chroma = Some(Chroma::C4444);
    Ok(settings)
}

/// The settings for a Y4M file at a QP, with a file of QP offsets.
fn y4m_settings(alloc: Global, qp: u32) -> Result<EncSettings, AllocError>
    requires { qp ≤ 75 }
    ensures bounds { IfOk result (λ settings. HasEncBounds settings) }
    ensures files { IfOk result (λ settings. HasEncFiles settings) }
{
    let mut settings = settings(alloc)?;
    settings.form = Form::Y4m;
    settings.qp = Some(qp);
    settings.tile_qp = Some(Name::of(alloc, "map")?);
    Ok(settings)
}

/// The settings for a Y4M file, with a file of payloads.
fn payload_settings(alloc: Global) -> Result<EncSettings, AllocError>
    ensures bounds { IfOk result (λ settings. HasEncBounds settings) }
    ensures files { IfOk result (λ settings. HasEncFiles settings) }
{
    let mut settings = settings(alloc)?;
    settings.form = Form::Y4m;
    settings.metadata = Some(Name::of(alloc, "payloads")?);
    Ok(settings)
}

/// The settings for a planar file, with a preview of that width, a depth map, an alpha plane and payloads.
fn full_settings(alloc: Global, width: u32) -> Result<EncSettings, AllocError>
    requires low { 1 ≤ width }
    requires high { width ≤ 16777215 }
    ensures bounds { IfOk result (λ settings. HasEncBounds settings) }
    ensures files { IfOk result (λ settings. HasEncFiles settings) }
{
    let mut settings = settings(alloc)?;
    settings.preview = Some(Name::of(alloc, "preview")?);
    settings.preview_width = Some(width);
    settings.preview_height = Some(16);
    settings.depth_map = Some(Name::of(alloc, "depth")?);
    settings.alpha = Some(Name::of(alloc, "alpha")?);
    settings.metadata = Some(Name::of(alloc, "payloads")?);
    Ok(settings)
}

#[test]
fn makes_tracks_of_planar_files(rt: HostRuntime) -> Result<(), Fail> {
    let settings = wide_settings(rt.alloc())?;
    let mut files = files_with(rt.alloc(), b"abc", b"\xFF", b"\x4C")?;
    let opening = opened(rt.alloc(), &settings, &mut files);
    let opening = opening.ok().ok_or("tracks")?;
    assert_eq!(rt; counts_of(&opening), Some((1, 2, 4)));
    assert!(rt; opening.payloads.is_empty());
    assert_eq!(rt; files.left(Slot::Input).len(), 3);
    Ok(())
}

#[test]
fn makes_tracks_of_y4m_files(rt: HostRuntime) -> Result<(), Fail> {
    // The QP, the input, the file of QP offsets, the answer where there are no tracks, and the bytes left of the input.
    let line: &[u8] = b"YUV4MPEG2 W16 H16 F30:1 Cmono10\nFRAME\n";
    let no_tag: &[u8] = b"YUV4MPEG2 W16 H16\nFRAME\n";
    let table: [(u32, &[u8], &[u8], Option<Exit>, usize); 5] = [
        (20, line, b"\xFD", None, 6),
        (20, line, b"\x4C", Some(Exit::BadTileQp(0)), 6),
        (
            64,
            line,
            b"\x4C",
            Some(bad(Slot::Input, VideoRule::Qp, 0)),
            6,
        ),
        (
            20,
            no_tag,
            b"",
            Some(bad(Slot::Input, VideoRule::Tag, 0)),
            6,
        ),
        (
            20,
            b"FRAME\n",
            b"",
            Some(bad(Slot::Input, VideoRule::Header, 0)),
            0,
        ),
    ];
    for (qp, input, map, answer, left) in table {
        let settings = y4m_settings(rt.alloc(), qp)?;
        let mut files = files_with(rt.alloc(), input, b"", map)?;
        match opened(rt.alloc(), &settings, &mut files) {
            Ok(opening) => {
                assert_eq!(rt; answer, None);
                assert_eq!(rt; counts_of(&opening), Some((1, 1, 1)));
            }
            Err(exit) => assert_eq!(rt; Some(exit), answer),
        }
        assert_eq!(rt; files.left(Slot::Input).len(), left);
    }
    Ok(())
}

#[test]
fn makes_tracks_of_four_slots(rt: HostRuntime) -> Result<(), Fail> {
    let settings = full_settings(rt.alloc(), 16)?;
    let list = b"\x04\x01\xB5".as_slice();
    let mut files = files_with(rt.alloc(), b"", list, b"")?;
    let opening = opened(rt.alloc(), &settings, &mut files);
    let opening = opening.ok().ok_or("tracks")?;
    assert_eq!(rt; opening.payloads.as_slice(), list);
    let grey = format(16, 16, Chroma::C400, 10);
    let wanted = [
        (99, grey),
        (33, format(16, 16, Chroma::C422, 10)),
        (99, grey),
        (99, grey),
    ];
    assert_eq!(rt; opening.tracks.len(), 4);
    for (track, (profile, format)) in opening.tracks.iter().zip(wanted) {
        assert_eq!(rt; track.header().info.profile, profile);
        assert_eq!(rt; track.header().info.format(), format);
    }
    Ok(())
}

#[test]
fn judges_payloads_before_formats(rt: HostRuntime) -> Result<(), Fail> {
    let settings = payload_settings(rt.alloc())?;
    let mut files = files_with(rt.alloc(), b"FRAME\n", b"\x04\x00\x04\x01", b"")?;
    let end = opened(rt.alloc(), &settings, &mut files).err();
    assert_eq!(rt; end, Some(Exit::BadPayloads(2)));
    assert_eq!(rt; files.left(Slot::Input).len(), 6);
    Ok(())
}

#[test]
fn refuses_a_preview_of_odd_width(rt: HostRuntime) -> Result<(), Fail> {
    let settings = full_settings(rt.alloc(), 15)?;
    let mut files = files_with(rt.alloc(), b"", b"", b"")?;
    let end = opened(rt.alloc(), &settings, &mut files).err();
    assert_eq!(rt; end, Some(bad(Slot::Preview, VideoRule::Size, 0)));
    Ok(())
}

#[test]
fn names_the_slot_of_a_fault(rt: HostRuntime) -> Result<(), Fail> {
    let settings = y4m_settings(rt.alloc(), 20)?;
    for (number, slot) in [(5, Slot::Input), (32, Slot::TileQp)] {
        let line = b"YUV4MPEG2 W16 H16 F30:1 Cmono10\n";
        let mut files = files_with(rt.alloc(), line, b"", b"\xFD")?;
        files.fail(Call::Read, number)?;
        let end = opened(rt.alloc(), &settings, &mut files).err();
        assert_eq!(rt; end, Some(Exit::ReadFailed(slot)));
    }
    Ok(())
}

#[test]
fn names_a_fault_of_the_payloads(rt: HostRuntime) -> Result<(), Fail> {
    let settings = payload_settings(rt.alloc())?;
    let mut files = files_with(rt.alloc(), b"FRAME\n", b"\x04\x00", b"")?;
    files.fail(Call::Read, 0)?;
    let end = opened(rt.alloc(), &settings, &mut files).err();
    assert_eq!(rt; end, Some(Exit::ReadFailed(Slot::Metadata)));
    Ok(())
}
