//! Frames of grey pictures of 16x16 samples, read from memory.
ghost use Rattle.std.specs.Prelude.{◌≡◌, ◌∷◌, [], IfOk, OnOk, length, None, false, replicate};
ghost use Rattle.apv_base.specs.declared.format.Chroma.TheVariants.{C400};
ghost use Rattle.apv_base.specs.declared.slot.Slot.TheVariants.{Input, Preview, Alpha};
ghost use Rattle.apv_files.specs.Memory.{memory_view};
ghost use Rattle.apv_files.specs.SlotView.{AllClosed};
ghost use Rattle.apv_files.specs.declared.files.Mode.TheVariants.{Reading};
ghost use Rattle.apv_tracks.specs.Kinds.{kind_with, kinds_of};
ghost use Rattle.apv_tracks.specs.States.{HasOwnGrid, HaveOwnGrids};

use crate::read_pictures;
use crate::settings_for_tests::{bad, settings};
use apv_base::{Chroma, Exit, Form, FrameHeader, FrameInfo, Limit, Matrix, Name, Slot, VideoRule};
use apv_files::{Call, Failed, Files, MemoryFiles};
use apv_words::EncSettings;
use apv_workers::Track;
use std::alloc::{AllocError, Global};
use std::test::Fail;

/// The number of the frame that is read.
const NUMBER: u32 = 7;

/// The settings of a file of that form, with files for a preview and for an alpha plane.
fn settings_with(alloc: Global, form: Form) -> Result<EncSettings, AllocError>
    ensures { IfOk result (λ settings. kinds_of settings
        ≡ kind_with Input 1 ∷ kind_with Preview 25 ∷ kind_with Alpha 27 ∷ []) }
{
    let mut settings = settings(alloc)?;
    settings.form = form;
    settings.preview = Some(Name::of(alloc, "preview")?);
    settings.depth_map = None;
    settings.alpha = Some(Name::of(alloc, "alpha")?);
    Ok(settings)
}

/// The header of the frames of each track, in one tile.
fn grey_header() -> FrameHeader
    ensures { result ≡ record {
      info = record {
        profile = 99;
        level = 123;
        band = 0;
        width = 16;
        height = 16;
        chroma = C400;
        depth = 10;
        capture = 0;
      };
      colour = None;
      use_matrix = false;
      matrices = replicate 64 16 ∷ replicate 64 16 ∷ replicate 64 16 ∷ replicate 64 16 ∷ [];
      tile_width = 16;
      tile_height = 16;
      sizes_present = false;
    } }
{
    FrameHeader {
        info: FrameInfo {
            profile: 99,
            level: 123,
            band: 0,
            width: 16,
            height: 16,
            chroma: Chroma::C400,
            depth: 10,
            capture: 0,
        },
        colour: None,
        use_matrix: false,
        matrices: [
            Matrix::flat(),
            Matrix::flat(),
            Matrix::flat(),
            Matrix::flat(),
        ],
        tile_width: 16,
        tile_height: 16,
        sizes_present: false,
    }
}

/// A track of such frames.
fn grey_track(alloc: Global) -> Result<Track, AllocError>
    ensures { IfOk result HasOwnGrid }
{
    Track::new(alloc, &grey_header(), [0; 4])
}

/// The tracks of `Input`, `Preview` and `Alpha`.
fn grey_tracks(alloc: Global) -> Result<Vec<Track>, AllocError>
    ensures count { IfOk result (λ tracks. length tracks.items ≡ 3) }
    ensures grids { IfOk result (λ tracks. HaveOwnGrids tracks.items) }
{
    let mut tracks = Vec::new(alloc);
    tracks.push(grey_track(alloc)?)?;
    tracks.push(grey_track(alloc)?)?;
    tracks.push(grey_track(alloc)?)?;
    Ok(tracks)
}

/// Opens the files of the tracks.
fn open_files<F: Files>(files: &mut F) -> Result<(), Failed>
    requires { AllClosed (F.slot_view files.old) }
    ensures input { OnOk result ((F.slot_view files.new Input).mode ≡ Reading) }
    ensures preview { OnOk result ((F.slot_view files.new Preview).mode ≡ Reading) }
    ensures alpha { OnOk result ((F.slot_view files.new Alpha).mode ≡ Reading) }
{
    files.open(Slot::Input, "in")?;
    files.open(Slot::Preview, "preview")?;
    files.open(Slot::Alpha, "alpha")
}

/// Reads the frame of that number from files that are opened first. It is `Memory` where they can't be.
fn read_frame<F: Files>(alloc: Global, files: &mut F, form: Form, number: u32) -> Result<(), Exit>
    requires { AllClosed (F.slot_view files.old) }
{
    let Ok(settings) = settings_with(alloc, form) else {
        return Err(Exit::Memory);
    };
    let Ok(mut tracks) = grey_tracks(alloc) else {
        return Err(Exit::Memory);
    };
    if open_files(files).is_err() {
        return Err(Exit::Memory);
    }
    read_pictures(files, &settings, number, tracks.as_mut_slice())
}

/// Some bytes, and after them that many samples of the value 512.
fn content(alloc: Global, first: &[u8], samples: usize) -> Result<Vec<u8>, AllocError> {
    let mut bytes = Vec::new(alloc);
    bytes.extend_from_slice(first)?;
    for _ in 0..samples {
        bytes.extend_from_slice(&[0, 2])?;
    }
    Ok(bytes)
}

/// Files of these bytes for `Input`, and of that many grey samples for `Preview` and `Alpha`.
fn files_with(
    alloc: Global,
    input: &[u8],
    preview: usize,
    alpha: usize,
) -> Result<MemoryFiles, Fail>
    ensures { IfOk result (λ files. AllClosed (memory_view files)) }
{
    let mut files = MemoryFiles::new(alloc);
    files.hold("in", input)?;
    files.hold("preview", &content(alloc, &[], preview)?)?;
    files.hold("alpha", &content(alloc, &[], alpha)?)?;
    Ok(files)
}

#[test]
fn reads_a_picture_of_each_track(rt: HostRuntime) -> Result<(), Fail> {
    // The form, the first bytes of `Input` and its samples after them, the samples of `Preview` and of `Alpha`, the
    // answer, and the bytes left of the three slots.
    let table: [(
        Form,
        &[u8],
        usize,
        usize,
        usize,
        Result<(), Exit>,
        [usize; 3],
    ); 14] = [
        (Form::Planar, b"", 257, 256, 258, Ok(()), [2, 0, 4]),
        (Form::Y4m, b"FRAME\n", 256, 256, 256, Ok(()), [0, 0, 0]),
        (Form::Planar, b"", 0, 0, 0, Err(Exit::Done), [0, 0, 0]),
        // `Input` has ended, and another slot hasn't.
        (
            Form::Planar,
            b"",
            0,
            0,
            256,
            Err(bad(Slot::Alpha, VideoRule::Extra, NUMBER)),
            [0, 0, 511],
        ),
        (
            Form::Y4m,
            b"",
            0,
            1,
            256,
            Err(bad(Slot::Preview, VideoRule::Extra, NUMBER)),
            [0, 1, 512],
        ),
        // `Input` has a picture, and another slot has ended.
        (
            Form::Planar,
            b"",
            256,
            256,
            0,
            Err(bad(Slot::Alpha, VideoRule::Missing, NUMBER)),
            [0, 0, 0],
        ),
        (
            Form::Y4m,
            b"FRAME\n",
            256,
            0,
            0,
            Err(bad(Slot::Preview, VideoRule::Missing, NUMBER)),
            [0, 0, 0],
        ),
        // A picture breaks a rule.
        (
            Form::Planar,
            b"\x00\x04",
            255,
            256,
            0,
            Err(bad(Slot::Input, VideoRule::Range, NUMBER)),
            [0, 512, 0],
        ),
        (
            Form::Planar,
            b"",
            256,
            255,
            0,
            Err(bad(Slot::Preview, VideoRule::Truncated, NUMBER)),
            [0, 0, 0],
        ),
        (
            Form::Planar,
            b"",
            256,
            256,
            1,
            Err(bad(Slot::Alpha, VideoRule::Truncated, NUMBER)),
            [0, 0, 0],
        ),
        (
            Form::Planar,
            b"\x00",
            255,
            0,
            0,
            Err(bad(Slot::Input, VideoRule::Truncated, NUMBER)),
            [0, 0, 0],
        ),
        (
            Form::Y4m,
            b"FRAMES\n",
            256,
            256,
            256,
            Err(bad(Slot::Input, VideoRule::FrameLine, NUMBER)),
            [512, 512, 512],
        ),
        (
            Form::Y4m,
            b"FRAME\n\x00\x04",
            255,
            256,
            256,
            Err(bad(Slot::Input, VideoRule::Range, NUMBER)),
            [0, 512, 512],
        ),
        (
            Form::Y4m,
            b"FRAME\n",
            0,
            256,
            256,
            Err(bad(Slot::Input, VideoRule::Truncated, NUMBER)),
            [0, 512, 512],
        ),
    ];
    for (form, first, input, preview, alpha, answer, left) in table {
        let input = content(rt.alloc(), first, input)?;
        let mut files = files_with(rt.alloc(), &input, preview, alpha)?;
        let read = read_frame(rt.alloc(), &mut files, form, NUMBER);
        assert_eq!(rt; read, answer);
        assert_eq!(rt; files.left(Slot::Input).len(), left[0], "{answer:?}");
        assert_eq!(rt; files.left(Slot::Preview).len(), left[1], "{answer:?}");
        assert_eq!(rt; files.left(Slot::Alpha).len(), left[2], "{answer:?}");
    }
    Ok(())
}

#[test]
fn names_the_slot_of_a_fault(rt: HostRuntime) -> Result<(), Fail> {
    // Each slot is read once, to its end.
    for (number, slot) in [(0, Slot::Input), (1, Slot::Preview), (2, Slot::Alpha)] {
        let mut files = files_with(rt.alloc(), b"", 0, 0)?;
        files.fail(Call::Read, number)?;
        let read = read_frame(rt.alloc(), &mut files, Form::Planar, NUMBER);
        assert_eq!(rt; read, Err(Exit::ReadFailed(slot)));
    }
    Ok(())
}

#[test]
fn names_the_slot_of_a_fault_in_a_picture(rt: HostRuntime) -> Result<(), Fail> {
    // The first read of a picture takes a byte, and the second one the others.
    for (number, slot) in [(1, Slot::Input), (3, Slot::Preview), (4, Slot::Alpha)] {
        let input = content(rt.alloc(), b"", 256)?;
        let mut files = files_with(rt.alloc(), &input, 256, 256)?;
        files.fail(Call::Read, number)?;
        let read = read_frame(rt.alloc(), &mut files, Form::Planar, NUMBER);
        assert_eq!(rt; read, Err(Exit::ReadFailed(slot)));
    }
    Ok(())
}

#[test]
fn reads_no_picture_above_the_limit(rt: HostRuntime) -> Result<(), Fail> {
    // The samples of `Input`, and the answer.
    let table = [
        (256, Exit::LimitMet(Limit::L3, 4294967296)),
        (0, Exit::Done),
    ];
    for (input, answer) in table {
        let input = content(rt.alloc(), b"", input)?;
        let mut files = files_with(rt.alloc(), &input, 0, 0)?;
        let read = read_frame(rt.alloc(), &mut files, Form::Planar, u32::MAX);
        assert_eq!(rt; read, Err(answer));
    }
    Ok(())
}
