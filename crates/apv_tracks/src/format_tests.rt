//! Formats that are judged, the headers of the frames, and the kinds of tracks.
ghost use Rattle.std.specs.Prelude.{◌≡◌, IfOk};
ghost use Rattle.apv_words.specs.Encoder.{HasEncBounds};

use crate::format::{grey_header, judge_format, judge_preview};
use crate::kinds::{TrackKind, track_kinds};
use crate::settings_for_tests::{bad, format};
use apv_base::{Chroma, Colour, Exit, Format, FrameHeader, Limit, Matrix, Slot, VideoRule};
use apv_words::{EncSettings, settings_enc};
use std::alloc::Global;
use std::test::Fail;

/// A matrix with 1 to 64, row after row, for the option of that name.
const RISING: &str =
    "1,2,3,4,5,6,7,8,9,10,11,12,13,14,15,16,17,18,19,20,21,22,23,24,25,26,27,28,29,\
    30,31,32,33,34,35,36,37,38,39,40,41,42,43,44,45,46,47,48,49,50,51,52,53,54,55,56,57,58,59,60,61,\
    62,63,64";

/// The settings of these words beside those of the files.
pub(crate) fn settings_of(alloc: Global, further: &[&str]) -> Result<EncSettings, Fail>
    ensures { IfOk result (λ settings. HasEncBounds settings) }
{
    let mut words = Vec::new(alloc);
    for word in ["--input=in", "--output=out"] {
        words.push(String::from_str(alloc, word)?)?;
    }
    for word in further {
        words.push(String::from_str(alloc, word)?)?;
    }
    match settings_enc(alloc, &words) {
        Ok(settings) => Ok(settings),
        Err(_) => Err("settings".into()),
    }
}

/// Why the format isn't taken.
fn refusal(settings: &EncSettings, format: &Format) -> Option<Exit>
    requires { HasEncBounds settings.now }
{
    match judge_format(settings, format) {
        Ok(_) => None,
        Err(exit) => Some(exit),
    }
}

#[test]
fn refuses_formats(rt: HostRuntime) -> Result<(), Fail> {
    // The words beside those of files, the format, and the answer, where it isn't taken.
    let table: [(&[&str], Format, Option<Exit>); 20] = [
        (
            &["--form=y4m", "--qp=20"],
            format(17, 16, Chroma::C422, 10),
            Some(bad(Slot::Input, VideoRule::Size, 0)),
        ),
        (
            &["--form=y4m", "--qp=20"],
            format(16, 0, Chroma::C400, 10),
            Some(bad(Slot::Input, VideoRule::Size, 0)),
        ),
        (
            &["--form=y4m", "--qp=20"],
            format(16777216, 16, Chroma::C400, 10),
            Some(bad(Slot::Input, VideoRule::Size, 0)),
        ),
        (
            &["--form=y4m", "--qp=20", "--profile=422-10"],
            format(8192, 8208, Chroma::C400, 10),
            Some(Exit::LimitMet(Limit::L2, 262656)),
        ),
        (
            &["--form=y4m", "--qp=20", "--profile=422-10"],
            format(5376, 16, Chroma::C400, 10),
            Some(bad(Slot::Input, VideoRule::Profile, 0)),
        ),
        (
            &["--form=y4m", "--qp=20"],
            format(16, 16, Chroma::C400, 12),
            Some(bad(Slot::Input, VideoRule::Profile, 0)),
        ),
        (
            &["--form=y4m", "--qp=64", "--tile-width=16"],
            format(5376, 16, Chroma::C400, 10),
            Some(bad(Slot::Input, VideoRule::Grid, 0)),
        ),
        (
            &["--form=y4m", "--qp=20", "--tile-height=8"],
            format(16, 2688, Chroma::C400, 10),
            Some(bad(Slot::Input, VideoRule::Grid, 0)),
        ),
        (
            &["--form=y4m", "--qp=64"],
            format(16, 16, Chroma::C400, 10),
            Some(bad(Slot::Input, VideoRule::Qp, 0)),
        ),
        (
            &["--form=y4m", "--qp=70"],
            format(16, 16, Chroma::C422, 11),
            Some(bad(Slot::Input, VideoRule::Qp, 0)),
        ),
        (
            &["--form=y4m", "--qp=63"],
            format(16, 16, Chroma::C400, 10),
            None,
        ),
        (
            &["--form=y4m", "--qp=69"],
            format(17, 16, Chroma::C444, 11),
            None,
        ),
        (
            &["--form=y4m", "--qp=75"],
            format(8192, 8192, Chroma::C4444, 12),
            None,
        ),
        (
            &["--form=y4m", "--qp=20", "--tile-height=8"],
            format(16, 2560, Chroma::C400, 10),
            None,
        ),
        (
            &["--form=y4m", "--limit=1000", "--qp-min=64"],
            format(16, 16, Chroma::C400, 10),
            Some(bad(Slot::Input, VideoRule::Qp, 0)),
        ),
        (
            &["--form=y4m", "--limit=1000", "--qp-max=64"],
            format(16, 16, Chroma::C400, 10),
            Some(bad(Slot::Input, VideoRule::Qp, 0)),
        ),
        (
            &["--form=y4m", "--limit=1000", "--qp-max=70"],
            format(16, 16, Chroma::C422, 11),
            Some(bad(Slot::Input, VideoRule::Qp, 0)),
        ),
        (
            &["--form=y4m", "--limit=1000", "--qp-min=63", "--qp-max=63"],
            format(16, 16, Chroma::C400, 10),
            None,
        ),
        (
            &["--form=y4m", "--limit=1000", "--qp-min=64", "--qp-max=75"],
            format(16, 16, Chroma::C422, 12),
            None,
        ),
        (
            &["--form=y4m", "--limit=1000"],
            format(16, 16, Chroma::C400, 10),
            None,
        ),
    ];
    for (words, format, answer) in table {
        let settings = settings_of(rt.alloc(), words)?;
        assert_eq!(rt; refusal(&settings, &format), answer, "{format:?}");
    }
    Ok(())
}

#[test]
fn takes_default_profiles(rt: HostRuntime) -> Result<(), Fail> {
    let settings = settings_of(
        rt.alloc(),
        &["--form=y4m", "--qp=20", "--level=4.1", "--band=2"],
    )?;
    for (depth, profile) in [(10, 77), (11, 88), (12, 88)] {
        let header = judge_format(&settings, &format(16, 16, Chroma::C4444, depth));
        let header = header.ok().ok_or("a header")?;
        assert_eq!(rt; header.info.profile, profile);
        assert_eq!(rt; (header.info.level, header.info.band), (123, 2));
        assert_eq!(rt; header.info.format(), format(16, 16, Chroma::C4444, depth));
        assert_eq!(rt; (header.tile_width, header.tile_height), (16, 16));
    }
    Ok(())
}

/// The settings of a Y4M file at a QP, with one further option and its value.
fn settings_with(alloc: Global, option: &str, value: &str) -> Result<EncSettings, Fail>
    ensures { IfOk result (λ settings. HasEncBounds settings) }
{
    let mut word = String::from_str(alloc, option)?;
    word.push_str(value)?;
    settings_of(alloc, &["--form=y4m", "--qp=20", word.as_str()])
}

/// The matrix with 1 to 64, row after row.
fn rising() -> Result<Matrix, Fail> {
    let mut values = [0; 64];
    for place in 0..64 {
        values[place] = place as u8 + 1;
    }
    let matrix = Matrix::of(values).ok_or("a matrix")?;
    Ok(matrix)
}

#[test]
fn takes_matrices_of_components(rt: HostRuntime) -> Result<(), Fail> {
    // The option, the chroma format, and the component whose matrix is then not flat.
    let table: [(&str, Chroma, Option<usize>); 10] = [
        ("--matrix-0=", Chroma::C400, Some(0)),
        ("--matrix-1=", Chroma::C400, None),
        ("--matrix-2=", Chroma::C400, None),
        ("--matrix-3=", Chroma::C400, None),
        ("--matrix-0=", Chroma::C422, Some(0)),
        ("--matrix-1=", Chroma::C422, Some(1)),
        ("--matrix-2=", Chroma::C444, Some(2)),
        ("--matrix-3=", Chroma::C422, None),
        ("--matrix-3=", Chroma::C444, None),
        ("--matrix-3=", Chroma::C4444, Some(3)),
    ];
    for (option, chroma, component) in table {
        let settings = settings_with(rt.alloc(), option, RISING)?;
        let header = judge_format(&settings, &format(16, 16, chroma, 10));
        let header = header.ok().ok_or("a header")?;
        let mut matrices = [Matrix::flat(); 4];
        if let Some(component) = component {
            matrices[component % 4] = rising()?;
        }
        assert_eq!(rt; header.use_matrix, component.is_some(), "{option}");
        assert!(rt; header.matrices == matrices, "{option}");
    }
    Ok(())
}

#[test]
fn takes_colour_and_tile_sizes(rt: HostRuntime) -> Result<(), Fail> {
    let primary = format(16, 16, Chroma::C400, 10);
    let settings = settings_with(rt.alloc(), "--colour=", "9,16,0,1")?;
    let header = judge_format(&settings, &primary).ok().ok_or("a header")?;
    let colour = Colour {
        primaries: 9,
        transfer: 16,
        matrix: 0,
        full_range: true,
    };
    assert_eq!(rt; header.colour, Some(colour));
    assert!(rt; !header.sizes_present);
    let settings = settings_with(rt.alloc(), "--tile-sizes", "")?;
    let header = judge_format(&settings, &primary).ok().ok_or("a header")?;
    assert_eq!(rt; header.colour, None);
    assert!(rt; header.sizes_present);
    Ok(())
}

#[test]
fn judges_previews(rt: HostRuntime) -> Result<(), Fail> {
    // The width and height of the preview frames, and the answer, where they aren't taken.
    let table: [(&str, &str, Option<Exit>); 4] = [
        (
            "--preview-width=17",
            "--preview-height=16",
            Some(bad(Slot::Preview, VideoRule::Size, 0)),
        ),
        (
            "--preview-width=8192",
            "--preview-height=8208",
            Some(Exit::LimitMet(Limit::L2, 262656)),
        ),
        ("--preview-width=8192", "--preview-height=8192", None),
        ("--preview-width=16", "--preview-height=17", None),
    ];
    for (width, height, answer) in table {
        let words = ["--form=y4m", "--qp=20", "--preview=preview", width, height];
        let settings = settings_of(rt.alloc(), &words)?;
        match judge_preview(&settings) {
            Ok(header) => {
                assert_eq!(rt; answer, None, "{width}");
                assert!(rt; header.is_some());
            }
            Err(exit) => assert_eq!(rt; Some(exit), answer, "{width}"),
        }
    }
    let settings = settings_of(rt.alloc(), &["--form=y4m", "--qp=20"])?;
    assert_eq!(rt; judge_preview(&settings), Ok(None));
    Ok(())
}

/// The settings of all further tracks.
fn all_tracks(alloc: Global) -> Result<EncSettings, Fail>
    ensures { IfOk result (λ settings. HasEncBounds settings) }
{
    let words = [
        "--form=y4m",
        "--qp=20",
        "--level=5.1",
        "--band=3",
        "--tile-width=20",
        "--tile-sizes",
        "--colour=1,1,1,0",
        "--preview=preview",
        "--preview-width=330",
        "--preview-height=20",
        "--depth-map=depth",
        "--alpha=alpha",
    ];
    settings_of(alloc, &words)
}

/// Whether the header has flat matrices and no colour description, and states the sizes of tiles.
fn is_plain(header: &FrameHeader) -> bool {
    !header.use_matrix
        && header.matrices == [Matrix::flat(); 4]
        && header.colour.is_none()
        && header.sizes_present
}

/// The header of depth and alpha frames, where the format passes.
fn grey_of(settings: &EncSettings, format: &Format) -> Option<FrameHeader>
    requires { HasEncBounds settings.now }
{
    match judge_format(settings, format) {
        Ok(_) => Some(grey_header(settings, format)),
        Err(_) => None,
    }
}

#[test]
fn makes_further_headers(rt: HostRuntime) -> Result<(), Fail> {
    let settings = all_tracks(rt.alloc())?;
    let grey = grey_of(&settings, &format(5121, 16, Chroma::C444, 12)).ok_or("a header")?;
    let preview = judge_preview(&settings).ok().ok_or("a header")?;
    let preview = preview.ok_or("a preview")?;
    assert_eq!(rt; grey.info.format(), format(5121, 16, Chroma::C400, 10));
    assert_eq!(rt; grey.info.profile, 99);
    assert_eq!(rt; (grey.tile_width, grey.tile_height), (20, 16));
    assert_eq!(rt; preview.info.format(), format(330, 20, Chroma::C422, 10));
    assert_eq!(rt; preview.info.profile, 33);
    assert_eq!(rt; (preview.tile_width, preview.tile_height), (16, 16));
    for header in [grey, preview] {
        assert_eq!(rt; (header.info.level, header.info.band), (153, 3));
        assert!(rt; is_plain(&header));
    }
    Ok(())
}

const fn kind(slot: Slot, pbu_type: u8) -> TrackKind {
    TrackKind { slot, pbu_type }
}

#[test]
fn names_the_tracks(rt: HostRuntime) -> Result<(), Fail> {
    let primary = kind(Slot::Input, 1);
    let preview = kind(Slot::Preview, 25);
    let depth = kind(Slot::Depth, 26);
    let alpha = kind(Slot::Alpha, 27);
    let settings = all_tracks(rt.alloc())?;
    let kinds = track_kinds(&settings);
    assert!(rt; kinds.as_slice() == [primary, preview, depth, alpha].as_slice());
    let settings = settings_with(rt.alloc(), "--alpha=", "alpha")?;
    let kinds = track_kinds(&settings);
    assert!(rt; kinds.as_slice() == [primary, alpha].as_slice());
    let settings = settings_with(rt.alloc(), "--depth-map=", "depth")?;
    let kinds = track_kinds(&settings);
    assert!(rt; kinds.as_slice() == [primary, depth].as_slice());
    Ok(())
}
