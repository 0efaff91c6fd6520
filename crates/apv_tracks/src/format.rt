//! The formats of the frames, judged, and the headers of the frames.
ghost use Rattle.std.specs.Prelude.{◌≡◌, Some, None, true, false, IfSome, IfNone, map, take};
ghost use Rattle.std.specs.Prelude.{is_some, replicate, ◌++◌, ◌-◌};
ghost use Rattle.std.specs.List.{list_any};
ghost use Rattle.std.specs.Option.{option_map};
ghost use Rattle.apv_base.specs.declared.slot.Slot.TheVariants.{Input, Preview};
ghost use Rattle.apv_base.specs.model.Format.{IsDepth, IsSoundFormat, comps_of};
ghost use Rattle.apv_base.specs.model.Header.{IsSoundHeader, flat};
ghost use Rattle.apv_base.specs.model.Profile.{is_writable};
ghost use Rattle.apv_base.specs.model.Video.{bad};
ghost use Rattle.apv_words.specs.Encoder.{HasEncBounds};
ghost use Rattle.apv_tracks.specs.Format.{IsPrimaryHeader, IsPreviewHeader, Judges, Passes};
ghost use Rattle.apv_tracks.specs.Plain.{plain_settings};
ghost use Rattle.apv_encoding.specs.Settings.{check_input, check_preview, check_size_of};
ghost use Rattle.apv_encoding.specs.Settings.{is_written, primary_header, profile_of};
ghost use Rattle.apv_encoding.specs.Settings.{preview_format as format_of_preview};
ghost use Rattle.apv_encoding.specs.Settings.{further_header as header_further};
ghost use Rattle.apv_encoding.specs.Settings.{grey_header as header_grey, info_of as info_by};
ghost use Rattle.apv_encoding.specs.Settings.{tile_height_of, tile_width_of};
ghost use Rattle.apv_encoding.specs.Settings.{has_large_qp as is_large, has_many_tiles as are_many};
ghost use Rattle.apv_encoding.specs.Settings.{given_or};
ghost use Rattle.apv_encoding.specs.Tracks.{video_exit};

use apv_base::{
    Chroma, Exit, Format, FrameHeader, FrameInfo, Limit, MAX_MACROBLOCKS, Matrix, Slot, VideoBreak,
    VideoRule, default_profile, profile_writes, qp_max,
};
use apv_grid::{Grid, default_tile};
use apv_video::is_bad_size;
use apv_words::EncSettings;

/// A rule that the format of a slot breaks.
fn bad_format(slot: Slot, rule: VideoRule) -> Exit
    ensures { result ≡ video_exit slot 0 (bad rule) }
{
    Exit::BadVideo(VideoBreak {
        slot,
        rule,
        frame: 0,
    })
}

/// Judges the size of the frames of a slot: `Size`, and then L2 with the number of macroblocks.
fn judge_size(slot: Slot, format: &Format) -> Result<(), Exit>
    ensures { Judges slot (check_size_of format.now) Passes result }
{
    if is_bad_size(format) {
        return Err(bad_format(slot, VideoRule::Size));
    }
    let macroblocks = format.macroblocks();
    if macroblocks > MAX_MACROBLOCKS {
        return Err(Exit::LimitMet(Limit::L2, macroblocks));
    }
    Ok(())
}

/// The `profile_idc` that is asked for, or else the default of the format.
fn asked_profile(settings: &EncSettings, format: &Format) -> Option<u8>
    ensures { result ≡ profile_of (plain_settings settings.now) format.now }
{
    match settings.profile {
        Some(profile) => Some(profile),
        None => default_profile(format.chroma, format.depth),
    }
}

/// The same, where frames of the format are written with it.
fn written_profile(settings: &EncSettings, format: &Format) -> Option<u8>
    ensures some { IfSome result (λ profile.
        (profile_of (plain_settings settings.now) format.now ≡ Some profile)
        × (is_writable profile format.now.chroma format.now.depth ≡ true)) }
    ensures none { let plain = plain_settings settings.now in
        IfNone result (is_written (profile_of plain format.now) format.now ≡ false) }
{
    let profile = asked_profile(settings, format)?;
    if profile_writes(profile, format.chroma, format.depth) {
        Some(profile)
    } else {
        None
    }
}

/// The width and height of the tiles in macroblocks (`tile_width_in_mbs`, `tile_height_in_mbs`): each as it is asked
/// for, or else the default.
fn tile_size(settings: &EncSettings, format: &Format) -> (u32, u32)
    requires { IsSoundFormat format.now }
    ensures { let plain = plain_settings settings.now in
        result ≡ (tile_width_of plain format.now, tile_height_of plain format.now) }
{
    let (width, height) = default_tile(format);
    (
        settings.tile_width.unwrap_or(width),
        settings.tile_height.unwrap_or(height),
    )
}

/// Whether there are more than 20 columns or rows of tiles.
fn has_many_tiles(settings: &EncSettings, format: &Format) -> bool
    requires bounds { HasEncBounds settings.now }
    requires sound { IsSoundFormat format.now }
    ensures { result ≡ are_many (plain_settings settings.now) format.now }
{
    let (width, height) = tile_size(settings, format);
    match Grid::of(format, width, height) {
        Ok(_) => false,
        Err(_) => true,
    }
}

/// Whether a QP that is given is above the maximum of the bit depth: the QP of all frames, or where there is a limit the
/// first or the last QP that is tried.
fn has_large_qp(settings: &EncSettings, depth: u8) -> bool
    requires { IsDepth depth }
    ensures { result ≡ is_large (plain_settings settings.now).rate depth }
{
    let maximum = u32::from(qp_max(depth));
    if settings.limit.is_none() {
        return settings.qp.unwrap_or(0) > maximum;
    }
    settings.qp_min.unwrap_or(0) > maximum || settings.qp_max.unwrap_or(0) > maximum
}

/// What `frame_info()` says of frames of that profile and format.
fn info_of(settings: &EncSettings, profile: u8, format: &Format) -> FrameInfo
    requires { HasEncBounds settings.now }
    ensures { result ≡ info_by (plain_settings settings.now) profile format.now }
{
    FrameInfo {
        profile,
        level: settings.level,
        band: settings.band as u8,
        width: format.width,
        height: format.height,
        chroma: format.chroma,
        depth: format.depth,
        capture: 0,
    }
}

/// The quantisation matrices that the settings give for components that exist.
fn given_matrices(settings: &EncSettings, chroma: Chroma) -> [Option<Matrix>; 4]
    ensures { let comps = comps_of chroma in result ≡
        take comps (plain_settings settings.now).matrices ++ replicate (4 - comps) None }
{
    let (first, second) = (settings.matrix_0, settings.matrix_1);
    let (third, fourth) = (settings.matrix_2, settings.matrix_3);
    match chroma {
        Chroma::C400 => [first, None, None, None],
        Chroma::C422 | Chroma::C444 => [first, second, third, None],
        Chroma::C4444 => [first, second, third, fourth],
    }
}

/// Whether one of the matrices is given (`use_q_matrix`).
fn uses_matrix(matrices: &[Option<Matrix>; 4]) -> bool
    ensures { result ≡ list_any is_some matrices.now }
{
    matrices.iter().any(|matrix| matrix.is_some())
}

/// The matrices, where each that isn't given is flat.
fn or_flat(matrices: [Option<Matrix>; 4]) -> [Matrix; 4]
    ensures { result ≡ map (λ matrix. given_or matrix flat) matrices }
{
    matrices.map(|matrix| matrix.unwrap_or(Matrix::flat()))
}

/// The header of the primary frames, of that profile.
fn header_of(settings: &EncSettings, format: &Format, profile: u8) -> FrameHeader
    requires bounds { HasEncBounds settings.now }
    requires sound { IsSoundFormat format.now }
    requires profile { profile_of (plain_settings settings.now) format.now ≡ Some profile }
    ensures { result ≡ primary_header (plain_settings settings.now) format.now }
{
    let matrices = given_matrices(settings, format.chroma);
    let (tile_width, tile_height) = tile_size(settings, format);
    FrameHeader {
        info: info_of(settings, profile, format),
        colour: settings.colour,
        use_matrix: uses_matrix(&matrices),
        matrices: or_flat(matrices),
        tile_width,
        tile_height,
        sizes_present: settings.tile_sizes,
    }
}

/// The header of preview, depth or alpha frames, of that profile and format, with tiles of that width and height: flat
/// matrices and no colour description.
fn further_header(
    settings: &EncSettings,
    profile: u8,
    format: &Format,
    tiles: (u32, u32),
) -> FrameHeader
    requires { HasEncBounds settings.now }
    ensures { let plain = plain_settings settings.now in
        result ≡ header_further plain profile format.now tiles.0 tiles.1 }
{
    let (tile_width, tile_height) = tiles;
    FrameHeader {
        info: info_of(settings, profile, format),
        colour: None,
        use_matrix: false,
        matrices: [Matrix::flat(); 4],
        tile_width,
        tile_height,
        sizes_present: settings.tile_sizes,
    }
}

/// Judges the format of the primary frames, and returns their header (`frame_header()`): that of the settings, with the
/// matrices that they give for components that exist, and flat ones for all others. It breaks no rule.
///
/// The refusals come in this order, as the answers of a run: `Size`, where the width or height is 0 or above
/// 16,777,215, or the width is odd with 4:2:2; L2 with the number of macroblocks, where it is above 262,144; `Profile`,
/// where the profile isn't written with the format, or there is no default; `Grid`, where there are more than 20
/// columns or rows of tiles; `Qp`, where a QP that is given (`--qp`, or `--qp-min` and `--qp-max` with a limit) is above
/// the maximum of the bit depth. Each is of frame 0 of `Input`.
pub fn judge_format(settings: &EncSettings, format: &Format) -> Result<FrameHeader, Exit>
    requires { HasEncBounds settings.now }
    ensures { Judges Input (check_input (plain_settings settings.now) format.now)
        (IsPrimaryHeader settings.now format.now) result }
{
    judge_size(Slot::Input, format)?;
    let Some(profile) = written_profile(settings, format) else {
        return Err(bad_format(Slot::Input, VideoRule::Profile));
    };
    if has_many_tiles(settings, format) {
        return Err(bad_format(Slot::Input, VideoRule::Grid));
    }
    if has_large_qp(settings, format.depth) {
        return Err(bad_format(Slot::Input, VideoRule::Qp));
    }
    Ok(header_of(settings, format, profile))
}

/// The format of the preview frames, where the settings ask for them: 4:2:2 and 10 bits.
fn preview_format(settings: &EncSettings) -> Option<Format>
    ensures { result ≡ option_map format_of_preview (plain_settings settings.now).preview }
{
    if settings.preview.is_none() {
        return None;
    }
    Some(Format {
        width: settings.preview_width.unwrap_or(0),
        height: settings.preview_height.unwrap_or(0),
        chroma: Chroma::C422,
        depth: 10,
    })
}

/// Judges the format of the preview frames, and returns their header (`frame_header()`), where the settings ask for such
/// frames: 4:2:2 and 10 bits of the size that they name, with the default tiles, flat matrices and no colour
/// description. It breaks no rule.
///
/// The refusals, as the answers of a run, are of frame 0 of `Preview`: `Size`, where the width is odd, and then L2 with
/// the number of macroblocks, where it is above 262,144.
pub fn judge_preview(settings: &EncSettings) -> Result<Option<FrameHeader>, Exit>
    requires { HasEncBounds settings.now }
    ensures { Judges Preview (check_preview (plain_settings settings.now).preview)
        (IsPreviewHeader settings.now (plain_settings settings.now).preview) result }
{
    let Some(format) = preview_format(settings) else {
        return Ok(None);
    };
    judge_size(Slot::Preview, &format)?;
    let tiles = default_tile(&format);
    Ok(Some(further_header(settings, 33, &format, tiles)))
}

/// The header of depth and alpha frames (`frame_header()`), where the format of the primary frames passes: 4:0:0 and 10
/// bits of the size of the primary frames, with their tiles, flat matrices and no colour description. It breaks no rule.
pub(crate) fn grey_header(settings: &EncSettings, format: &Format) -> FrameHeader
    requires bounds { HasEncBounds settings.now }
    requires passes { check_input (plain_settings settings.now) format.now ≡ None }
    ensures is { result ≡ header_grey (plain_settings settings.now) format.now }
    ensures sound { IsSoundHeader result }
{
    let grey = Format {
        width: format.width,
        height: format.height,
        chroma: Chroma::C400,
        depth: 10,
    };
    further_header(settings, 99, &grey, tile_size(settings, format))
}
