//! The loop over the frames of a run.
ghost use Rattle.std.specs.Prelude.{◌≡◌, ℕ, ◌<◌, ◌≤◌, ◌*◌, List, [], length, IfOk, IfSome, OnOk};
ghost use Rattle.std.specs.Prelude.{is_some};
ghost use Rattle.std.specs.Prelude.{if◌then◌else◌};
ghost use Rattle.std.specs.Bool.{OnTrue};
ghost use Rattle.apv_base.specs.declared.format.Format.{Format};
ghost use Rattle.apv_base.specs.declared.slot.Slot.TheVariants.{Output, Recon};
ghost use Rattle.apv_base.specs.model.Header.{grid_of};
ghost use Rattle.apv_base.specs.model.Judge.{DecodedFrame};
ghost use Rattle.apv_base.specs.model.Picture.{frame_picture};
ghost use Rattle.apv_base.specs.model.Run.{MAX_UNIT, sized};
ghost use Rattle.apv_files.specs.Loops.{WritesAll};
ghost use Rattle.apv_files.specs.SlotView.{OnlyAt};
ghost use Rattle.apv_files.specs.declared.files.Mode.TheVariants.{Writing};
ghost use Rattle.apv_workers.specs.Track.{frame_of, levels_of};
ghost use Rattle.apv_words.specs.Encoder.{HasEncBounds, HasEncFiles};
ghost use Rattle.apv_tracks.specs.Kinds.{AreReading};
ghost use Rattle.apv_tracks.specs.Plain.{plain_settings};
ghost use Rattle.apv_tracks.specs.States.{HaveOwnGrids};
ghost use Rattle.apv_encoding.specs.Answer.{Inputs};
ghost use Rattle.apv_encoding.specs.Settings.{Track as PlainTrack};
ghost use Rattle.apv_enc.specs.Added.{HasFirstFrame, IsAddedTo};
ghost use Rattle.apv_enc.specs.Check.{IsCheckOf, report_by, report_in};
ghost use Rattle.apv_enc.specs.Frames.{AreTracksFor, EncodedFrames};
ghost use Rattle.apv_enc.specs.Steps.{HasReconGrid, unit_exit as unit_exit_lem};

use crate::check::Check;
use crate::end::RunEnd;
use crate::unit::{UnitFault, encode_unit};
use apv_base::{Exit, Limit, Slot};
use apv_console::Report;
use apv_encoding::valid_unit;
use apv_files::{Failed, Files, write_all};
use apv_frame::reconstruct;
use apv_grid::{Frame, Grid};
use apv_run::{failed, write_exit};
use apv_search::Chosen;
use apv_tracks::read_pictures;
use apv_video::write_frame;
use apv_words::EncSettings;
use apv_workers::{Crew, Gate, Track};
use std::alloc::{AllocError, Global};
use std::thread::Threads;

/// The answer where no access unit of the frame of that number was made.
fn unit_exit(settings: &EncSettings, number: u32, fault: UnitFault) -> Exit
    ensures { result ≡ unit_exit_lem settings.now number fault }
{
    match fault {
        UnitFault::TooLarge(smallest) => Exit::TooLarge {
            frame: number,
            smallest,
            limit: u64::from(settings.limit.unwrap_or(0)),
        },
        UnitFault::Limit(size) => Exit::LimitMet(Limit::L1, size),
        UnitFault::Memory => Exit::Memory,
    }
}

/// Writes an access unit to `Output`, after the number of its bytes in four bytes, the high one first (`au_size`),
/// where the settings name the output, else nothing.
fn write_unit<F: Files>(files: &mut F, settings: &EncSettings, unit: &[u8]) -> Result<(), Failed>
    requires writing { OnTrue (is_some settings.now.output)
        ((F.slot_view files.old Output).mode ≡ Writing) }
    requires small { length unit.now ≤ MAX_UNIT }
    ensures here { WritesAll (F.slot_view files.old Output)
        (if is_some settings.now.output then sized unit.now else []) result
        (F.slot_view files.new Output) }
    ensures elsewhere { OnlyAt Output (F.slot_view files.old) (F.slot_view files.new) }
    ensures held { (file : List ℕ) → F.held files.new file ≡ F.held files.old file }
{
    if settings.output.is_none() {
        return Ok(());
    }
    let size = (unit.len() as u32).to_be_bytes();
    match write_all(files, Slot::Output, &size) {
        Ok(()) => write_all(files, Slot::Output, unit),
        Err(failed) => Err(failed),
    }
}

/// A frame for the reconstruction, of the grid of the track, where the settings name it, else none. Fails where no memory
/// is left.
fn recon_frame(
    alloc: Global,
    settings: &EncSettings,
    grid: &Grid,
) -> Result<Option<Frame>, AllocError>
    ensures named { IfOk result (λ recon. is_some recon ≡ is_some settings.now.recon) }
    ensures grid { IfOk result (λ recon. HasReconGrid recon grid.now) }
{
    if settings.recon.is_none() {
        return Ok(None);
    }
    let frame = Frame::new(alloc, grid)?;
    Ok(Some(frame))
}

/// Writes the picture that a decoder makes of the levels of the track to `Recon`, where there is a frame for it, else
/// nothing.
fn write_recon<R: Threads + Sync, F: Files, G: Gate>(
    crew: &Crew<'_, R, G>,
    files: &mut F,
    track: &Track,
    recon: &mut Option<Frame>,
) -> Result<(), Failed>
    requires writing { OnTrue (is_some recon.old)
        ((F.slot_view files.old Recon).mode ≡ Writing) }
    requires grid { HasReconGrid recon.old (grid_of track.now.header) }
    ensures here { WritesAll (F.slot_view files.old Recon)
        (if is_some recon.old then frame_picture (frame_of track.now) (levels_of track.now) else [])
        result (F.slot_view files.new Recon) }
    ensures named { is_some recon.new ≡ is_some recon.old }
    ensures grid { HasReconGrid recon.new (grid_of track.now.header) }
    ensures elsewhere { OnlyAt Recon (F.slot_view files.old) (F.slot_view files.new) }
    ensures held { (file : List ℕ) → F.held files.new file ≡ F.held files.old file }
{
    let Some(frame) = recon else {
        return Ok(());
    };
    reconstruct(crew, track, frame);
    match write_frame(files, Slot::Recon, frame, false) {
        Ok(()) => Ok(()),
        Err(put) => Err(failed(put)),
    }
}

/// A check of the access units of a generated video, where the settings ask for one, else none.
fn check_of(alloc: Global, settings: &EncSettings) -> Option<Check>
    ensures { (primary : PlainTrack) → IsCheckOf settings.now.generate primary [] result }
{
    match settings.generate {
        Some(seed) => Some(Check::new(alloc, seed)),
        None => None,
    }
}

/// Decodes the next access unit, of that number, and takes it up in the check, where there is one. Fails only where memory
/// ran out.
fn add_unit<R: Threads + Sync, G: Gate>(
    crew: &Crew<'_, R, G>,
    unit: &[u8],
    number: u32,
    chosen: &Chosen,
    check: &mut Option<Check>,
) -> Result<(), AllocError>
    requires few { IfSome check.old (λ check. (report_in check).frames < 4294967295) }
    requires bytes { IfSome check.old (λ check.
        (report_in check).bytes ≤ (report_in check).frames * 536870916) }
    requires size { chosen.now.size ≤ MAX_UNIT }
    requires small { length unit.now ≤ MAX_UNIT }
    requires first { (first : DecodedFrame) × HasFirstFrame unit.now first }
    ensures { OnOk result (IsAddedTo check.old chosen.now unit.now check.new) }
{
    match check {
        Some(check) => check.add(crew, unit, number, chosen),
        None => Ok(()),
    }
}

/// The report of a check, where there is one.
fn report_of(check: &Option<Check>) -> Option<Report>
    ensures { result ≡ report_by check.now }
{
    match check {
        Some(check) => Some(check.report()),
        None => None,
    }
}

/// Encodes frames one after another, each of a picture of each track, up to what stops the encoder: the end of all slots
/// (`Done`), a picture that breaks a rule or is one too many or too few (`BadVideo`), a limit that is exceeded
/// (`LimitMet`), an access unit that keeps the settings' limit at no permitted QP (`TooLarge`), a fault, or running out of
/// memory. The access unit of each frame is written to `Output`, after its size (`au_size`), and then the picture that a
/// decoder makes of its primary frame to `Recon`, where the settings name them, before the next frame is read. Where the
/// video is generated, each access unit is judged and decoded before it is written, and compared with the video. The crew
/// divides the tiles of a frame among its workers.
///
/// The tracks are those that the settings ask for, with a format of the primary frames that passes, and their frames have
/// the grids of their headers. Each access unit carries the payloads, which are within the limit L1.
pub(crate) fn encode_frames<R: Threads + Sync, F: Files, G: Gate>(
    alloc: Global,
    crew: &Crew<'_, R, G>,
    settings: &EncSettings,
    payloads: &[u8],
    files: &mut F,
    tracks: &mut [Track],
) -> RunEnd
    requires bounds { HasEncBounds settings.now }
    requires given { HasEncFiles settings.now }
    requires reading { AreReading settings.now (F.slot_view files.old) }
    requires output { OnTrue (is_some settings.now.output)
        ((F.slot_view files.old Output).mode ≡ Writing) }
    requires recon { OnTrue (is_some settings.now.recon)
        ((F.slot_view files.old Recon).mode ≡ Writing) }
    requires few { length payloads.now ≤ MAX_UNIT }
    requires grids { HaveOwnGrids tracks.old }
    requires tracks { (inputs : Inputs) × (format : Format)
        × AreTracksFor (plain_settings settings.now) inputs format payloads.now tracks.old }
    ensures views { (inputs : Inputs) (format : Format)
        → AreTracksFor (plain_settings settings.now) inputs format payloads.now tracks.old
        → EncodedFrames settings.now inputs format (F.slot_view files.old) result
        (F.slot_view files.new) }
    ensures held { (file : List ℕ) → F.held files.new file ≡ F.held files.old file }
{
    let grid = tracks[0].grid();
    let Ok(mut recon) = recon_frame(alloc, settings, grid) else {
        return RunEnd::of(Exit::Memory);
    };
    let mut check = check_of(alloc, settings);
    valid_unit();
    let mut unit = Vec::new(alloc);
    let mut number = 0;
    loop {
        match read_pictures(files, settings, number, tracks) {
            Ok(()) => {}
            Err(exit) => {
                let report = report_of(&check);
                return RunEnd { exit, report };
            }
        }
        let chosen = match encode_unit(crew, settings, tracks, payloads, &mut unit) {
            Ok(chosen) => chosen,
            Err(fault) => return RunEnd::of(unit_exit(settings, number, fault)),
        };
        let Ok(()) = add_unit(crew, &unit, number, &chosen, &mut check) else {
            return RunEnd::of(Exit::Memory);
        };
        match write_unit(files, settings, &unit) {
            Ok(()) => {}
            Err(failed) => return RunEnd::of(write_exit(Slot::Output, failed)),
        }
        match write_recon(crew, files, &tracks[0], &mut recon) {
            Ok(()) => {}
            Err(failed) => return RunEnd::of(write_exit(Slot::Recon, failed)),
        }
        number += 1;
    }
}
