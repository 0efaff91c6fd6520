//! The pictures of a frame, read.
ghost use Rattle.std.specs.Prelude.{◌≡◌, ℕ, ℤ, List, Contains, length, IfErr, IfOk};
ghost use Rattle.apv_base.specs.declared.format.Format.{Format};
ghost use Rattle.apv_base.specs.declared.slot.Slot.TheVariants.{Input};
ghost use Rattle.apv_base.specs.model.Format.{IsSoundFormat};
ghost use Rattle.apv_encoding.specs.Settings.{tracks_of};
ghost use Rattle.apv_files.specs.SlotView.{OnlyAt};
ghost use Rattle.apv_files.specs.declared.files.Mode.TheVariants.{Reading};
ghost use Rattle.apv_tracks.specs.Format.{input_shape};
ghost use Rattle.apv_tracks.specs.Kinds.{AreReading, OnlyAtTracks, kinds_of};
ghost use Rattle.apv_tracks.specs.PictureSteps.{FurtherEnd, ReadsPicture, is_y4m_slot};
ghost use Rattle.apv_tracks.specs.PictureSteps.{video_end_exit as video_end_exit_lem};
ghost use Rattle.apv_tracks.specs.Pictures.{IsWithinFrame, PicturesEnd, TookPictures};
ghost use Rattle.apv_tracks.specs.Plain.{plain_settings};
ghost use Rattle.apv_tracks.specs.States.{AreSameButFrames, AreStatesOf, HaveOwnGrids};
ghost use Rattle.apv_tracks.specs.States.{IsSameButFrame};

use crate::kinds::{TrackKind, track_kinds};
use apv_base::{Exit, Form, Format, Slot, VideoBreak, VideoRule};
use apv_files::{Files, fill};
use apv_grid::Frame;
use apv_run::read_exit;
use apv_video::{Shape, VideoEnd, read_frame};
use apv_words::EncSettings;
use apv_workers::Track;

/// The answer where no picture was read.
pub(crate) fn video_end_exit(end: VideoEnd) -> Exit
    ensures { result ≡ video_end_exit_lem end }
{
    match end {
        VideoEnd::Bad(broken) => Exit::BadVideo(broken),
        VideoEnd::Limit(limit, count) => Exit::LimitMet(limit, count),
        VideoEnd::Read(slot) => Exit::ReadFailed(slot),
        VideoEnd::Memory => Exit::Memory,
    }
}

/// The rule that a slot breaks at the frame of that number.
fn bad_frame(slot: Slot, rule: VideoRule, frame: u32) -> Exit
    ensures { result ≡ Exit.BadVideo (record { slot = slot; rule = rule; frame = frame }) }
{
    Exit::BadVideo(VideoBreak { slot, rule, frame })
}

/// Whether the pictures of a slot are in a Y4M file: those of `Input`, where the settings say so.
fn is_y4m(settings: &EncSettings, slot: Slot) -> bool
    ensures { result ≡ is_y4m_slot settings.now slot }
{
    match slot {
        Slot::Input => matches!(settings.form, Form::Y4m),
        _ => false,
    }
}

/// The format of the pictures of a frame, which is sound.
fn format_of(frame: &Frame) -> Format
    ensures is { result ≡ frame.now.grid.format }
    ensures sound { IsSoundFormat result }
{
    let grid = frame.grid();
    // The count isn't needed: its contract says that the grid is sound.
    let _ = grid.tiles();
    grid.format()
}

/// Reads the next picture of a slot, which has that number, counted from 0, into the frame of its track, and pads it.
/// False is the end of the slot before a picture.
fn read_picture<F: Files>(
    files: &mut F,
    slot: Slot,
    y4m: bool,
    number: u32,
    track: &mut Track,
) -> Result<bool, VideoEnd>
    requires { (F.slot_view files.old slot).mode ≡ Reading }
    ensures here { ReadsPicture slot y4m number (F.slot_view files.old slot) result
        track.new.frame (F.slot_view files.new slot) }
    ensures track { IsSameButFrame track.old track.new }
    ensures elsewhere { OnlyAt slot (F.slot_view files.old) (F.slot_view files.new) }
    ensures held { (file : List ℕ) → F.held files.new file ≡ F.held files.old file }
{
    let frame = track.frame_mut();
    let format = format_of(frame);
    let shape = Shape { format, y4m };
    match read_frame(files, slot, &shape, number, frame) {
        Ok(true) => {
            frame.pad();
            Ok(true)
        }
        Ok(false) => Ok(false),
        Err(end) => Err(end),
    }
}

/// The answer where `Input` has ended before the frame of that number, and the slots of these other tracks are still to be
/// judged: `Done` where each has ended too, else `Extra` at the first that has a byte, which is taken.
fn further_end<F: Files>(files: &mut F, kinds: &[TrackKind], number: u32) -> Exit
    requires { (kind : TrackKind) → Contains kinds.now kind
        → (F.slot_view files.old kind.slot).mode ≡ Reading }
    ensures here { FurtherEnd kinds.now number (F.slot_view files.old) (F.slot_view files.new)
        result }
    ensures held { (file : List ℕ) → F.held files.new file ≡ F.held files.old file }
{
    for kind in kinds {
        let mut byte = [0; 1];
        match fill(files, kind.slot, &mut byte) {
            Ok(0) => {}
            Ok(_) => return bad_frame(kind.slot, VideoRule::Extra, number),
            Err(failed) => return read_exit(kind.slot, failed),
        }
    }
    Exit::Done
}

/// Reads the next frame of a run, which has that number, counted from 0: a picture of each track in turn, into the frame
/// of the track, which is padded then (`Frame::pad`). The pictures of `Input` are in a file of the form that the settings
/// name, those of all other slots in planar files.
///
/// The error is the answer of the run:
///
/// - `Done`: all slots have ended.
/// - `BadVideo` with the frame's number. `Extra`: `Input` has ended, and the first other slot that hasn't. `Missing`:
///   `Input` has a picture, and this slot has ended before the frame. Else the rule that the picture of the slot breaks
///   (`FrameLine`, `Truncated`, `Range`). Of several breaks it is that of the first slot, in the order of the tracks.
/// - `LimitMet` with L3 and 4,294,967,296: the number is 4,294,967,295, and `Input` hasn't ended.
/// - `ReadFailed` with a slot whose read faults rose; `Memory` from the files.
///
/// The tracks are those of the settings, and their frames have the grids of their headers. Only the samples of the frames
/// change. After an error nothing is said of them, and no byte of `Input` after its next picture was taken.
pub fn read_pictures<F: Files>(
    files: &mut F,
    settings: &EncSettings,
    number: u32,
    tracks: &mut [Track],
) -> Result<(), Exit>
    requires reading { AreReading settings.now (F.slot_view files.old) }
    requires count { length tracks.old ≡ length (kinds_of settings.now) }
    requires grids { HaveOwnGrids tracks.old }
    ensures ok { IfOk result (λ _. (format : Format) (tile_offset : ℕ → ℤ)
        → let tracks_of_run = tracks_of (plain_settings settings.now) format tile_offset in
        AreStatesOf tracks_of_run tracks.old
        → TookPictures (plain_settings settings.now).source tracks_of_run number
        (F.slot_view files.old) tracks.new (F.slot_view files.new)) }
    ensures err { IfErr result (λ exit. (format : Format) (tile_offset : ℕ → ℤ)
        → let tracks_of_run = tracks_of (plain_settings settings.now) format tile_offset in
        AreStatesOf tracks_of_run tracks.old
        → PicturesEnd (plain_settings settings.now).source tracks_of_run number
        (F.slot_view files.old) (F.slot_view files.new) exit) }
    ensures within { IfErr result (λ _. (format : Format) (tile_offset : ℕ → ℤ)
        → AreStatesOf (tracks_of (plain_settings settings.now) format tile_offset) tracks.old
        → IsWithinFrame (input_shape settings.now.form format) (F.slot_view files.old Input)
        (F.slot_view files.new Input)) }
    ensures tracks { AreSameButFrames tracks.old tracks.new }
    ensures others { OnlyAtTracks settings.now (F.slot_view files.old) (F.slot_view files.new) }
    ensures held { (file : List ℕ) → F.held files.new file ≡ F.held files.old file }
{
    let kinds = track_kinds(settings);
    for index in 0..tracks.len() {
        let slot = kinds[index].slot;
        let y4m = is_y4m(settings, slot);
        match read_picture(files, slot, y4m, number, &mut tracks[index]) {
            Ok(true) => {}
            Ok(false) => {
                if index == 0 {
                    return Err(further_end(files, &kinds[1..], number));
                }
                return Err(bad_frame(slot, VideoRule::Missing, number));
            }
            Err(end) => return Err(video_end_exit(end)),
        }
    }
    Ok(())
}
