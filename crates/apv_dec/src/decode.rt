//! The loop over the access units of a file.
ghost use Rattle.std.specs.Prelude.{◌≡◌, ℕ, List, is_some};
ghost use Rattle.std.specs.Bool.{OnTrue};
ghost use Rattle.apv_base.specs.declared.slot.Slot.TheVariants.{Input, Output, MetaOut};
ghost use Rattle.apv_files.specs.declared.files.Mode.TheVariants.{Reading, Writing};
ghost use Rattle.apv_dec.specs.Decoded.{DecodedUnits};
ghost use Rattle.apv_dec.specs.Outputs.{new_format as new_format_lem, output_settings};

use crate::exits::no_unit_exit;
use crate::formats::judge_formats;
use crate::judge::judge_unit;
use crate::metadata::write_metadata;
use crate::pictures::write_pictures;
use crate::unit::next_unit;
use apv_base::{Exit, Format, Slot};
use apv_files::Files;
use apv_frame::UnitFrames;
use apv_run::write_exit;
use apv_words::DecSettings;
use apv_workers::{Crew, Gate};
use std::alloc::Global;
use std::thread::Threads;

/// The format whose header line comes before the pictures of a unit: that of the first picture so far, where there was none
/// before the unit.
fn new_format(before: Option<Format>, now: Option<Format>) -> Option<Format>
    ensures { result ≡ new_format_lem before now }
{
    match before {
        None => now,
        Some(_) => None,
    }
}

/// Reads the access units of `Input` one after another, up to what stops the decoder: the end of the input (`Done`), a
/// unit that isn't accepted, a fault, or running out of memory. Each unit is judged and all its frames are decoded; then
/// its metadata payloads are written to `MetaOut` and the pictures of its selected frames to `Output`, where the settings
/// name them, before the next unit is read. The crew divides the tiles of a frame among its workers.
pub fn decode<R: Threads + Sync, F: Files, G: Gate>(
    alloc: Global,
    crew: &Crew<'_, R, G>,
    settings: &DecSettings,
    files: &mut F,
) -> Exit
    requires reading { (F.slot_view files.old Input).mode ≡ Reading }
    requires output { OnTrue (is_some settings.now.output)
        ((F.slot_view files.old Output).mode ≡ Writing) }
    requires metadata { OnTrue (is_some settings.now.metadata)
        ((F.slot_view files.old MetaOut).mode ≡ Writing) }
    ensures views { DecodedUnits (output_settings settings.now) (F.slot_view files.old) result
        (F.slot_view files.new) }
    ensures held { (file : List ℕ) → F.held files.new file ≡ F.held files.old file }
{
    let mut unit = Vec::new(alloc);
    let mut frames = UnitFrames::new(alloc);
    let mut number = 0;
    let mut format = None;
    loop {
        match next_unit(files, number, &mut unit) {
            Ok(true) => {}
            Ok(false) => return Exit::Done,
            Err(end) => return no_unit_exit(end),
        }
        match judge_unit(crew, &mut frames, &unit, number, settings.strict) {
            Ok(()) => {}
            Err(exit) => return exit,
        }
        let next = match judge_formats(settings, format, &unit, frames.frames()) {
            Ok(next) => next,
            Err(exit) => return exit,
        };
        match write_metadata(files, settings, &unit) {
            Ok(()) => {}
            Err(failed) => return write_exit(Slot::MetaOut, failed),
        }
        let header = new_format(format, next);
        match write_pictures(files, settings, header, &unit, frames.frames()) {
            Ok(()) => {}
            Err(failed) => return write_exit(Slot::Output, failed),
        }
        format = next;
        number += 1;
    }
}
