//! What a run tells the console.
ghost use Rattle.std.specs.Prelude.{◌≡◌, ℕ, List, ◌⊎◌};
ghost use Rattle.apv_base.specs.declared.slot.Slot.TheVariants.{Console};
ghost use Rattle.apv_files.specs.SlotView.{OnlyAt};
ghost use Rattle.apv_console.specs.Line.{report_line};
ghost use Rattle.apv_console.specs.Tells.{Tells, TellsLine, NoFault};

use crate::line::line_of;
use crate::report::{Report, report_line_of};
use apv_base::{Exit, Slot};
use apv_files::{Failed, Files, write_all};
use std::alloc::Global;

/// Writes the line of an answer to the console, and returns the same answer, or `Memory` where memory ran out before
/// the whole line was written. A fault of the console changes no answer.
pub fn tell<F: Files>(alloc: Global, files: &mut F, exit: Exit) -> Exit
    ensures answer { (result ≡ exit) ⊎ (result ≡ Exit.Memory) }
    ensures fault { (result ≡ exit)
        ⊎ NoFault (F.slot_view files.old Console) (F.slot_view files.new Console) }
    ensures console { Tells (F.slot_view files.old Console) result (F.slot_view files.new Console) }
    ensures elsewhere { OnlyAt Console (F.slot_view files.old) (F.slot_view files.new) }
    ensures held { (file : List ℕ) → F.held files.new file ≡ F.held files.old file }
{
    let Ok(line) = line_of(alloc, exit) else {
        return Exit::Memory;
    };
    tell_line(files, line.as_str(), exit)
}

/// Writes the line of a report to the console after a run that ended with `Done`, and returns `Done`, or `Memory` where
/// memory ran out before the whole line was written. A fault of the console changes no answer.
pub fn tell_report<F: Files>(alloc: Global, files: &mut F, report: &Report) -> Exit
    ensures answer { (result ≡ Exit.Done) ⊎ (result ≡ Exit.Memory) }
    ensures fault { (result ≡ Exit.Done)
        ⊎ NoFault (F.slot_view files.old Console) (F.slot_view files.new Console) }
    ensures console { TellsLine (F.slot_view files.old Console) (report_line report.now) result
        (F.slot_view files.new Console) }
    ensures elsewhere { OnlyAt Console (F.slot_view files.old) (F.slot_view files.new) }
    ensures held { (file : List ℕ) → F.held files.new file ≡ F.held files.old file }
{
    let Ok(line) = report_line_of(alloc, report) else {
        return Exit::Memory;
    };
    tell_line(files, line.as_str(), Exit::Done)
}

/// Writes a line to the console, and returns the answer that it is given, or `Memory` where memory ran out before the
/// whole line was written. A fault of the console changes no answer.
fn tell_line<F: Files>(files: &mut F, line: &str, exit: Exit) -> Exit
    ensures answer { (result ≡ exit) ⊎ (result ≡ Exit.Memory) }
    ensures fault { (result ≡ exit)
        ⊎ NoFault (F.slot_view files.old Console) (F.slot_view files.new Console) }
    ensures console { TellsLine (F.slot_view files.old Console) line.now result
        (F.slot_view files.new Console) }
    ensures elsewhere { OnlyAt Console (F.slot_view files.old) (F.slot_view files.new) }
    ensures held { (file : List ℕ) → F.held files.new file ≡ F.held files.old file }
{
    match write_all(files, Slot::Console, line.as_bytes()) {
        Ok(()) | Err(Failed::Device) => exit,
        Err(Failed::Memory) => Exit::Memory,
    }
}
