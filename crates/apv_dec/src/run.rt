//! The top call: from the words of a command line to the answer.
ghost use Rattle.std.specs.Prelude.{◌≡◌, ◌≤◌, is_some, true};
ghost use Rattle.std.specs.Bool.{OnTrue};
ghost use Rattle.apv_base.specs.declared.slot.Slot.TheVariants.{Console, Input, MetaOut, Output};
ghost use Rattle.apv_base.specs.model.Slot.{slot_number};
ghost use Rattle.apv_console.specs.Tells.{Tells};
ghost use Rattle.apv_files.specs.SlotView.{AllClosed};
ghost use Rattle.apv_files.specs.declared.files.Mode.TheVariants.{Reading, Writing};
ghost use Rattle.apv_run.specs.Cause.{HasCause, IsUntouched, IsUsage};
ghost use Rattle.apv_run.specs.Names.{AreNamed};
ghost use Rattle.apv_run.specs.Opened.{AfterOpening};
ghost use Rattle.apv_dec.specs.Answer.{DecodesInput, EndsRun, IsComplete, is_own_answer};
ghost use Rattle.apv_dec.specs.Decoded.{DecodedUnits};
ghost use Rattle.apv_dec.specs.OneUnit.{ReadsByUnit};
ghost use Rattle.apv_dec.specs.Outputs.{output_settings};
ghost use Rattle.apv_dec.specs.Settings.{OnlyByFault, WithFault, WithSettings};
ghost use Rattle.apv_dec.specs.Settings.{input_content, name_of};

use crate::decode::decode;
use apv_base::{Exit, Slot, WordsEnd};
use apv_console::tell;
use apv_files::Files;
use apv_laws::laws::runs;
use apv_run::open_slot;
use apv_scan::{CodeWords, StepTable};
use apv_words::{DecSettings, settings_dec};
use apv_workers::{Crew, Gate};
use std::alloc::Global;
use std::thread::Threads;

/// Runs the decoder as the words ask, which are those after the program's name: it reads a file of access units
/// (`raw_bitstream_access_unit()`) from `Input`, and writes the pictures of the selected frames to `Output` and the
/// metadata payloads to `MetaOut`, each where the words name it. All slots but the console are closed before.
///
/// A picture is the visible samples of a frame, component after component, row after row, each sample in two bytes, the
/// low one first. With `--form y4m` the output is a Y4M file: before the first picture there is a header line with the
/// format and the rate that `--rate` gives in pictures a second, and before each picture a line `FRAME`. Without a
/// picture the file is empty.
///
/// The words give the settings of `settings_dec`, or are refused by `Usage` with the kind that it names. The line of
/// the answer is written to the console.
///
/// Each unit is judged whole, with the frames that aren't selected, before anything of it is written: its payloads,
/// and then its pictures, before the next unit is read. The first unit that isn't accepted ends the run, and nothing of
/// it is written: `Broken` with the rule and the place, or `LimitMet`. A Y4M file has one format, so where pictures are
/// written to one there are two more answers to a unit: `NoTag`, where the format of the first selected frame of the
/// file has no tag in a Y4M file, and `FormatChange`, where a later selected frame has another format than the first.
/// `Done` is the end of the file. `OpenFailed`, `ReadFailed` and `WriteFailed` name the slot whose device failed;
/// `Memory` may come at any time.
///
/// Several workers decode the tiles of a frame, and the outcome is the same for any number of them. The gate is told of
/// each tile.
pub fn run_dec<R: Threads + Sync, F: Files, G: Gate>(
    alloc: Global,
    rt: &R,
    words: &[String],
    files: &mut F,
    gate: &G,
) -> Exit
    requires closed { AllClosed (F.slot_view files.old) }

    // Words with a fault are refused by it, unless memory runs out, and no slot but the console is touched.
    ensures usage { WithFault words.now (λ kind.
        IsUsage kind result × IsUntouched (F.slot_view files.old) (F.slot_view files.new)) }

    // No other words are refused.
    ensures refused { OnlyByFault words.now result }

    // What is in each output is a prefix of what is defined for the file, and with the file's own answer the whole. To
    // an output that the words don't name nothing is written.
    ensures decodes { WithSettings words.now (λ settings.
        DecodesInput settings (F.held files.old) result (F.slot_view files.new)) }

    // No answer but running out of memory comes without its cause, and no fault is passed over. After `OpenFailed` that
    // file isn't open, nor is one that is opened after it (input, pictures, metadata), and nothing is written.
    ensures cause { WithSettings words.now (λ settings.
        HasCause is_own_answer (name_of settings) (F.slot_view files.old)
        (F.slot_view files.new) result) }

    // Units are read and written one at a time: whatever the answer, where all files are open the outputs of the first
    // units are whole, of the next unit's no more than a prefix is there, and the input isn't read beyond that unit.
    // After a fault of a write there is such a unit, and the input is read up to its end.
    ensures by_unit { WithSettings words.now (λ settings.
        ReadsByUnit settings (F.held files.old) result (F.slot_view files.new)) }

    // Only the slots that the settings name are open, by their names.
    ensures named { WithSettings words.now (λ settings.
        AreNamed (name_of settings) (F.slot_view files.new)) }

    // A file that decodes to its end is decoded, where nothing fails.
    ensures complete { WithSettings words.now (λ settings. IsComplete (output_settings settings)
        (input_content settings (F.held files.old)) (F.slot_view files.old) (F.slot_view files.new)
        result) }

    // The console has the line of the answer.
    ensures console { Tells (F.slot_view files.old Console) result (F.slot_view files.new Console) }
{
    runs();
    let exit = answer(alloc, rt, words, files, gate);
    tell(alloc, files, exit)
}

/// The same, but for the console.
fn answer<R: Threads + Sync, F: Files, G: Gate>(
    alloc: Global,
    rt: &R,
    words: &[String],
    files: &mut F,
    gate: &G,
) -> Exit
    requires { AllClosed (F.slot_view files.old) }
    ensures usage { WithFault words.now (λ kind.
        IsUsage kind result × IsUntouched (F.slot_view files.old) (F.slot_view files.new)) }
    ensures refused { OnlyByFault words.now result }
    ensures ends { WithSettings words.now (λ settings.
        EndsRun settings (F.held files.old) result (F.slot_view files.old)
        (F.slot_view files.new)) }
    ensures console { F.slot_view files.new Console ≡ F.slot_view files.old Console }
{
    match settings_dec(alloc, words) {
        Ok(settings) => run(alloc, rt, &settings, files, gate),
        Err(WordsEnd::Usage(kind)) => Exit::Usage(kind),
        Err(WordsEnd::Memory) => Exit::Memory,
    }
}

/// A run by its settings, but for the console.
fn run<R: Threads + Sync, F: Files, G: Gate>(
    alloc: Global,
    rt: &R,
    settings: &DecSettings,
    files: &mut F,
    gate: &G,
) -> Exit
    requires closed { AllClosed (F.slot_view files.old) }
    requires input { is_some settings.now.input ≡ true }
    requires threads { (1 ≤ settings.now.threads) × (settings.now.threads ≤ 64) }
    ensures ends { EndsRun settings.now (F.held files.old) result (F.slot_view files.old)
        (F.slot_view files.new) }
    ensures console { F.slot_view files.new Console ≡ F.slot_view files.old Console }
{
    runs();
    if let Err(exit) = open_files(settings, files) {
        return exit;
    }
    decode_opened(alloc, rt, settings, files, gate)
}

/// Decodes the input, which is open as the outputs that the settings name are: makes the tables of a run and the crew
/// of workers, and reads unit by unit.
fn decode_opened<R: Threads + Sync, F: Files, G: Gate>(
    alloc: Global,
    rt: &R,
    settings: &DecSettings,
    files: &mut F,
    gate: &G,
) -> Exit
    requires reading { (F.slot_view files.old Input).mode ≡ Reading }
    requires output { OnTrue (is_some settings.now.output)
        ((F.slot_view files.old Output).mode ≡ Writing) }
    requires metadata { OnTrue (is_some settings.now.metadata)
        ((F.slot_view files.old MetaOut).mode ≡ Writing) }
    requires threads { (1 ≤ settings.now.threads) × (settings.now.threads ≤ 64) }
    ensures views { DecodedUnits (output_settings settings.now) (F.slot_view files.old) result
        (F.slot_view files.new) }
{
    let Ok(steps) = StepTable::new(alloc) else {
        return Exit::Memory;
    };
    let Ok(code_words) = CodeWords::new(alloc) else {
        return Exit::Memory;
    };
    let workers = settings.threads as u8;
    let crew = Crew::with_tables(rt, gate, workers, &steps, &code_words);
    decode(alloc, &crew, settings, files)
}

/// Opens the input, and then creates each output that the settings name: that of pictures, and that of metadata.
fn open_files<F: Files>(settings: &DecSettings, files: &mut F) -> Result<(), Exit>
    requires { AllClosed (F.slot_view files.old) }
    ensures opens { AfterOpening (slot_number Console) (name_of settings.now) (F.held files.old)
        (F.slot_view files.old) result (F.slot_view files.new) }
    ensures console { F.slot_view files.new Console ≡ F.slot_view files.old Console }
{
    open_slot(files, Slot::Input, &settings.input)?;
    open_slot(files, Slot::Output, &settings.output)?;
    open_slot(files, Slot::MetaOut, &settings.metadata)
}
