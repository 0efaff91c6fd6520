//! The top call: from the words of a command line to the answer.
ghost use Rattle.std.specs.Prelude.{◌≡◌, ℕ, List, is_some, ◌⊎◌};
ghost use Rattle.std.specs.Bool.{OnTrue};
ghost use Rattle.apv_base.specs.declared.slot.Slot.TheVariants.{Console, Input, Metadata};
ghost use Rattle.apv_base.specs.declared.slot.Slot.TheVariants.{Output, Recon};
ghost use Rattle.apv_base.specs.model.Slot.{slot_number};
ghost use Rattle.apv_console.specs.Tells.{TellsLine};
ghost use Rattle.apv_files.specs.SlotView.{AllClosed, OnlyAt, SlotView};
ghost use Rattle.apv_files.specs.declared.files.Mode.TheVariants.{Reading, Writing};
ghost use Rattle.apv_generated.specs.Views.{with_input};
ghost use Rattle.apv_run.specs.Cause.{HasCause, IsUntouched, IsUsage};
ghost use Rattle.apv_run.specs.Names.{AreNamed};
ghost use Rattle.apv_run.specs.Opened.{AfterOpening};
ghost use Rattle.apv_words.specs.Encoder.{HasEncBounds, HasEncFiles};
ghost use Rattle.apv_enc.specs.ByFrame.{EncodesByFrame};
ghost use Rattle.apv_enc.specs.Encoded.{EncodesInputs, EndsOpened, EndsRun, IsComplete};
ghost use Rattle.apv_enc.specs.Encoded.{EndsGenerated, WritesDecodable};
ghost use Rattle.apv_enc.specs.Told.{GiveSettings, TellsRun, line_of_end};
ghost use Rattle.apv_tracks.specs.Kinds.{AreReading};
ghost use Rattle.apv_tracks.specs.Opening.{AreInputsReading};
ghost use Rattle.apv_enc.specs.Run.{OnlyByFault, WithFault, WithSettings, is_own_answer, name_of};

use crate::end::RunEnd;
use crate::frames::encode_frames;
use apv_base::{Exit, Slot, WordsEnd};
use apv_console::{tell, tell_report};
use apv_encoding::written_decodes;
use apv_files::Files;
use apv_generated::{GeneratedFiles, GeneratedVideo};
use apv_quant::one_nearest;
use apv_run::open_slot;
use apv_scan::{CodeWords, StepTable};
use apv_tracks::open_tracks;
use apv_words::{EncSettings, settings_enc};
use apv_workers::{Crew, Gate};
use std::alloc::Global;
use std::thread::Threads;

/// Runs the encoder as the words ask, which are those after the program's name: it reads pictures from `Input`, and
/// writes a file of access units (`raw_bitstream_access_unit()`) to `Output`, and to `Recon` the pictures that a decoder
/// makes of them, each where the words name it. All slots but the console are closed before.
///
/// The words give the settings of `settings_enc`, or are refused by `Usage` with the kind that it names. The line of
/// the answer is written to the console.
///
/// A picture is the visible samples of a frame, component after component, row after row, each sample in two bytes, the
/// low one first. With `--form planar` pictures are all that is in `Input`, in the format that the words give. With
/// `--form y4m` a header line names the format, and a line `FRAME` is before each picture. With `--generate` the
/// pictures are the eight of the video that is generated from a number, in place of `Input`, which isn't opened; the
/// output may be missing, and after `Done` the console gets a report. `Preview`, `Depth` and `Alpha` are planar, where
/// the words name them. `Metadata` is the payloads that each access unit carries. From `TileQp` a byte is read for each
/// tile of a primary frame, in two's complement: what is added to the QP in that tile.
///
/// Before the first picture the payloads are read, then the format, the formats are judged, and the QP offsets are read:
/// `LimitMet` (L1) or `BadPayloads` with the first byte of the first payload that isn't whole; `BadVideo` with frame 0,
/// `LimitMet` (L2); or `BadTileQp` with the first byte that is wrong. Then a picture of each slot is read and coded, and
/// its access unit and its reconstruction are written before the next frame is read. The first picture that breaks a rule
/// ends the run: `BadVideo` with the number of its frame, counted from 0, `Missing` for a slot that has ended before
/// `Input` and `Extra` for one that goes on after it; so does a picture after the maximum number of frames (`LimitMet`,
/// L3), an access unit that would be too large (`LimitMet`, L1), or one that keeps the limit of the words at no permitted
/// QP (`TooLarge`). Nothing of that frame is written. `Done` is the end of all slots. `OpenFailed`, `ReadFailed` and
/// `WriteFailed` name the slot whose device failed; `Memory` may come at any time.
///
/// Several workers encode the tiles of a frame, and the outcome is the same for any number of them. The gate is told of
/// each tile.
pub fn run_enc<R: Threads + Sync, F: Files, G: Gate>(
    alloc: Global,
    rt: &R,
    words: &[String],
    files: &mut F,
    gate: &G,
) -> Exit
    requires closed { AllClosed (F.slot_view files.old) }

    // Words with a fault are refused by it, unless memory runs out, and no slot but the console is touched.
    ensures usage { WithFault words.now (λ kind.
        IsUsage kind result × IsUntouched (F.slot_view files.old) (F.slot_view files.new)) }

    // No other words are refused.
    ensures refused { OnlyByFault words.now result }

    // What is in each output is a prefix of what is defined for the files that are read, and with an answer of the
    // files' own the whole. To an output that the words don't name nothing is written.
    ensures encodes { WithSettings words.now (λ settings.
        EncodesInputs settings (F.held files.old) result (F.slot_view files.new)) }

    // After `Done` what is in `Output` is a file that decodes to its end, to the frames of all slots, of which the primary
    // ones are the pictures of `Recon`, and to the payloads of `Metadata`, once for each access unit.
    ensures decodes { WithSettings words.now (λ settings.
        WritesDecodable settings (F.held files.old) result (F.slot_view files.new)) }

    // No answer but running out of memory comes without its cause, and no fault is passed over. After `OpenFailed` that
    // file isn't open, nor is one that is opened after it (in the order of `Slot`), and nothing is written. After `Done`
    // each file that is read is at its end.
    ensures cause { WithSettings words.now (λ settings.
        HasCause is_own_answer (name_of settings) (F.slot_view files.old)
        (F.slot_view files.new) result) }

    // Frames are read and written one at a time: whatever the answer, where all files are open the outputs of the first
    // frames are whole, of the next frame's no more than a prefix is there, and the input isn't read beyond that frame.
    // After a fault of a write there is such a frame, and the input is read up to its end.
    ensures by_frame { WithSettings words.now (λ settings.
        EncodesByFrame settings (F.held files.old) result (F.slot_view files.new)) }

    // Only the slots that the settings name are open, by their names.
    ensures named { WithSettings words.now (λ settings.
        AreNamed (name_of settings) (F.slot_view files.new)) }

    // Files that are encoded up to the end of the input are so by this run, where nothing fails.
    ensures complete { WithSettings words.now (λ settings.
        IsComplete settings (F.held files.old) (F.slot_view files.old) (F.slot_view files.new)
        result) }

    // The console has the line of the answer, or after `Done` that of the report, where a video was generated.
    ensures console { TellsRun words.now (F.held files.old) (F.slot_view files.old Console) result
        (F.slot_view files.new Console) }
{
    let end = answer(alloc, rt, words, files, gate);
    tell_end(alloc, files, &end)
}

/// Tells the console how a run ended: by the report after `Done`, where there is one, else by the answer. Returns the
/// answer, or `Memory` where memory ran out before the whole line was written.
fn tell_end<F: Files>(alloc: Global, files: &mut F, end: &RunEnd) -> Exit
    ensures answer { (result ≡ end.now.exit) ⊎ (result ≡ Exit.Memory) }
    ensures console { TellsLine (F.slot_view files.old Console) (line_of_end end.now) result
        (F.slot_view files.new Console) }
    ensures elsewhere { OnlyAt Console (F.slot_view files.old) (F.slot_view files.new) }
    ensures held { (file : List ℕ) → F.held files.new file ≡ F.held files.old file }
{
    match (end.exit, &end.report) {
        (Exit::Done, Some(report)) => tell_report(alloc, files, report),
        (exit, _) => tell(alloc, files, exit),
    }
}

/// The same, but for the console.
fn answer<R: Threads + Sync, F: Files, G: Gate>(
    alloc: Global,
    rt: &R,
    words: &[String],
    files: &mut F,
    gate: &G,
) -> RunEnd
    requires { AllClosed (F.slot_view files.old) }
    ensures usage { WithFault words.now (λ kind.
        IsUsage kind result.exit × IsUntouched (F.slot_view files.old) (F.slot_view files.new)) }
    ensures refused { OnlyByFault words.now result.exit }
    ensures given { GiveSettings words.now result.exit }
    ensures ends { WithSettings words.now (λ settings.
        EndsRun settings (F.held files.old) result (F.slot_view files.old)
        (F.slot_view files.new)) }
    ensures console { F.slot_view files.new Console ≡ F.slot_view files.old Console }
{
    match settings_enc(alloc, words) {
        Ok(settings) => run(alloc, rt, &settings, files, gate),
        Err(WordsEnd::Usage(kind)) => RunEnd::of(Exit::Usage(kind)),
        Err(WordsEnd::Memory) => RunEnd::of(Exit::Memory),
    }
}

/// A run by its settings, but for the console.
fn run<R: Threads + Sync, F: Files, G: Gate>(
    alloc: Global,
    rt: &R,
    settings: &EncSettings,
    files: &mut F,
    gate: &G,
) -> RunEnd
    requires closed { AllClosed (F.slot_view files.old) }
    requires bounds { HasEncBounds settings.now }
    requires given { HasEncFiles settings.now }
    ensures ends { EndsRun settings.now (F.held files.old) result (F.slot_view files.old)
        (F.slot_view files.new) }
    ensures console { F.slot_view files.new Console ≡ F.slot_view files.old Console }
{
    one_nearest();
    written_decodes();
    if let Err(exit) = open_files(settings, files) {
        return RunEnd::of(exit);
    }
    match settings.generate {
        None => encode_opened(alloc, rt, settings, files, gate),
        Some(seed) => encode_generated(alloc, rt, settings, seed, files, gate),
    }
}

/// Encodes the video that is generated from a number, with the other inputs, which are open as the other files that the
/// settings name. It is read in place of `Input`, which isn't open.
fn encode_generated<R: Threads + Sync, F: Files, G: Gate>(
    alloc: Global,
    rt: &R,
    settings: &EncSettings,
    seed: u32,
    files: &mut F,
    gate: &G,
) -> RunEnd
    requires bounds { HasEncBounds settings.now }
    requires given { HasEncFiles settings.now }
    requires inputs { (input : SlotView) → input.mode ≡ Reading
        → AreInputsReading settings.now (with_input input (F.slot_view files.old)) }
    requires reading { (input : SlotView) → input.mode ≡ Reading
        → AreReading settings.now (with_input input (F.slot_view files.old)) }
    requires output { OnTrue (is_some settings.now.output)
        ((F.slot_view files.old Output).mode ≡ Writing) }
    requires recon { OnTrue (is_some settings.now.recon)
        ((F.slot_view files.old Recon).mode ≡ Writing) }
    ensures { EndsGenerated settings.now seed (F.slot_view files.old) (F.slot_view files.new)
        result }
{
    let mut video = GeneratedVideo::new(alloc, seed);
    let mut generated = GeneratedFiles::new(&mut video, files);
    encode_opened(alloc, rt, settings, &mut generated, gate)
}

/// Encodes the inputs, which are open as the other files that the settings name are: makes the tables of a run, the crew
/// of workers and the tracks, and then reads frame by frame.
fn encode_opened<R: Threads + Sync, F: Files, G: Gate>(
    alloc: Global,
    rt: &R,
    settings: &EncSettings,
    files: &mut F,
    gate: &G,
) -> RunEnd
    requires bounds { HasEncBounds settings.now }
    requires given { HasEncFiles settings.now }
    requires inputs { AreInputsReading settings.now (F.slot_view files.old) }
    requires reading { AreReading settings.now (F.slot_view files.old) }
    requires output { OnTrue (is_some settings.now.output)
        ((F.slot_view files.old Output).mode ≡ Writing) }
    requires recon { OnTrue (is_some settings.now.recon)
        ((F.slot_view files.old Recon).mode ≡ Writing) }
    ensures views { EndsOpened settings.now (F.slot_view files.old) (F.slot_view files.new) result }
    ensures lender { (F.slot_view files.new Input).lender ≡ (F.slot_view files.old Input).lender }
{
    let Ok(steps) = StepTable::new(alloc) else {
        return RunEnd::of(Exit::Memory);
    };
    let Ok(code_words) = CodeWords::new(alloc) else {
        return RunEnd::of(Exit::Memory);
    };
    let workers = settings.threads as u8;
    let crew = Crew::with_tables(rt, gate, workers, &steps, &code_words);
    match open_tracks(alloc, settings, files) {
        Ok(mut opening) => {
            let tracks = opening.tracks.as_mut_slice();
            encode_frames(alloc, &crew, settings, &opening.payloads, files, tracks)
        }
        Err(exit) => RunEnd::of(exit),
    }
}

/// Opens each file that the settings name, in the order of `Slot`: those of pictures, of payloads and of QP offsets, and
/// those of access units and of decoded pictures, which are created.
fn open_files<F: Files>(settings: &EncSettings, files: &mut F) -> Result<(), Exit>
    requires { AllClosed (F.slot_view files.old) }
    ensures opens { AfterOpening (slot_number Console) (name_of settings.now)
        (F.held files.old) (F.slot_view files.old) result (F.slot_view files.new) }
    ensures console { F.slot_view files.new Console ≡ F.slot_view files.old Console }
{
    open_pictures(settings, files)?;
    open_slot(files, Slot::Metadata, &settings.metadata)?;
    open_slot(files, Slot::TileQp, &settings.tile_qp)?;
    open_slot(files, Slot::Output, &settings.output)?;
    open_slot(files, Slot::Recon, &settings.recon)
}

/// Opens each file of pictures that the settings name, in the order of `Slot`.
fn open_pictures<F: Files>(settings: &EncSettings, files: &mut F) -> Result<(), Exit>
    requires { AllClosed (F.slot_view files.old) }
    ensures opens { AfterOpening (slot_number Metadata) (name_of settings.now)
        (F.held files.old) (F.slot_view files.old) result (F.slot_view files.new) }
    ensures held { (file : List ℕ) → F.held files.new file ≡ F.held files.old file }
    ensures console { F.slot_view files.new Console ≡ F.slot_view files.old Console }
{
    open_slot(files, Slot::Input, &settings.input)?;
    open_slot(files, Slot::Preview, &settings.preview)?;
    open_slot(files, Slot::Depth, &settings.depth_map)?;
    open_slot(files, Slot::Alpha, &settings.alpha)
}
