//! Runs of which one call on a file fails by the device: each call in turn, and with reads and writes of few bytes too.
ghost use Rattle.std.specs.Prelude.{◌≡◌, IfOk};
ghost use Rattle.apv_base.specs.declared.slot.Slot.{Slot};
ghost use Rattle.apv_files.specs.Memory.{memory_view};
ghost use Rattle.apv_files.specs.SlotView.{AllClosed};

use crate::runs::{GREY, copies, samples, words_of};
use crate::units::{GREY_UNIT, PAYLOAD};
use apv_base::{Exit, Slot};
use apv_dec::run_dec;
use apv_enc::run_enc;
use apv_files::{Call, MemoryFiles};
use apv_workers::NoGate;
use std::alloc::{AllocError, Global};
use std::test::Fail;
use std::thread::Threads;

/// A program, with the words and files of its runs:
///
/// - `Decoder`: three copies of the grey frame's file are decoded to pictures and payloads.
/// - `Encoder`: two grey pictures are encoded with alpha frames and a payload, and reconstructed.
#[derive(Clone, Copy, Debug)]
enum Program {
    Decoder,
    Encoder,
}

/// The most bytes that a read or a write moves.
#[derive(Clone, Copy, Debug)]
enum Most {
    One,
    Seven,
    Any,
}

/// The runs of a program in which a call of a kind fails.
#[derive(Clone, Copy, Debug)]
struct Runs {
    program: Program,
    call: Call,
    most: Most,
}

/// The same runs with another limit of a read or a write.
fn with_most(runs: Runs, most: Most) -> Runs {
    Runs {
        program: runs.program,
        call: runs.call,
        most,
    }
}

/// What a run leaves: its answer, its two outputs, and the line on the console.
#[derive(Drop)]
struct Outcome {
    exit: Exit,
    first: Vec<u8>,
    second: Vec<u8>,
    line: Vec<u8>,
}

const DECODER: &[&str] = &["--input=in", "--output=out", "--metadata=m"];

const ENCODER: &[&str] = &["--qp=0", "--alpha=alpha", "--metadata=m", "--recon=recon"];

/// The content of `in`, whose last byte is missing where the console is to fail: so there is a line.
fn input(alloc: Global, runs: Runs) -> Result<Vec<u8>, AllocError> {
    let mut bytes = match runs.program {
        Program::Decoder => copies(alloc, GREY_UNIT, 3)?,
        Program::Encoder => samples(alloc, &[(512, 512)])?,
    };
    if runs.call == Call::Console {
        bytes.pop();
    }
    Ok(bytes)
}

/// Sets the most bytes that a read or a write moves.
fn set_most(files: &mut MemoryFiles, most: Most)
    ensures { (slot : Slot) → memory_view files.new slot ≡ memory_view files.old slot }
{
    match most {
        Most::One => files.cut(1),
        Most::Seven => files.cut(7),
        Most::Any => {}
    }
}

/// Sets the call of a kind with a number to fail, where there is a number.
fn set_failing(files: &mut MemoryFiles, call: Call, failing: Option<u64>) -> Result<(), AllocError>
    ensures { (slot : Slot) → memory_view files.new slot ≡ memory_view files.old slot }
{
    match failing {
        Some(number) => files.fail(call, number),
        None => Ok(()),
    }
}

/// The files of a run, of whose calls of a kind the one with this number fails.
fn files_of(alloc: Global, runs: Runs, failing: Option<u64>) -> Result<MemoryFiles, AllocError>
    ensures { IfOk result (λ files. AllClosed (memory_view files)) }
{
    let input = input(alloc, runs)?;
    let alpha = samples(alloc, &[(512, 512)])?;
    let mut files = MemoryFiles::new(alloc);
    files.hold("in", &input)?;
    files.hold("alpha", &alpha)?;
    files.hold("m", PAYLOAD)?;
    set_most(&mut files, runs.most);
    set_failing(&mut files, runs.call, failing)?;
    Ok(files)
}

/// A run of a program.
fn run<R: Threads + Sync>(
    alloc: Global,
    rt: &R,
    runs: Runs,
    failing: Option<u64>,
) -> Result<Outcome, AllocError> {
    let mut files = files_of(alloc, runs, failing)?;
    let (exit, second) = match runs.program {
        Program::Decoder => {
            let words = words_of(alloc, &[DECODER])?;
            let exit = run_dec(alloc, rt, &words, &mut files, &NoGate);
            (exit, Slot::MetaOut)
        }
        Program::Encoder => {
            let words = words_of(alloc, &[GREY, ENCODER])?;
            let exit = run_enc(alloc, rt, &words, &mut files, &NoGate);
            (exit, Slot::Recon)
        }
    };
    Ok(Outcome {
        exit,
        first: copies(alloc, files.written(Slot::Output), 1)?,
        second: copies(alloc, files.written(second), 1)?,
        line: copies(alloc, files.written(Slot::Console), 1)?,
    })
}

/// The slots whose files a program reads.
fn inputs(program: Program) -> &'static [Slot] {
    match program {
        Program::Decoder => &[Slot::Input],
        Program::Encoder => &[Slot::Input, Slot::Alpha, Slot::Metadata],
    }
}

/// The slots whose files a program writes.
fn outputs(program: Program) -> &'static [Slot] {
    match program {
        Program::Decoder => &[Slot::Output, Slot::MetaOut],
        Program::Encoder => &[Slot::Output, Slot::Recon],
    }
}

/// Whether an answer names a fault of a call of this kind, at a slot that the words name.
fn names_the_fault(exit: Exit, runs: Runs) -> bool {
    let inputs = inputs(runs.program);
    let outputs = outputs(runs.program);
    match (runs.call, exit) {
        (Call::Open, Exit::OpenFailed(slot)) => inputs.contains(&slot) || outputs.contains(&slot),
        (Call::Read, Exit::ReadFailed(slot)) => inputs.contains(&slot),
        (Call::Write, Exit::WriteFailed(slot)) => outputs.contains(&slot),
        _ => false,
    }
}

/// Whether two runs leave the same outputs.
fn has_same_outputs(one: &Outcome, other: &Outcome) -> bool {
    one.first == other.first && one.second == other.second
}

/// Whether a run ended as one without a fault does.
fn is_whole(outcome: &Outcome, whole: &Outcome) -> bool {
    outcome.exit == whole.exit && outcome.line == whole.line && has_same_outputs(outcome, whole)
}

/// Whether a run in which a call failed ended as it has to: the answer names the fault, and each output is a prefix of
/// that of a run without one. A fault of the console leaves the answer and the outputs.
fn is_sound(outcome: &Outcome, whole: &Outcome, runs: Runs) -> bool {
    if runs.call == Call::Console {
        return outcome.exit == whole.exit
            && has_same_outputs(outcome, whole)
            && whole.line.starts_with(&outcome.line);
    }
    names_the_fault(outcome.exit, runs)
        && whole.first.starts_with(&outcome.first)
        && whole.second.starts_with(&outcome.second)
}

/// More calls of a kind than any of these runs makes.
const MAX_CALLS: u64 = 10_000;

/// Lets each call of a kind fail in turn, until a run meets no fault and leaves what one does whose calls move all that
/// they can. Returns the number of faults, where each run with one ended as it has to.
fn faults<R: Threads + Sync>(alloc: Global, rt: &R, runs: Runs) -> Result<Option<u64>, AllocError> {
    let whole = run(alloc, rt, with_most(runs, Most::Any), None)?;
    for number in 0..MAX_CALLS {
        let outcome = run(alloc, rt, runs, Some(number))?;
        if is_whole(&outcome, &whole) {
            return Ok(Some(number));
        }
        if !is_sound(&outcome, &whole, runs) {
            return Ok(None);
        }
    }
    Ok(None)
}

/// The numbers of faults where a call moves all that it can, at most seven bytes, and one byte.
fn all_faults<R: Threads + Sync>(
    alloc: Global,
    rt: &R,
    program: Program,
    call: Call,
) -> Result<[Option<u64>; 3], AllocError> {
    let any = Runs {
        program,
        call,
        most: Most::Any,
    };
    Ok([
        faults(alloc, rt, any)?,
        faults(alloc, rt, with_most(any, Most::Seven))?,
        faults(alloc, rt, with_most(any, Most::One))?,
    ])
}

#[test]
fn each_file_is_not_opened(rt: HostRuntime) -> Result<(), Fail> {
    let decoder = all_faults(rt.alloc(), &rt, Program::Decoder, Call::Open)?;
    assert_eq!(rt; decoder, [Some(3), Some(3), Some(3)]);
    let encoder = all_faults(rt.alloc(), &rt, Program::Encoder, Call::Open)?;
    assert_eq!(rt; encoder, [Some(5), Some(5), Some(5)]);
    Ok(())
}

#[test]
fn the_line_is_not_written(rt: HostRuntime) -> Result<(), Fail> {
    // The line `broken V2 at unit 2, pbu 0, tile 0, component 0`.
    let decoder = all_faults(rt.alloc(), &rt, Program::Decoder, Call::Console)?;
    assert_eq!(rt; decoder, [Some(1), Some(7), Some(48)]);
    // The line `bad video input: truncated at frame 1`.
    let encoder = all_faults(rt.alloc(), &rt, Program::Encoder, Call::Console)?;
    assert_eq!(rt; encoder, [Some(1), Some(6), Some(38)]);
    Ok(())
}

#[test]
fn each_read_of_a_decoder_fails(rt: HostRuntime) -> Result<(), Fail> {
    let [any, seven, one] = all_faults(rt.alloc(), &rt, Program::Decoder, Call::Read)?;
    assert!(rt; any.is_some());
    assert!(rt; seven.is_some());
    // There is at least one read for each byte of three units, and one for the end.
    assert!(rt; one.unwrap_or(0) > 3 * 58);
    Ok(())
}

#[test]
fn each_write_of_a_decoder_fails(rt: HostRuntime) -> Result<(), Fail> {
    let [any, seven, one] = all_faults(rt.alloc(), &rt, Program::Decoder, Call::Write)?;
    assert!(rt; any.is_some());
    assert!(rt; seven.is_some());
    // There is one write for each byte of three pictures.
    assert_eq!(rt; one, Some(3 * 512));
    Ok(())
}

#[test]
fn each_read_of_an_encoder_fails(rt: HostRuntime) -> Result<(), Fail> {
    let [any, seven, one] = all_faults(rt.alloc(), &rt, Program::Encoder, Call::Read)?;
    assert!(rt; any.is_some());
    assert!(rt; seven.is_some());
    // There is at least one read for each byte of two pictures, of two of alpha, and of a payload, and one for the end.
    assert!(rt; one.unwrap_or(0) > 4 * 512 + 6);
    Ok(())
}

#[test]
fn each_write_of_an_encoder_fails(rt: HostRuntime) -> Result<(), Fail> {
    let [any, seven, one] = all_faults(rt.alloc(), &rt, Program::Encoder, Call::Write)?;
    assert!(rt; any.is_some());
    assert!(rt; seven.is_some());
    // There is one write for each byte of two access units and of two pictures.
    assert_eq!(rt; one, Some(2 * 126 + 2 * 512));
    Ok(())
}
