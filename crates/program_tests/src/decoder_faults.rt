//! Runs of the decoder of which a call fails by the device: the answer names the slot, what was written before
//! stays, and no byte of the input is read after that.
use crate::runs::{BOTH, DecoderRun, broken, copies, decode_files, samples};
use crate::units::{GREY_UNIT, PAYLOAD, PAYLOAD_UNIT};
use apv_base::{Exit, Rule, Slot};
use apv_files::{Call, MemoryFiles};
use std::alloc::{AllocError, Global};
use std::test::Fail;
use std::thread::Threads;

/// A file of which three copies are read up to 174 bytes, a call that fails, the answer, its status, the numbers of
/// samples and of payloads that are written, the bytes left, and the line.
type Fault = (
    &'static [u8],
    Call,
    u64,
    Exit,
    u8,
    usize,
    usize,
    usize,
    &'static str,
);

const FAULTS: [Fault; 13] = [
    (
        GREY_UNIT,
        Call::Open,
        0,
        Exit::OpenFailed(Slot::Input),
        4,
        0,
        0,
        0,
        "cannot open input\n",
    ),
    (
        GREY_UNIT,
        Call::Open,
        1,
        Exit::OpenFailed(Slot::Output),
        4,
        0,
        0,
        174,
        "cannot open output\n",
    ),
    (
        GREY_UNIT,
        Call::Open,
        2,
        Exit::OpenFailed(Slot::MetaOut),
        4,
        0,
        0,
        174,
        "cannot open meta-out\n",
    ),
    (
        GREY_UNIT,
        Call::Read,
        0,
        Exit::ReadFailed(Slot::Input),
        4,
        0,
        0,
        174,
        "read failed on input\n",
    ),
    (
        GREY_UNIT,
        Call::Read,
        2,
        Exit::ReadFailed(Slot::Input),
        4,
        256,
        0,
        116,
        "read failed on input\n",
    ),
    (
        GREY_UNIT,
        Call::Read,
        3,
        Exit::ReadFailed(Slot::Input),
        4,
        256,
        0,
        112,
        "read failed on input\n",
    ),
    (
        GREY_UNIT,
        Call::Read,
        6,
        Exit::ReadFailed(Slot::Input),
        4,
        768,
        0,
        0,
        "read failed on input\n",
    ),
    (
        GREY_UNIT,
        Call::Write,
        0,
        Exit::WriteFailed(Slot::Output),
        5,
        0,
        0,
        116,
        "write failed on output\n",
    ),
    (
        GREY_UNIT,
        Call::Write,
        1,
        Exit::WriteFailed(Slot::Output),
        5,
        256,
        0,
        58,
        "write failed on output\n",
    ),
    (GREY_UNIT, Call::Write, 3, Exit::Done, 0, 768, 0, 0, ""),
    (GREY_UNIT, Call::Console, 0, Exit::Done, 0, 768, 0, 0, ""),
    (
        PAYLOAD_UNIT,
        Call::Write,
        0,
        Exit::WriteFailed(Slot::MetaOut),
        5,
        0,
        0,
        52,
        "write failed on meta-out\n",
    ),
    (
        PAYLOAD_UNIT,
        Call::Write,
        1,
        Exit::WriteFailed(Slot::MetaOut),
        5,
        0,
        1,
        26,
        "write failed on meta-out\n",
    ),
];

/// A run over the first bytes of three copies of a file, of which a call fails.
fn run_failing<R: Threads + Sync>(
    alloc: Global,
    rt: &R,
    (file, len): (&[u8], usize),
    (call, number): (Call, u64),
) -> Result<DecoderRun, AllocError> {
    let mut bytes = copies(alloc, file, 3)?;
    bytes.truncate(len);
    let mut files = MemoryFiles::new(alloc);
    files.hold("in", &bytes)?;
    files.fail(call, number)?;
    decode_files(alloc, rt, &[BOTH], &mut files)
}

#[test]
fn names_the_slot_of_each_fault(rt: HostRuntime) -> Result<(), Fail> {
    for (file, call, number, answer, status, count, payloads, left, line) in FAULTS {
        let run = run_failing(rt.alloc(), &rt, (file, 174), (call, number))?;
        assert_eq!(rt; run.exit, answer, "{number} of {call:?}");
        assert_eq!(rt; run.exit.status(), status, "{number} of {call:?}");
        let pictures = samples(rt.alloc(), &[(count, 512)])?;
        assert_eq!(rt;
            run.pictures.as_slice(),
            pictures.as_slice(),
            "{number} of {call:?}"
        );
        let payloads = copies(rt.alloc(), PAYLOAD, payloads)?;
        assert_eq!(rt;
            run.payloads.as_slice(),
            payloads.as_slice(),
            "{number} of {call:?}"
        );
        assert_eq!(rt; run.left, left, "{number} of {call:?}");
        assert_eq!(rt;
            run.line.as_slice(),
            line.as_bytes(),
            "{number} of {call:?}"
        );
    }
    Ok(())
}

#[test]
fn a_fault_of_the_console_leaves_the_answer(rt: HostRuntime) -> Result<(), Fail> {
    let run = run_failing(rt.alloc(), &rt, (GREY_UNIT, 173), (Call::Console, 0))?;
    assert_eq!(rt; run.exit, broken(Rule::V2, 2, 0));
    assert_eq!(rt; run.exit.status(), 3);
    assert_eq!(rt; run.pictures.len(), 1024);
    assert!(rt; run.line.is_empty());
    Ok(())
}

#[test]
fn creates_no_output_that_is_not_named(rt: HostRuntime) -> Result<(), Fail> {
    let mut files = MemoryFiles::new(rt.alloc());
    files.hold("in", &copies(rt.alloc(), GREY_UNIT, 3)?)?;
    files.fail(Call::Open, 1)?;
    files.fail(Call::Write, 0)?;
    let run = decode_files(rt.alloc(), &rt, &[&["--input=in"]], &mut files)?;
    assert_eq!(rt; run.exit, Exit::Done);
    assert!(rt; run.pictures.is_empty());
    Ok(())
}
