//! Runs of the encoder of which a call on a file fails: the answer names the slot, and what was written before stays.
use crate::runs::{GREY, samples, words_of};
use crate::units::GREY_UNIT;
use apv_base::{Exit, Slot};
use apv_enc::run_enc;
use apv_files::{Call, MemoryFiles};
use apv_workers::NoGate;
use std::test::Fail;

/// A call that fails in a run over three grey pictures with a file of QP offsets and a reconstruction: its number among
/// those of its kind, the answer, the bytes of access units and of pictures that are written, the bytes of `Input` that
/// are left, and the line.
struct Fault {
    call: Call,
    number: u64,
    exit: Exit,
    output: usize,
    recon: usize,
    left: usize,
    line: &'static str,
}

const FAULTS: [Fault; 11] = [
    Fault {
        call: Call::Open,
        number: 0,
        exit: Exit::OpenFailed(Slot::Input),
        output: 0,
        recon: 0,
        left: 0,
        line: "cannot open input\n",
    },
    Fault {
        call: Call::Open,
        number: 1,
        exit: Exit::OpenFailed(Slot::TileQp),
        output: 0,
        recon: 0,
        left: 1536,
        line: "cannot open tile-qp\n",
    },
    Fault {
        call: Call::Open,
        number: 2,
        exit: Exit::OpenFailed(Slot::Output),
        output: 0,
        recon: 0,
        left: 1536,
        line: "cannot open output\n",
    },
    Fault {
        call: Call::Open,
        number: 3,
        exit: Exit::OpenFailed(Slot::Recon),
        output: 0,
        recon: 0,
        left: 1536,
        line: "cannot open recon\n",
    },
    Fault {
        call: Call::Read,
        number: 0,
        exit: Exit::ReadFailed(Slot::TileQp),
        output: 0,
        recon: 0,
        left: 1536,
        line: "read failed on tile-qp\n",
    },
    Fault {
        call: Call::Write,
        number: 0,
        exit: Exit::WriteFailed(Slot::Output),
        output: 0,
        recon: 0,
        left: 1024,
        line: "write failed on output\n",
    },
    Fault {
        call: Call::Write,
        number: 2,
        exit: Exit::WriteFailed(Slot::Recon),
        output: 58,
        recon: 0,
        left: 1024,
        line: "write failed on recon\n",
    },
    Fault {
        call: Call::Write,
        number: 3,
        exit: Exit::WriteFailed(Slot::Output),
        output: 58,
        recon: 512,
        left: 512,
        line: "write failed on output\n",
    },
    Fault {
        call: Call::Write,
        number: 5,
        exit: Exit::WriteFailed(Slot::Recon),
        output: 116,
        recon: 512,
        left: 512,
        line: "write failed on recon\n",
    },
    Fault {
        call: Call::Write,
        number: 9,
        exit: Exit::Done,
        output: 174,
        recon: 1536,
        left: 0,
        line: "",
    },
    Fault {
        call: Call::Console,
        number: 0,
        exit: Exit::Done,
        output: 174,
        recon: 1536,
        left: 0,
        line: "",
    },
];

#[test]
fn names_the_slot_of_each_fault(rt: HostRuntime) -> Result<(), Fail> {
    let words = words_of(rt.alloc(), &[GREY, &["--qp=0", "--tile-qp=t", "--recon=r"]])?;
    for (number, fault) in FAULTS.iter().enumerate() {
        let mut files = MemoryFiles::new(rt.alloc());
        files.hold("in", &samples(rt.alloc(), &[(768, 512)])?)?;
        files.hold("t", &[0])?;
        files.fail(fault.call, fault.number)?;
        let exit = run_enc(rt.alloc(), &rt, &words, &mut files, &NoGate);
        assert_eq!(rt; exit, fault.exit, "row {number}");
        assert_eq!(rt;
            files.written(Slot::Output).len(),
            fault.output,
            "row {number}"
        );
        assert_eq!(rt;
            files.written(Slot::Recon).len(),
            fault.recon,
            "row {number}"
        );
        assert_eq!(rt; files.left(Slot::Input).len(), fault.left, "row {number}");
        let line = files.written(Slot::Console);
        assert_eq!(rt; line, fault.line.as_bytes(), "row {number}");
    }
    Ok(())
}

#[test]
fn a_second_access_unit_that_is_not_written(rt: HostRuntime) -> Result<(), Fail> {
    let words = words_of(rt.alloc(), &[GREY, &["--qp=0"]])?;
    let mut files = MemoryFiles::new(rt.alloc());
    files.hold("in", &samples(rt.alloc(), &[(768, 512)])?)?;
    files.fail(Call::Write, 2)?;
    let exit = run_enc(rt.alloc(), &rt, &words, &mut files, &NoGate);
    assert_eq!(rt; exit, Exit::WriteFailed(Slot::Output));
    assert_eq!(rt; exit.status(), 5);
    assert_eq!(rt; files.written(Slot::Output), GREY_UNIT);
    assert_eq!(rt; files.left(Slot::Input).len(), 512);
    Ok(())
}
