//! The line of a report, as text and over files in memory.
use super::*;
use apv_base::Exit;
use apv_files::{Call, MemoryFiles, Slot};
use std::test::Fail;

/// A report.
const REPORT: Report = Report {
    seed: 7,
    frames: 8,
    bytes: 1_234_567,
    least_qp: 20,
    greatest_qp: 20,
    peak: 25,
};

/// Its line.
const LINE: &str =
    "generated 7: frames 8, bytes 1234567, least qp 20, greatest qp 20, peak difference 25\n";

#[test]
fn line_of_a_report(rt: HostRuntime) -> Result<(), Fail> {
    let line = report_line_of(rt.alloc(), &REPORT)?;
    assert_eq!(rt; line.as_str(), LINE);
    Ok(())
}

#[test]
fn tells_a_report(rt: HostRuntime) -> Result<(), Fail> {
    let mut files = MemoryFiles::new(rt.alloc());
    let answer = tell_report(rt.alloc(), &mut files, &REPORT);
    assert_eq!(rt; answer, Exit::Done);
    assert_eq!(rt; files.written(Slot::Console), LINE.as_bytes());
    Ok(())
}

#[test]
fn fault_of_the_console_changes_no_answer(rt: HostRuntime) -> Result<(), Fail> {
    let mut files = MemoryFiles::new(rt.alloc());
    files.fail(Call::Console, 0)?;
    let answer = tell_report(rt.alloc(), &mut files, &REPORT);
    assert_eq!(rt; answer, Exit::Done);
    assert_eq!(rt; files.written(Slot::Console), "".as_bytes());
    Ok(())
}
