//! Runs of the encoder over the video that is generated from a number.
use crate::runs::{Encoded, both_words, decoded, encode};
use apv_base::{Exit, Opt, UsageKind};
use std::alloc::{AllocError, Global};
use std::test::Fail;
use std::thread::Threads;

/// The bytes of a generated picture.
const PICTURE: usize = 921600;

/// A run over the video that is generated from 7.
fn seven<R: Threads + Sync>(alloc: Global, rt: &R, words: &[&str]) -> Result<Encoded, AllocError> {
    let words = both_words(alloc, &["--generate=7"], words)?;
    encode(alloc, rt, &words, &[], &[])
}

/// Whether a line is that of a report of the video that is generated from 7, at the QP 20.
fn is_report(line: &[u8]) -> bool {
    let start: &[u8] = b"generated 7: frames 8, bytes ";
    let end: &[u8] = b", least qp 20, greatest qp 20, peak difference ";
    line.starts_with(start) && line.windows(end.len()).any(|part| part == end)
}

#[test]
fn reports_without_an_output(rt: HostRuntime) -> Result<(), Fail> {
    let first = seven(rt.alloc(), &rt, &["--qp=20"])?;
    assert_eq!(rt; first.exit, Exit::Done);
    assert!(rt; is_report(first.line.as_slice()));
    assert!(rt; first.units.as_slice().is_empty());
    let second = seven(rt.alloc(), &rt, &["--qp=20", "--threads=3"])?;
    assert_eq!(rt; second.line.as_slice(), first.line.as_slice());
    Ok(())
}

#[test]
fn writes_the_file_that_it_reports(rt: HostRuntime) -> Result<(), Fail> {
    let run = seven(rt.alloc(), &rt, &["--qp=20", "--output=out"])?;
    assert_eq!(rt; run.exit, Exit::Done);
    assert!(rt; is_report(run.line.as_slice()));
    let size = format!(in rt.alloc(); "bytes {},", run.units.len())?;
    let bytes = size.as_bytes();
    assert!(rt;
        run.line
            .as_slice()
            .windows(bytes.len())
            .any(|part| part == bytes)
    );
    let pictures = decoded(rt.alloc(), &rt, &run.units)?.ok_or("pictures")?;
    assert_eq!(rt; pictures.len(), 8 * PICTURE);
    Ok(())
}

#[test]
fn refuses_a_format(rt: HostRuntime) -> Result<(), Fail> {
    let run = seven(rt.alloc(), &rt, &["--qp=20", "--width=16"])?;
    assert_eq!(rt; run.exit, Exit::Usage(UsageKind::Clash(Opt::Width)));
    assert_eq!(rt; run.line.as_slice(), b"usage: clash --width\n".as_slice());
    Ok(())
}
