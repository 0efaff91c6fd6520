//! Command lines of the decoder, each refused by its line or accepted, and a file that isn't there.
use crate::runs::{BOTH, decode_files};
use crate::units::{PAYLOAD, PAYLOAD_UNIT};
use apv_base::{Exit, Opt, Slot, UsageKind};
use apv_files::MemoryFiles;
use std::test::Fail;

/// Words that are refused, the fault, and the line.
const REFUSED: [(&[&str], UsageKind, &str); 20] = [
    (
        &[],
        UsageKind::Missing(Opt::Input),
        "usage: missing --input\n",
    ),
    (
        &["--metadata", "m"],
        UsageKind::Missing(Opt::Input),
        "usage: missing --input\n",
    ),
    (
        &["--input", "a", "--input", "b"],
        UsageKind::Words,
        "usage: words\n",
    ),
    (
        &["--input", "a", "--metadata", "a"],
        UsageKind::SameName,
        "usage: same name\n",
    ),
    (&["--input", "a", "--"], UsageKind::Words, "usage: words\n"),
    (
        &["--input", "--metadata"],
        UsageKind::Words,
        "usage: words\n",
    ),
    (
        &["--input", "a", "stray"],
        UsageKind::Words,
        "usage: words\n",
    ),
    (
        &["--input", "a", "--strict=x"],
        UsageKind::Words,
        "usage: words\n",
    ),
    (&["-i", "a"], UsageKind::Words, "usage: words\n"),
    (
        &["--input", "a", "--help"],
        UsageKind::Words,
        "usage: words\n",
    ),
    (&["--input"], UsageKind::Words, "usage: words\n"),
    (
        &["--metadata", "-"],
        UsageKind::Value(Opt::Metadata),
        "usage: value --metadata\n",
    ),
    (
        &["--input", ""],
        UsageKind::Value(Opt::Input),
        "usage: value --input\n",
    ),
    (
        &["--metadata=", "--input="],
        UsageKind::Value(Opt::Input),
        "usage: value --input\n",
    ),
    (
        &["--input", "a", "--form", "raw"],
        UsageKind::Value(Opt::Form),
        "usage: value --form\n",
    ),
    (
        &["--input", "a", "--rate", "30:0"],
        UsageKind::Value(Opt::Rate),
        "usage: value --rate\n",
    ),
    (
        &["--input", "a", "--output", "a"],
        UsageKind::SameName,
        "usage: same name\n",
    ),
    (
        &["--input", "a", "--group", "65536"],
        UsageKind::Value(Opt::Group),
        "usage: value --group\n",
    ),
    (
        &["--input", "a", "--threads", "0", "--select", "x"],
        UsageKind::Value(Opt::Select),
        "usage: value --select\n",
    ),
    (
        &["--input", "a", "--threads=65"],
        UsageKind::Value(Opt::Threads),
        "usage: value --threads\n",
    ),
];

#[test]
fn refuses_words(rt: HostRuntime) -> Result<(), Fail> {
    for (words, kind, line) in REFUSED {
        let mut files = MemoryFiles::new(rt.alloc());
        files.hold("a", PAYLOAD_UNIT)?;
        let run = decode_files(rt.alloc(), &rt, &[words], &mut files)?;
        assert_eq!(rt; run.exit, Exit::Usage(kind));
        assert_eq!(rt; run.exit.status(), 2);
        assert_eq!(rt; run.line.as_slice(), line.as_bytes());
    }
    Ok(())
}

/// Words that are accepted, the name of the input, and the payloads that are written.
const ACCEPTED: [(&[&str], &str, &[u8]); 7] = [
    (&["--input", "a"], "a", b""),
    (&["--input", "-", "--output", "-"], "-", b""),
    (&["--input=a", "--output=o", "--threads=64"], "a", b""),
    (&["--input=--"], "--", b""),
    (&["--form", "y4m", "--rate=25:1", "--input=a"], "a", b""),
    (&["--metadata", "m", "--input", "a"], "a", PAYLOAD),
    (&["--input=a=b", "--metadata=-m"], "a=b", PAYLOAD),
];

#[test]
fn accepts_words(rt: HostRuntime) -> Result<(), Fail> {
    for (words, name, payloads) in ACCEPTED {
        let mut files = MemoryFiles::new(rt.alloc());
        files.hold(name, PAYLOAD_UNIT)?;
        let run = decode_files(rt.alloc(), &rt, &[words], &mut files)?;
        assert_eq!(rt; run.exit, Exit::Done);
        assert_eq!(rt; run.payloads.as_slice(), payloads);
        assert_eq!(rt; run.left, 0);
    }
    Ok(())
}

#[test]
fn names_a_file_that_is_not_there(rt: HostRuntime) -> Result<(), Fail> {
    let mut files = MemoryFiles::new(rt.alloc());
    let run = decode_files(rt.alloc(), &rt, &[BOTH], &mut files)?;
    assert_eq!(rt; run.exit, Exit::OpenFailed(Slot::Input));
    assert_eq!(rt; run.exit.status(), 4);
    assert_eq!(rt; run.line.as_slice(), "cannot open input\n".as_bytes());
    Ok(())
}
