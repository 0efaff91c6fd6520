//! Copies over files in memory, and one over files of the system.
ghost use Rattle.std.specs.Prelude.{◌≤◌, IfOk};
ghost use Rattle.apv_files.specs.Memory.{memory_view};
ghost use Rattle.apv_files.specs.SlotView.{AllClosed};

use super::*;
use std::alloc::{AllocError, Global};
use std::fs;
use std::test::Fail;

// Copies the first four bytes of a file, and at most `count` of those after them. Returns how many bytes `fill` took.
fn copy<F: Files>(
    alloc: Global,
    files: &mut F,
    from: &str,
    to: &str,
    count: usize,
) -> Result<usize, Failed>
    requires { AllClosed (F.slot_view files.old) }
{
    files.open(Slot::Input, from)?;
    files.create(Slot::Output, to)?;
    let mut head = [0; 4];
    let filled = fill(files, Slot::Input, &mut head)?;
    let mut rest = Vec::new(alloc);
    read_more(files, Slot::Input, &mut rest, count)?;
    write_all(files, Slot::Output, &head[..filled])?;
    write_all(files, Slot::Output, &rest)?;
    write_all(files, Slot::Console, "copied\n".as_bytes())?;
    Ok(filled)
}

/// Copies of `in` to `out`: what the file holds at first, what it holds then, the count, how many bytes `fill` takes,
/// the copy and the rest.
const COPIES: [(&str, &str, usize, usize, &str, &str); 5] = [
    ("", "head and body", 5, 4, "head and ", "body"),
    ("before", "head and body", 100, 4, "head and body", ""),
    ("head and body", "head", 100, 4, "head", ""),
    ("head and body", "abc", 0, 3, "abc", ""),
    ("abc", "", 1, 0, "", ""),
];

/// Whether bytes are those of these texts.
fn are_texts(bytes: [&[u8]; 3], texts: [&str; 3]) -> bool {
    let [first, second, third] = bytes;
    let [one, two, three] = texts;
    first == one.as_bytes() && second == two.as_bytes() && third == three.as_bytes()
}

#[test]
fn copies_in_memory(rt: HostRuntime) -> Result<(), Fail> {
    for (before, content, count, filled, copied, left) in COPIES {
        let mut files = MemoryFiles::new(rt.alloc());
        files.hold("other", "of another name".as_bytes())?;
        files.hold("in", before.as_bytes())?;
        files.hold("in", content.as_bytes())?;
        let answer = copy(rt.alloc(), &mut files, "in", "out", count);
        assert_eq!(rt; answer, Ok(filled), "{content}");
        let output = files.written(Slot::Output);
        let shown = [
            output,
            files.left(Slot::Input),
            files.written(Slot::Console),
        ];
        assert!(rt; are_texts(shown, [copied, left, "copied\n"]), "{content}");
    }
    Ok(())
}

#[test]
fn sure_files_copy(rt: HostRuntime) -> Result<(), Fail> {
    for (before, content, count, filled, copied, left) in COPIES {
        let mut files = SureFiles::new(rt.alloc());
        files.hold("other", "of another name".as_bytes())?;
        files.hold("in", before.as_bytes())?;
        files.hold("in", content.as_bytes())?;
        let answer = copy(rt.alloc(), &mut files, "in", "out", count);
        assert_eq!(rt; answer, Ok(filled), "{content}");
        let output = files.written(Slot::Output);
        let shown = [
            output,
            files.left(Slot::Input),
            files.written(Slot::Console),
        ];
        assert!(rt; are_texts(shown, [copied, left, "copied\n"]), "{content}");
    }
    Ok(())
}

#[test]
fn sure_files_hold_nothing_of_other_names(rt: HostRuntime) -> Result<(), Fail> {
    let alloc = rt.alloc();
    let mut files = SureFiles::new(alloc);
    files.hold("in", "abc".as_bytes())?;
    let answer = copy(alloc, &mut files, "In", "out", 1);
    assert_eq!(rt; answer, Ok(0));
    assert_eq!(rt; files.left(Slot::Input), "".as_bytes());
    assert_eq!(rt; files.written(Slot::Output), "".as_bytes());
    assert_eq!(rt; files.written(Slot::Console), "copied\n".as_bytes());
    Ok(())
}

// Reads once into a buffer of ten bytes and writes once a piece of ten, and returns how many bytes each moved.
fn move_ten<F: Files>(files: &mut F) -> Result<(usize, usize), Failed>
    requires { AllClosed (F.slot_view files.old) }
{
    files.open(Slot::Input, "in")?;
    files.create(Slot::Output, "out")?;
    let mut buf = [0; 10];
    let taken = files.read(Slot::Input, &mut buf)?;
    let written = files.write(Slot::Output, "0123456789".as_bytes())?;
    Ok((taken, written))
}

// Files that hold `in`, with a maximum that is set in place of another.
fn cut_files(alloc: Global, most: usize) -> Result<MemoryFiles, AllocError>
    requires { 1 ≤ most }
    ensures { IfOk result (λ files. AllClosed (memory_view files)) }
{
    let mut files = MemoryFiles::new(alloc);
    files.hold("in", ALL.as_bytes())?;
    files.cut(2);
    files.cut(most);
    Ok(files)
}

#[test]
fn moves_all_without_a_maximum(rt: HostRuntime) -> Result<(), Fail> {
    let mut files = MemoryFiles::new(rt.alloc());
    files.hold("in", ALL.as_bytes())?;
    assert_eq!(rt; move_ten(&mut files), Ok((10, 10)));
    Ok(())
}

#[test]
fn moves_no_more_than_the_maximum(rt: HostRuntime) -> Result<(), Fail> {
    let mut one = cut_files(rt.alloc(), 1)?;
    assert_eq!(rt; move_ten(&mut one), Ok((1, 1)));
    assert_eq!(rt; one.left(Slot::Input), "ead and body".as_bytes());
    assert_eq!(rt; one.written(Slot::Output), "0".as_bytes());
    let mut seven = cut_files(rt.alloc(), 7)?;
    assert_eq!(rt; move_ten(&mut seven), Ok((7, 7)));
    assert_eq!(rt; seven.left(Slot::Input), "d body".as_bytes());
    assert_eq!(rt; seven.written(Slot::Output), "0123456".as_bytes());
    let mut many = cut_files(rt.alloc(), 11)?;
    assert_eq!(rt; move_ten(&mut many), Ok((10, 10)));
    Ok(())
}

#[test]
fn copies_under_a_maximum(rt: HostRuntime) -> Result<(), Fail> {
    let mut one = cut_files(rt.alloc(), 1)?;
    let answer = copy(rt.alloc(), &mut one, "in", "out", 100);
    assert_eq!(rt; answer, Ok(4));
    assert_eq!(rt; one.written(Slot::Output), ALL.as_bytes());
    assert_eq!(rt; one.written(Slot::Console), "copied\n".as_bytes());
    let mut seven = cut_files(rt.alloc(), 7)?;
    let answer = copy(rt.alloc(), &mut seven, "in", "out", 5);
    assert_eq!(rt; answer, Ok(4));
    assert_eq!(rt; seven.written(Slot::Output), "head and ".as_bytes());
    assert_eq!(rt; seven.left(Slot::Input), "body".as_bytes());
    Ok(())
}

/// The bytes of 40,000 numbers, which are more than one call moves.
fn numbers(alloc: Global) -> Result<Vec<u8>, AllocError> {
    let mut bytes = Vec::new(alloc);
    for number in 0..40000u32 {
        bytes.extend_from_slice(&number.to_le_bytes())?;
    }
    Ok(bytes)
}

#[test]
fn copies_more_than_a_piece(rt: HostRuntime) -> Result<(), Fail> {
    let alloc = rt.alloc();
    let content = numbers(alloc)?;
    let mut files = MemoryFiles::new(alloc);
    files.hold("in", &content)?;
    let answer = copy(alloc, &mut files, "in", "out", usize::MAX);
    assert_eq!(rt; answer, Ok(4));
    assert!(rt; files.written(Slot::Output) == content.as_slice());
    Ok(())
}

#[test]
fn opens_no_name_that_is_not_held(rt: HostRuntime) -> Result<(), Fail> {
    let alloc = rt.alloc();
    let mut files = MemoryFiles::new(alloc);
    files.hold("in", "abc".as_bytes())?;
    let answer = copy(alloc, &mut files, "In", "out", 1);
    assert_eq!(rt; answer, Err(Failed::Device));
    Ok(())
}

/// A copy of `head and body` from `in` to `out` with one call set to fail: what `copy` returns, the copy, the rest of
/// the input and the line on the console.
const FAILING: [(Call, u64, Result<usize, Failed>, &str, &str, &str); 11] = [
    (Call::Open, 0, Err(Failed::Device), "", "", ""),
    (Call::Open, 1, Err(Failed::Device), "", ALL, ""),
    (Call::Open, 2, Ok(4), ALL, "", "copied\n"),
    (Call::Read, 0, Err(Failed::Device), "", ALL, ""),
    (Call::Read, 1, Err(Failed::Device), "", " and body", ""),
    (Call::Read, 3, Ok(4), ALL, "", "copied\n"),
    (Call::Write, 0, Err(Failed::Device), "", "", ""),
    (Call::Write, 1, Err(Failed::Device), "head", "", ""),
    (Call::Write, 2, Ok(4), ALL, "", "copied\n"),
    (Call::Console, 0, Err(Failed::Device), ALL, "", ""),
    (Call::Console, 1, Ok(4), ALL, "", "copied\n"),
];

/// What the input holds.
const ALL: &str = "head and body";

#[test]
fn fails_the_call_that_is_set(rt: HostRuntime) -> Result<(), Fail> {
    for (number, (call, place, answer, copied, left, line)) in FAILING.iter().enumerate() {
        let mut files = MemoryFiles::new(rt.alloc());
        files.hold("in", ALL.as_bytes())?;
        files.fail(*call, *place)?;
        let copy = copy(rt.alloc(), &mut files, "in", "out", 100);
        assert_eq!(rt; copy, *answer, "row {number}");
        let output = files.written(Slot::Output);
        let shown = [
            output,
            files.left(Slot::Input),
            files.written(Slot::Console),
        ];
        assert!(rt; are_texts(shown, [copied, left, line]), "row {number}");
    }
    Ok(())
}

#[test]
fn fails_each_call_that_is_set(rt: HostRuntime) -> Result<(), Fail> {
    let mut files = MemoryFiles::new(rt.alloc());
    files.hold("in", ALL.as_bytes())?;
    files.fail(Call::Write, 9)?;
    files.fail(Call::Write, 1)?;
    files.fail(Call::Read, 9)?;
    let copy = copy(rt.alloc(), &mut files, "in", "out", 100);
    assert_eq!(rt; copy, Err(Failed::Device));
    assert_eq!(rt; files.written(Slot::Output), "head".as_bytes());
    Ok(())
}

// Reads two bytes of each of two slots.
fn read_two<F: Files>(files: &mut F) -> Result<(), Failed>
    requires { AllClosed (F.slot_view files.old) }
{
    files.open(Slot::Input, "in")?;
    files.open(Slot::Preview, "in")?;
    let mut head = [0; 2];
    fill(files, Slot::Input, &mut head)?;
    fill(files, Slot::Preview, &mut head)?;
    Ok(())
}

#[test]
fn numbers_calls_over_all_slots(rt: HostRuntime) -> Result<(), Fail> {
    // The read that fails, what `read_two` returns, and what is left of each slot.
    let table = [
        (0, Err(Failed::Device), "abc", "abc"),
        (1, Err(Failed::Device), "c", "abc"),
        (2, Ok(()), "c", "c"),
    ];
    for (number, answer, input, preview) in table {
        let mut files = MemoryFiles::new(rt.alloc());
        files.hold("in", "abc".as_bytes())?;
        files.fail(Call::Read, number)?;
        assert_eq!(rt; read_two(&mut files), answer, "read {number}");
        assert_eq!(rt; files.left(Slot::Input), input.as_bytes(), "read {number}");
        assert_eq!(rt;
            files.left(Slot::Preview),
            preview.as_bytes(),
            "read {number}"
        );
    }
    Ok(())
}

#[test]
fn copies_real_files(rt: HostRuntime) -> Result<(), Fail> {
    let (from, to, back) = (
        "apv_files_test_from",
        "apv_files_test_to",
        "apv_files_test_back",
    );
    let long = numbers(rt.alloc())?;
    let table: [(&[u8], usize); 3] = [(&[], 0), (&[0, 255, 10], 3), (&long, 4)];
    for (content, filled) in table {
        fs::write(&rt, from, content)?;
        // A copy, and a copy of what was written, each by files of its own.
        let mut files = HostFiles::new(rt, rt.alloc());
        let answer = copy(rt.alloc(), &mut files, from, to, usize::MAX);
        assert_eq!(rt; answer, Ok(filled));
        let mut others = HostFiles::new(rt, rt.alloc());
        let answer = copy(rt.alloc(), &mut others, to, back, usize::MAX);
        assert_eq!(rt; answer, Ok(filled));
        assert!(rt; fs::read(&rt, to)?.as_slice() == content);
        assert!(rt; fs::read(&rt, back)?.as_slice() == content);
    }
    fs::remove_file(&rt, from)?;
    fs::remove_file(&rt, to)?;
    fs::remove_file(&rt, back)?;
    Ok(())
}

#[test]
fn names_that_are_not_there_are_faults(rt: HostRuntime) -> Result<(), Fail> {
    let (from, absent) = ("apv_files_test_held", "apv_files_test_absent");
    fs::write(&rt, from, "head and body")?;
    let mut files = HostFiles::new(rt, rt.alloc());
    let answer = copy(rt.alloc(), &mut files, absent, "apv_files_test_none", 100);
    assert_eq!(rt; answer, Err(Failed::Device));
    // A folder that isn't there.
    let mut files = HostFiles::new(rt, rt.alloc());
    let answer = copy(
        rt.alloc(),
        &mut files,
        from,
        "apv_files_test_absent/to",
        100,
    );
    assert_eq!(rt; answer, Err(Failed::Device));
    fs::remove_file(&rt, from)?;
    Ok(())
}

// Writes bytes to the console.
fn write_line<F: Files>(files: &mut F, bytes: &[u8]) -> Result<(), Failed> {
    write_all(files, Slot::Console, bytes)
}

#[test]
fn standard_error_takes_text_alone(rt: HostRuntime) -> Result<(), Fail> {
    let mut files = HostFiles::new(rt, rt.alloc());
    assert_eq!(rt; write_line(&mut files, "a line\n".as_bytes()), Ok(()));
    assert_eq!(rt; write_line(&mut files, &[0xFF, 0x0A]), Err(Failed::Device));
    Ok(())
}
