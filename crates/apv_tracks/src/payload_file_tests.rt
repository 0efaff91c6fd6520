//! Files of payloads, read.
ghost use Rattle.std.specs.Prelude.{◌≤◌, length, IfOk};
ghost use Rattle.apv_base.specs.model.Run.{MAX_UNIT};
ghost use Rattle.apv_files.specs.Memory.{memory_view};
ghost use Rattle.apv_files.specs.SlotView.{AllClosed};
ghost use Rattle.apv_tracks.specs.PayloadFile.{AreWhole};

use crate::payload_file::{ListEnd, read_payload_file};
use apv_base::Slot;
use apv_files::{Call, Failed, Files, MemoryFiles};
use apv_meta::Payloads;
use std::alloc::Global;
use std::test::Fail;

/// Reads the file of payloads.
fn read_list<F: Files>(alloc: Global, files: &mut F) -> Result<Vec<u8>, ListEnd>
    requires { AllClosed (F.slot_view files.old) }
    ensures few { IfOk result (λ list. length list.items ≤ MAX_UNIT) }
    ensures whole { IfOk result (λ list. AreWhole list.items) }
{
    let mut list = Vec::new(alloc);
    match files.open(Slot::Metadata, "payloads") {
        Ok(()) => {}
        Err(Failed::Device) => return Err(ListEnd::Read),
        Err(Failed::Memory) => return Err(ListEnd::Memory),
    }
    read_payload_file(files, &mut list)?;
    Ok(list)
}

/// Files with this file of payloads.
fn files_with(alloc: Global, payloads: &[u8]) -> Result<MemoryFiles, Fail>
    ensures { IfOk result (λ files. AllClosed (memory_view files)) }
{
    let mut files = MemoryFiles::new(alloc);
    files.hold("payloads", payloads)?;
    Ok(files)
}

#[test]
fn reads_payloads(rt: HostRuntime) -> Result<(), Fail> {
    // The file, and the answer where it isn't taken.
    let table: [(&[u8], Option<ListEnd>); 10] = [
        (b"", None),
        (b"\x06\x00", None),
        (b"\x05\x00\x06\x02\x03\xE8", None),
        (b"\x05\x00\x06\x04", Some(ListEnd::Bad(2))),
        (b"\x06\x04\x03\xE8\x01", Some(ListEnd::Bad(0))),
        (b"\x06\x00\x06\x00\x06", Some(ListEnd::Bad(4))),
        (b"\xFF", Some(ListEnd::Bad(0))),
        (b"\xFF\xFF", Some(ListEnd::Bad(0))),
        (b"\x06\xFF", Some(ListEnd::Bad(0))),
        (b"\x06\x01\x00\x06\xFF\x00", Some(ListEnd::Bad(3))),
    ];
    for (bytes, answer) in table {
        let mut files = files_with(rt.alloc(), bytes)?;
        match read_list(rt.alloc(), &mut files) {
            Ok(list) => {
                assert_eq!(rt; answer, None, "{bytes:?}");
                assert!(rt; list.as_slice() == bytes);
            }
            Err(end) => assert_eq!(rt; Some(end), answer, "{bytes:?}"),
        }
        assert!(rt; files.left(Slot::Metadata).is_empty());
    }
    Ok(())
}

/// A file of three payloads: one of type 170 with 510 bytes of 9, one of type 300 with the byte 7, and one of type 6 with
/// none.
fn three_payloads(alloc: Global) -> Result<Vec<u8>, Fail> {
    let mut bytes = Vec::new(alloc);
    bytes.extend_from_slice(b"\xAA\xFF\xFF\x00")?;
    bytes.extend_from_slice(&[9; 510])?;
    bytes.extend_from_slice(b"\xFF\x2D\x01\x07\x06\x00")?;
    Ok(bytes)
}

#[test]
fn reads_three_payloads(rt: HostRuntime) -> Result<(), Fail> {
    let bytes = three_payloads(rt.alloc())?;
    let mut files = files_with(rt.alloc(), bytes.as_slice())?;
    let Ok(list) = read_list(rt.alloc(), &mut files) else {
        return Err("a list".into());
    };
    let mut found = Vec::new(rt.alloc());
    for payload in Payloads::of(list.as_slice()) {
        found.push((payload.kind, payload.bytes.len()))?;
    }
    assert!(rt; list.as_slice() == bytes.as_slice());
    assert_eq!(rt; found.as_slice(), [(170, 510), (300, 1), (6, 0)].as_slice());
    Ok(())
}

#[test]
fn names_a_fault_of_the_payloads(rt: HostRuntime) -> Result<(), Fail> {
    for number in 0..2 {
        let mut files = files_with(rt.alloc(), b"\x06\x00")?;
        files.fail(Call::Read, number)?;
        let end = read_list(rt.alloc(), &mut files).err();
        assert_eq!(rt; end, Some(ListEnd::Read));
    }
    Ok(())
}
