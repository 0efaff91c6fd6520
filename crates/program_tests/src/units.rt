//! Access units, of which the tests are made.
use std::alloc::{AllocError, Global};
use std::test::Fail;

/// A PBU: its type (`pbu_type`), its group (`group_id`), and its bytes after the header.
pub(crate) type Pbu = (u8, u16, &'static [u8]);

/// The access unit of a picture of the samples 512 at QP 0, after its size.
pub(crate) const GREY_UNIT: &[u8] =
    b"\x00\x00\x00\x36\x61\x50\x76\x31\x00\x00\x00\x2E\x01\x00\x01\x00\x63\x7B\x00\x00\x00\x10\x00\x00\
    \x10\x02\x00\x00\x00\x00\x00\x40\x00\x04\x00\x00\x00\x00\x00\x12\x00\x0A\x00\x00\x00\x00\x00\x08\
    \x00\x00\x81\x07\xD4\x1F\x50\x7D\x41\xF0";

/// The access unit of a picture of the samples 612 at QP 22, after its size.
pub(crate) const LIGHT_UNIT: &[u8] =
    b"\x00\x00\x00\x37\x61\x50\x76\x31\x00\x00\x00\x2F\x01\x00\x01\x00\x63\x7B\x00\x00\x00\x10\x00\x00\
    \x10\x02\x00\x00\x00\x00\x00\x40\x00\x04\x00\x00\x00\x00\x00\x13\x00\x0A\x00\x00\x00\x00\x00\x09\
    \x16\x00\x51\x08\x3E\x81\x07\xD4\x1F\x50\x7C";

/// The access unit of a picture of 18x18 samples of 512, 4:2:2 and 10 bits, at QP 0, after its size.
pub(crate) const CUT_UNIT: &[u8] =
    b"\x00\x00\x00\x73\x61\x50\x76\x31\x00\x00\x00\x6B\x01\x00\x01\x00\x21\x7B\x00\x00\x00\x12\x00\x00\
    \x12\x22\x00\x00\x00\x00\x00\x40\x00\x02\x00\x00\x00\x00\x00\x4F\x00\x14\x00\x00\x00\x00\x00\x1D\
    \x00\x00\x00\x0F\x00\x00\x00\x0F\x00\x00\x00\x00\x81\x07\xD4\x1F\x50\x7D\x41\xF5\x07\xD4\x1F\x50\
    \x7D\x41\xF5\x07\xD4\x1F\x50\x7D\x41\xF5\x07\xD4\x1F\x50\x7D\x41\xF0\x81\x07\xD4\x1F\x50\x7D\x41\
    \xF5\x07\xD4\x1F\x50\x7D\x41\xF0\x81\x07\xD4\x1F\x50\x7D\x41\xF5\x07\xD4\x1F\x50\x7D\x41\xF0";

/// The access unit of one payload, after its size.
pub(crate) const PAYLOAD_UNIT: &[u8] =
    b"\x00\x00\x00\x16aPv1\x00\x00\x00\x0E\x42\x00\x01\x00\x00\x00\x00\x06\x06\x04\x03\xE8\x01\x90";

/// The payload.
pub(crate) const PAYLOAD: &[u8] = b"\x06\x04\x03\xE8\x01\x90";

/// The metadata PBU of the payload.
pub(crate) const METADATA: Pbu = (0x42, 1, b"\x00\x00\x00\x06\x06\x04\x03\xE8\x01\x90");

/// The frame of a grey unit: 16x16 samples, 4:0:0 and 10 bits.
pub(crate) const GREY_FRAME: &[u8] =
    b"\x63\x7B\x00\x00\x00\x10\x00\x00\x10\x02\x00\x00\x00\x00\x00\x40\x00\x04\x00\x00\x00\x00\x00\x12\
    \x00\x0A\x00\x00\x00\x00\x00\x08\x00\x00\x81\x07\xD4\x1F\x50\x7D\x41\xF0";

/// The primary frame of a grey unit.
pub(crate) const PRIMARY: Pbu = (0x01, 1, GREY_FRAME);

/// The same frame with the size of its tile in its header.
pub(crate) const SIZED: Pbu = (
    0x01,
    1,
    b"\x63\x7B\x00\x00\x00\x10\x00\x00\x10\x02\x00\x00\x00\x00\x00\x40\x00\x04\x20\x00\x00\x02\x40\x00\
    \x00\x00\x00\x12\x00\x0A\x00\x00\x00\x00\x00\x08\x00\x00\x81\x07\xD4\x1F\x50\x7D\x41\xF0",
);

/// Access unit information that lists the primary frame.
pub(crate) const INFORMATION: Pbu = (
    0x41,
    1,
    b"\x00\x01\x01\x00\x01\x00\x63\x7B\x00\x00\x00\x10\x00\x00\x10\x02\x00\x00\x00",
);

/// A frame whose data end inside a code word.
pub(crate) const CUT_WORD: &[u8] =
    b"\x63\x7B\x00\x00\x00\x10\x00\x00\x10\x02\x00\x00\x00\x00\x00\x40\x00\x04\x00\x00\x00\x00\x00\x0B\
    \x00\x0A\x00\x00\x00\x00\x00\x01\x00\x00\x40";

/// A frame whose data end after one and a half blocks.
pub(crate) const CUT_BLOCK: Pbu = (
    0x01,
    1,
    b"\x63\x7B\x00\x00\x00\x10\x00\x00\x10\x02\x00\x00\x00\x00\x00\x40\x00\x04\x00\x00\x00\x00\x00\x0C\
    \x00\x0A\x00\x00\x00\x00\x00\x02\x00\x00\x81\x07",
);

/// Appends a PBU after its size.
fn push_pbu(file: &mut Vec<u8>, pbu: Pbu) -> Result<(), AllocError> {
    let (kind, group, bytes) = pbu;
    let size = u32::try_from(bytes.len()).unwrap_or(0);
    file.extend_from_slice(&size.wrapping_add(4).to_be_bytes())?;
    file.push(kind)?;
    file.extend_from_slice(&group.to_be_bytes())?;
    file.push(0)?;
    file.extend_from_slice(bytes)
}

/// An access unit of PBUs, after its size.
pub(crate) fn unit_of(alloc: Global, pbus: &[Pbu]) -> Result<Vec<u8>, AllocError> {
    let mut all = Vec::new(alloc);
    for pbu in pbus {
        push_pbu(&mut all, *pbu)?;
    }
    let size = u32::try_from(all.len()).unwrap_or(0);
    let mut unit = Vec::new(alloc);
    unit.extend_from_slice(&size.wrapping_add(4).to_be_bytes())?;
    unit.extend_from_slice(b"aPv1")?;
    unit.extend_from_slice(&all)?;
    Ok(unit)
}

/// A file of one access unit of PBUs, and without PBUs the empty file.
pub(crate) fn file_of(alloc: Global, pbus: &[Pbu]) -> Result<Vec<u8>, AllocError> {
    if pbus.is_empty() {
        Ok(Vec::new(alloc))
    } else {
        unit_of(alloc, pbus)
    }
}

#[test]
fn units_with_their_sizes(rt: HostRuntime) -> Result<(), Fail> {
    for (pbu, wanted) in [(PRIMARY, GREY_UNIT), (METADATA, PAYLOAD_UNIT)] {
        let unit = unit_of(rt.alloc(), &[pbu])?;
        assert_eq!(rt; unit.as_slice(), wanted);
    }
    Ok(())
}
