//! The file of payloads.
ghost use Rattle.std.specs.Prelude.{◌≡◌, ◌≤◌, ℕ, List, [], length, IfNone, IfSome};
ghost use Rattle.apv_base.specs.declared.slot.Slot.TheVariants.{Metadata};
ghost use Rattle.apv_base.specs.model.Payload.{HasPartialPayload};
ghost use Rattle.apv_base.specs.model.Run.{MAX_UNIT};
ghost use Rattle.apv_files.specs.SlotView.{OnlyAt};
ghost use Rattle.apv_files.specs.declared.files.Mode.TheVariants.{Reading};
ghost use Rattle.apv_tracks.specs.PayloadFile.{AreWhole, ReadsPayloads};

use apv_base::{MAX_UNIT_BYTES, Slot};
use apv_files::{Failed, Files, read_more};
use apv_meta::next_payload;

/// The most bytes of a file of payloads, which is the limit L1.
const MAX: usize = MAX_UNIT_BYTES as usize;

/// Why no file of payloads was read.
///
/// - `Bad`: the first payload that isn't whole begins at that byte, counted from 0.
/// - `Limit`: the file has more than 536,870,912 bytes (L1); the number is 536,870,913.
/// - `Read`: a read of the slot `Metadata` failed by its device.
/// - `Memory`: memory ran out.
#[derive(Clone, Copy, Debug, PartialEq, Eq)]
pub enum ListEnd {
    Bad(u64),
    Limit(u64),
    Read,
    Memory,
}

/// The byte at which the first payload of a list that isn't whole begins.
fn partial_payload(list: &[u8]) -> Option<usize>
    requires { length list.now ≤ MAX_UNIT }
    ensures some { IfSome result (λ byte. HasPartialPayload list.now byte) }
    ensures none { IfNone result (AreWhole list.now) }
{
    let mut place = 0;
    while place < list.len() {
        let Some(payload) = next_payload(list, place) else {
            return Some(place);
        };
        place = payload.next;
    }
    None
}

/// Reads the file of payloads from `Metadata` to its end: whole payloads one after another (`metadata_payload()`), each
/// its type, its size and its bytes, at most 536,870,912 bytes in all. The vector, which is empty before, becomes the
/// file.
///
/// The refusals come in this order: `Limit`, with 536,870,913, exactly where more bytes than that are left; `Bad`, exactly
/// where they aren't whole payloads, with the first byte of the first one that isn't whole. `Read` comes only where the
/// read faults of `Metadata` rose. `Memory` comes from the files, or where the vector can't grow. After a refusal nothing
/// is said of the vector, and at most 536,870,913 bytes were read.
pub fn read_payload_file<F: Files>(files: &mut F, list: &mut Vec<u8>) -> Result<(), ListEnd>
    requires reading { (F.slot_view files.old Metadata).mode ≡ Reading }
    requires empty { list.old.items ≡ [] }
    ensures here { ReadsPayloads (F.slot_view files.old Metadata) result list.new.items
        (F.slot_view files.new Metadata) }
    ensures elsewhere { OnlyAt Metadata (F.slot_view files.old) (F.slot_view files.new) }
    ensures held { (file : List ℕ) → F.held files.new file ≡ F.held files.old file }
{
    match read_more(files, Slot::Metadata, list, MAX + 1) {
        Ok(()) => {}
        Err(Failed::Device) => return Err(ListEnd::Read),
        Err(Failed::Memory) => return Err(ListEnd::Memory),
    }
    if list.len() > MAX {
        return Err(ListEnd::Limit(list.len() as u64));
    }
    match partial_payload(list.as_slice()) {
        Some(byte) => Err(ListEnd::Bad(byte as u64)),
        None => Ok(()),
    }
}
