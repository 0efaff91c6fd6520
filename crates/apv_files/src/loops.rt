//! Many reads or many writes on one slot.
ghost use Rattle.std.specs.Prelude.{◌≡◌, ◌<◌, ℕ, List, length, IfErr};
ghost use Rattle.apv_files.specs.Loops.{Fills, ReadsMore, WritesAll};
ghost use Rattle.apv_files.specs.SlotView.{OnlyAt};
ghost use Rattle.apv_files.specs.declared.files.Mode.TheVariants.{Reading, Writing};

use crate::{Failed, Files, Slot};

/// The most bytes that one read of `read_more` asks for.
const PIECE: usize = 65536;

/// Reads until the buffer is full or the input ends, and says how many bytes were taken: the buffer begins with them,
/// and there are fewer than it holds only where the slot is at its end.
///
/// After an error no more bytes were taken than the buffer holds. `Device`: the slot's read faults rose. An empty buffer
/// is full, so that there is no error.
pub fn fill<F: Files>(files: &mut F, slot: Slot, buf: &mut [u8]) -> Result<usize, Failed>
    requires reading { (F.slot_view files.old slot).mode ≡ Reading }
    ensures here { Fills (F.slot_view files.old slot) result buf.new (F.slot_view files.new slot) }
    ensures some { IfErr result (λ e. 0 < length buf.new) }
    ensures elsewhere { OnlyAt slot (F.slot_view files.old) (F.slot_view files.new) }
    ensures held { (file : List ℕ) → F.held files.new file ≡ F.held files.old file }
{
    let mut filled = 0;
    while filled < buf.len() {
        let rest = &mut buf[filled..];
        let taken = files.read(slot, rest)?;
        if taken == 0 {
            return Ok(filled);
        }
        filled += taken;
    }
    Ok(filled)
}

/// Reads n bytes, or fewer up to the end of the input, and puts them after those that are there.
///
/// After an error no more than n bytes were taken, and nothing is said of the vector. `Device`: the slot's read
/// faults rose. `Memory` comes from the files, or where the vector can't grow. Where n is 0 there is no error.
pub fn read_more<F: Files>(
    files: &mut F,
    slot: Slot,
    bytes: &mut Vec<u8>,
    count: usize,
) -> Result<(), Failed>
    requires reading { (F.slot_view files.old slot).mode ≡ Reading }
    ensures here { ReadsMore (F.slot_view files.old slot) count result
        bytes.old.items bytes.new.items (F.slot_view files.new slot) }
    ensures some { IfErr result (λ e. 0 < count) }
    ensures elsewhere { OnlyAt slot (F.slot_view files.old) (F.slot_view files.new) }
    ensures held { (file : List ℕ) → F.held files.new file ≡ F.held files.old file }
{
    let mut buf = [0; PIECE];
    let mut left = count;
    while left > 0 {
        let room = left.min(PIECE);
        let piece = &mut buf[..room];
        let taken = files.read(slot, piece)?;
        if taken == 0 {
            return Ok(());
        }
        if bytes.extend_from_slice(&piece[..taken]).is_err() {
            return Err(Failed::Memory);
        }
        left -= taken;
    }
    Ok(())
}

/// Writes all the bytes: each write is given all that is left, and takes what it can.
///
/// After an error a prefix of the bytes was written, but not all. `Device`: the slot's write faults rose.
pub fn write_all<F: Files>(files: &mut F, slot: Slot, bytes: &[u8]) -> Result<(), Failed>
    requires { (F.slot_view files.old slot).mode ≡ Writing }
    ensures here { WritesAll (F.slot_view files.old slot) bytes.now result
        (F.slot_view files.new slot) }
    ensures elsewhere { OnlyAt slot (F.slot_view files.old) (F.slot_view files.new) }
    ensures held { (file : List ℕ) → F.held files.new file ≡ F.held files.old file }
{
    let mut written = 0;
    while written < bytes.len() {
        let (_, rest) = bytes.split_at(written);
        written += files.write(slot, rest)?;
    }
    Ok(())
}
