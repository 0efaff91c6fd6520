//! The next access unit of a file.
ghost use Rattle.std.specs.Prelude.{◌≡◌, ◌<◌, ◌≤◌, ℕ, List, [], OnOk, length};
ghost use Rattle.apv_base.specs.declared.slot.Slot.TheVariants.{Input};
ghost use Rattle.apv_base.specs.model.Bits.{be, number};
ghost use Rattle.apv_base.specs.model.Run.{MAX_UNIT};
ghost use Rattle.apv_files.specs.Loops.{ReadsMore};
ghost use Rattle.apv_files.specs.SlotView.{OnlyAt};
ghost use Rattle.apv_files.specs.declared.files.Mode.TheVariants.{Reading};
ghost use Rattle.apv_dec.specs.NextUnit.{HasRoom, NextUnit};

use apv_base::{Break, Limit, MAX_UNIT_BYTES, Place, Rule, Slot};
use apv_bits::be32;
use apv_files::{Failed, Files, fill};
use std::alloc::AllocError;

/// The bytes by which the vector of a unit grows at least, where so many are wanted.
const PIECE: usize = 65536;

/// Why no access unit (`access_unit()`) was read.
///
/// - `Broken`: the rule V1 or V2 is broken.
/// - `Limit`: the limit L3 is met by that number of access units, or L1 by that number of bytes.
/// - `Read`: a read of the input failed by its device.
/// - `Memory`: memory ran out.
#[derive(Clone, Copy, Debug, PartialEq, Eq)]
pub enum UnitRead {
    Broken(Break),
    Limit(Limit, u64),
    Read,
    Memory,
}

/// Where a rule of the access unit of that number is broken.
fn broken(rule: Rule, number: u32) -> UnitRead
    ensures { result ≡ UnitRead.Broken
        (record { rule = rule; place = record { unit = number; pbu = 0; tile = 0; comp = 0 } }) }
{
    let place = Place {
        unit: number,
        pbu: 0,
        tile: 0,
        comp: 0,
    };
    UnitRead::Broken(Break { rule, place })
}

/// The size that four bytes spell (`au_size`).
fn size_of(head: &[u8]) -> u32
    requires { length head.now ≡ 4 }
    ensures value { result ≡ number 256 head.now }
    ensures spelled { be 4 result ≡ head.now }
{
    be32(head)
}

/// Makes room for more bytes of a unit where the first n bytes are used and all that are there: for as many as are left of
/// the unit, but for at most 65,536 more than there are.
fn make_room(bytes: &mut Vec<u8>, used: usize, count: usize) -> Result<(), AllocError>
    requires inside { used ≤ length bytes.old.items }
    requires few { length bytes.old.items ≤ count }
    requires more { (used < count) × (count ≤ MAX_UNIT) }
    ensures { OnOk result (HasRoom bytes.old.items used count bytes.new.items) }
{
    let len = bytes.len();
    if used < len {
        return Ok(());
    }
    let room = usize::min(count - len, len + PIECE);
    bytes.resize(len + room, 0)
}

/// Reads n bytes of `Input`, or fewer up to its end, straight into the vector, which then is these bytes. What it held
/// before is written over, and it grows with what was read.
fn read_bytes<F: Files>(files: &mut F, bytes: &mut Vec<u8>, count: usize) -> Result<(), Failed>
    requires reading { (F.slot_view files.old Input).mode ≡ Reading }
    requires few { count ≤ MAX_UNIT }
    ensures here { ReadsMore (F.slot_view files.old Input) count result [] bytes.new.items
        (F.slot_view files.new Input) }
    ensures elsewhere { OnlyAt Input (F.slot_view files.old) (F.slot_view files.new) }
    ensures held { (file : List ℕ) → F.held files.new file ≡ F.held files.old file }
{
    bytes.truncate(count);
    let mut done = 0;
    while done < count {
        match make_room(bytes, done, count) {
            Ok(()) => {}
            Err(_) => return Err(Failed::Memory),
        }
        let taken = files.read(Slot::Input, &mut bytes.as_mut_slice()[done..])?;
        if taken == 0 {
            bytes.truncate(done);
            return Ok(());
        }
        done += taken;
    }
    Ok(())
}

/// Reads the next access unit of `Input`, of which `number` were read before: its size in four bytes (`au_size`), and
/// the unit (`access_unit()`), which the vector then is. What is left of `Input` begins right after it. False exactly
/// at the end of the input, of which nothing is taken then.
///
/// The refusals come in this order: L3 (with 4294967296) where 4,294,967,295 units were read and a byte is left; V1
/// where fewer than four bytes are left; L1 where the size is above 536,870,912 bytes; V2 where fewer bytes follow.
///
/// After V1 and V2 all that was left is taken, and nothing is left. After L3 and L1 at most the four bytes of the size
/// are taken. `Read` comes only where the read faults of `Input` rose, and after it and `Memory` no more is taken than the
/// size and the unit. After a refusal nothing is said of the vector.
pub fn next_unit<F: Files>(files: &mut F, number: u32, unit: &mut Vec<u8>) -> Result<bool, UnitRead>
    requires reading { (F.slot_view files.old Input).mode ≡ Reading }
    ensures here { NextUnit number (F.slot_view files.old Input) result unit.new.items
        (F.slot_view files.new Input) }
    ensures elsewhere { OnlyAt Input (F.slot_view files.old) (F.slot_view files.new) }
    ensures held { (file : List ℕ) → F.held files.new file ≡ F.held files.old file }
{
    let mut head = [0; 4];
    let count = fill(files, Slot::Input, &mut head)?;
    if count == 0 {
        return Ok(false);
    }
    if number == u32::MAX {
        return Err(UnitRead::Limit(Limit::L3, 4294967296));
    }
    if count < 4 {
        return Err(broken(Rule::V1, number));
    }
    let size = size_of(&head);
    if size > MAX_UNIT_BYTES {
        return Err(UnitRead::Limit(Limit::L1, u64::from(size)));
    }
    read_bytes(files, unit, size as usize)?;
    if unit.len() < size as usize {
        return Err(broken(Rule::V2, number));
    }
    Ok(true)
}
