//! Access unit information (`au_info()` of RFC 9924).
ghost use Rattle.std.specs.Prelude.{◌≡◌, ◌≤◌, ◌<◌, ◌+◌, ◌*◌, ℕ, List, length, slice_index, MatchOption, MatchResult};
ghost use Rattle.std.specs.List.{flat_map};
ghost use Rattle.apv_base.specs.model.AuInfo.{IsAuInfo, AuInfoBreaks, ListedFrame, au_info_body};
ghost use Rattle.apv_unit.specs.AuInfo.{PassesReserved, BreaksReserved, PassesEntry, BreaksEntry};
ghost use Rattle.apv_unit.specs.AuInfo.{PassesFields, BreaksFields, IsAuEntry};
ghost use Rattle.apv_unit.specs.AuInfo.{ListAll, entries_bytes, entry_bytes};
ghost use Rattle.apv_base.specs.model.Run.{MAX_UNIT};

use crate::filler::is_filler;
use apv_base::{HeadEnd, Rule};
use apv_bits::{BitReader, Ended, be16};

/// Passes free bits, whose values aren't judged, and a reserved field after them of at most 32 bits. V8 where bits are
/// missing, V14 where the reserved field isn't 0.
#[inline]
fn pass_reserved(reader: &mut BitReader<'_>, free: u32, reserved: u32) -> Result<(), HeadEnd>
    requires { reserved ≤ 32 }
    ensures { MatchResult result (λ _. PassesReserved free reserved reader.old.left reader.new.left)
        (λ end. BreaksReserved free reserved reader.old.left end) }
{
    if reader.left() < u64::from(free) {
        return Err(HeadEnd::Rule(Rule::V8));
    }
    reader.skip(free);
    match reader.read(reserved) {
        Ok(0) => Ok(()),
        Ok(_) => Err(HeadEnd::Rule(Rule::V14)),
        Err(Ended) => Err(HeadEnd::Rule(Rule::V8)),
    }
}

/// Passes the 128 bits of a frame: `pbu_type`, `group_id`, a reserved byte and `frame_info()`. V8 where bits are
/// missing, V14 at the first reserved field that isn't 0.
#[inline]
fn pass_entry(reader: &mut BitReader<'_>) -> Result<(), HeadEnd>
    ensures { MatchResult result (λ _. PassesEntry reader.old.left reader.new.left)
        (λ end. BreaksEntry reader.old.left end) }
{
    pass_reserved(reader, 24, 8)?;
    pass_reserved(reader, 19, 5)?;
    pass_reserved(reader, 64, 8)
}

/// The bytes after the fields. V8 where bits are missing, V14 at the first reserved field that isn't 0.
fn after_fields(body: &[u8]) -> Result<&[u8], HeadEnd>
    requires { length body.now ≤ MAX_UNIT }
    ensures { MatchResult result (λ filler. PassesFields body.now filler.now)
        (λ end. BreaksFields body.now end) }
{
    let mut reader = BitReader::new(body);
    let Ok(count) = reader.read(16) else {
        return Err(HeadEnd::Rule(Rule::V8));
    };
    for _ in 0..count {
        pass_entry(&mut reader)?;
    }
    pass_reserved(&mut reader, 0, 8)?;
    let left = (reader.left() / 8) as usize;
    let (_, after) = body.split_at(body.len() - left);
    Ok(after)
}

/// The first rule that a body of access unit information of at most 536,870,912 bytes breaks (`au_info()`): V8 where
/// bits are missing, V14 at a reserved field that isn't 0, and after the fields V23 at a byte that isn't FF. The
/// other values are free.
pub fn au_info_break(body: &[u8]) -> Option<HeadEnd>
    requires { length body.now ≤ MAX_UNIT }
    ensures { MatchOption result ((values : List ℕ) × IsAuInfo body.now values)
        (λ end. AuInfoBreaks body.now end) }
{
    let filler = match after_fields(body) {
        Ok(filler) => filler,
        Err(end) => return Some(end),
    };
    if !is_filler(filler) {
        return Some(HeadEnd::Rule(Rule::V23));
    }
    None
}

/// The number of frames, 0 to 65,535, of a sound body of access unit information (`num_frames`).
pub fn au_count(body: &[u8]) -> u16
    requires small { length body.now ≤ MAX_UNIT }
    requires sound { (values : List ℕ) × IsAuInfo body.now values }
    ensures { (values : List ℕ) → IsAuInfo body.now values → result ≡ slice_index values 0 }
{
    be16(body)
}

/// A frame as access unit information names it.
#[derive(Clone, Copy, Debug, PartialEq, Eq)]
pub struct AuEntry {
    /// `pbu_type`.
    pub kind: u8,
    /// `group_id`.
    pub group: u16,
    /// The bytes of `frame_info()`.
    pub info: [u8; 12],
}

/// The frame of a number, counted from 0 and below `num_frames`, in a sound body of access unit information
/// (`au_info()`).
pub fn au_entry(body: &[u8], number: u16) -> AuEntry
    requires small { length body.now ≤ MAX_UNIT }
    requires sound { (values : List ℕ) × IsAuInfo body.now values }
    requires exists { (values : List ℕ) → IsAuInfo body.now values → number < slice_index values 0 }
    ensures { (values : List ℕ) → IsAuInfo body.now values → IsAuEntry result values number }
{
    let first = 2 + 16 * usize::from(number);
    let (_, entry) = body.split_at(first);
    let (_, group) = entry.split_at(1);
    let (_, after) = entry.split_at(4);
    let (bytes, _) = after.split_at(12);
    let mut info = [0; 12];
    info.copy_from_slice(bytes);
    AuEntry {
        kind: entry[0],
        group: be16(group),
        info,
    }
}

/// Writes the 16 bytes of an entry: `pbu_type`, `group_id`, a reserved byte and `frame_info()`.
fn put_entry(entry: &AuEntry, out: &mut [u8])
    requires { length out.old ≡ 16 }
    ensures { out.new ≡ entry_bytes entry.now }
{
    let group = entry.group.to_be_bytes();
    let (fields, info) = out.split_at_mut(4);
    fields.copy_from_slice(&[entry.kind, group[0], group[1], 0]);
    info.copy_from_slice(&entry.info);
}

/// Writes entries one after another.
fn put_entries(entries: &[AuEntry], out: &mut [u8])
    requires { length out.old ≡ 16 * length entries.now }
    ensures { out.new ≡ flat_map entry_bytes entries.now }
{
    for index in 0..entries.len() {
        let (_, rest) = out.split_at_mut(16 * index);
        let (here, _) = rest.split_at_mut(16);
        put_entry(&entries[index], here);
    }
}

/// Writes the body of access unit information (`au_info()`) that lists frames, without filler: the number of entries
/// (`num_frames`), 16 bytes for each, and a reserved byte. There are at most 65,535 entries, and the output has just room.
pub fn put_au_info(entries: &[AuEntry], out: &mut [u8])
    requires few { length entries.now ≤ 65535 }
    requires room { length out.old ≡ 3 + 16 * length entries.now }
    ensures bytes { out.new ≡ entries_bytes entries.now }
    ensures body { (frames : List ListedFrame) → ListAll entries.now frames
        → out.new ≡ au_info_body frames }
{
    let count = (entries.len() as u16).to_be_bytes();
    let (number, rest) = out.split_at_mut(2);
    let (listed, reserved) = rest.split_at_mut(16 * entries.len());
    number.copy_from_slice(&count);
    put_entries(entries, listed);
    reserved.fill(0);
}
