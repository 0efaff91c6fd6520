//! Reading the levels after a block's first by a table of steps. A step is a run and the level
//! after it (`coeff_zero_run`, `abs_ac_coeff_minus1` and `sign_ac_coeff`).

ghost use Rattle.std.specs.Prelude.{◌≡◌, ◌+◌, ◌<◌, ◌≤◌, length, take, unsigned_abs};
ghost use Rattle.std.specs.Prelude.{IfSome, IfNone, IfOk, IfErr, OnOk};
ghost use Rattle.std.specs.Bool.{OnTrue, OnFalse};

use crate::block_break::BlockBreak;
use crate::elements::run_level::{RunLevel, read_run_level};
use crate::elements::values::level_parameter;
use crate::scan::{place_before, place_of};
use crate::tables::step_table::{Entry, Move, context_after, look_up};
use apv_bits::{BitReader, Window};

/// A place in a block's bits: the bits that are left, the number of the context, and the scan place
/// of the next level, 64 after the last.
#[derive(Drop)]
pub struct Cursor<'a> {
    reader: BitReader<'a>,
    context: usize,
    place: usize,
    ghost few: { context < 15 },
    ghost some: { 0 < place },
    ghost within: { place ≤ 64 },
}

impl<'a> Cursor<'a> {
    ghost use Rattle.apv_scan.specs.Table.{context_number, IsMove, IsEntry, AreEntries};
    ghost use Rattle.apv_scan.specs.Walk.{last_size, TakesRunLevel, TakesMore, TakesSome, Begins, IsSeen};
    ghost use Rattle.apv_scan.specs.Walk.{EndsBlock, BreaksNext, BreaksLater, Finishes, ReadsStep};
    ghost use Rattle.apv_scan.specs.Cursor.{progress_of};

    /// Takes one step, where it ends in the block.
    #[inline(always)]
    fn take_one(&mut self, step: Move, levels: &mut [i16; 64]) -> bool
        requires ahead { 11 ≤ length self.old.reader.left }
        requires step { IsMove self.old.context (take 11 self.old.reader.left) step }
        ensures steps { OnTrue result (TakesRunLevel
            (progress_of self.old levels.old) (progress_of self.new levels.new)) }
        ensures same { OnFalse result (progress_of self.new levels.new
            ≡ progress_of self.old levels.old) }
    {
        let place = self.place + usize::from(step.advance);
        if place > 64 {
            return false;
        }
        levels[place_before(place)] = i16::from(step.level);
        self.reader.skip(u32::from(step.length));
        self.context = usize::from(step.next);
        self.place = place;
        true
    }

    /// Takes the steps of an entry, where they end in the block.
    #[inline(always)]
    fn take_all(&mut self, entry: Entry, window: &mut Window, levels: &mut [i16; 64]) -> bool
        requires ahead { 11 ≤ length window.old }
        requires seen { IsSeen window.old self.old.reader.left }
        requires entry { IsEntry self.old.context (take 11 window.old) entry }
        ensures goes { OnTrue result (TakesSome
            (progress_of self.old levels.old) (progress_of self.new levels.new)
            × Begins (progress_of self.old levels.old) (progress_of self.new levels.new)
            (unsigned_abs entry.first.level)) }
        ensures seen { OnTrue result (IsSeen window.new self.new.reader.left) }
        ensures ahead { OnTrue result (length window.old ≤ length window.new + 11) }
        ensures same { OnFalse result (progress_of self.new levels.new
            ≡ progress_of self.old levels.old) }
    {
        let place = self.place + usize::from(entry.all.advance);
        if place > 64 {
            return false;
        }
        let first = self.place + usize::from(entry.first.advance);
        levels[place_before(first)] = i16::from(entry.first.level);
        levels[place_before(place)] = i16::from(entry.all.level);
        window.skip(u32::from(entry.all.length));
        self.reader.skip(u32::from(entry.all.length));
        self.context = usize::from(entry.all.next);
        self.place = place;
        true
    }

    /// Takes one step or two by the table, where it has them, from a window of the bits left.
    #[inline(always)]
    fn go_on(&mut self, entries: &[Entry], window: &mut Window, levels: &mut [i16; 64]) -> bool
        requires entries { AreEntries entries.now }
        requires ahead { 11 ≤ length window.old }
        requires seen { IsSeen window.old self.old.reader.left }
        ensures goes { OnTrue result (TakesSome
            (progress_of self.old levels.old) (progress_of self.new levels.new)) }
        ensures seen { OnTrue result (IsSeen window.new self.new.reader.left) }
        ensures ahead { OnTrue result (length window.old ≤ length window.new + 11) }
        ensures same { OnFalse result (progress_of self.new levels.new
            ≡ progress_of self.old levels.old) }
    {
        let entry = look_up(entries, self.context, window);
        self.take_all(entry, window, levels)
    }

    /// Takes one step by the table, where it has it.
    #[inline(always)]
    fn step_by_table(&mut self, entries: &[Entry], levels: &mut [i16; 64]) -> bool
        requires entries { AreEntries entries.now }
        ensures steps { OnTrue result (TakesRunLevel
            (progress_of self.old levels.old) (progress_of self.new levels.new)) }
        ensures same { OnFalse result (progress_of self.new levels.new
            ≡ progress_of self.old levels.old) }
    {
        let Some(window) = self.reader.window() else {
            return false;
        };
        let entry = look_up(entries, self.context, &window);
        self.take_one(entry.first, levels)
    }

    /// Takes steps by the table while it has them.
    #[inline(always)]
    fn steps_by_table(&mut self, entries: &[Entry], levels: &mut [i16; 64])
        requires entries { AreEntries entries.now }
        ensures { TakesMore (progress_of self.old levels.old) (progress_of self.new levels.new) }
    {
        let Some(mut window) = self.reader.window() else {
            return;
        };
        while let Some(fresh) = self.reader.window() {
            // The old window has these bits too, and is at hand while the new one is loaded.
            let entry = look_up(entries, self.context, &window);
            window = fresh;
            if !self.take_all(entry, &mut window, levels) {
                return;
            }
            if !self.go_on(entries, &mut window, levels) {
                return;
            }
            if !self.go_on(entries, &mut window, levels) {
                return;
            }
            if !self.go_on(entries, &mut window, levels) {
                return;
            }
        }
    }

    /// Takes the next step, of any length: true for a run and a level, false for the run up to the
    /// block's end.
    #[inline(always)]
    fn decode_step(&mut self, levels: &mut [i16; 64]) -> Result<bool, BlockBreak>
        requires { self.old.place < 64 }
        ensures { ReadsStep (progress_of self.old levels.old) result
            (progress_of self.new levels.new) }
    {
        let context = self.context as u32;
        let place = self.place as u32;
        let step = read_run_level(&mut self.reader, context / 5, context % 5, 64 - place)?;
        let RunLevel::Level { run, size, level } = step else {
            return Ok(false);
        };
        levels[place_of(place + run)] = level;
        self.context = context_after(run, size) as usize;
        self.place = (place + run + 1) as usize;
        Ok(true)
    }

    /// Takes the first step of a block by the table, or the first two, where it has them, and
    /// returns the size of the first level.
    #[inline(always)]
    fn begin_by_table(&mut self, entries: &[Entry], levels: &mut [i16; 64]) -> Option<u32>
        requires entries { AreEntries entries.now }
        ensures begins { IfSome result (λ size.
            Begins (progress_of self.old levels.old) (progress_of self.new levels.new) size) }
        ensures small { IfSome result (λ size. size ≤ 32768) }
        ensures same { IfNone result (progress_of self.new levels.new
            ≡ progress_of self.old levels.old) }
    {
        let mut window = self.reader.window()?;
        let entry = look_up(entries, self.context, &window);
        if !self.take_all(entry, &mut window, levels) {
            return None;
        }
        Some(u32::from(entry.first.level.unsigned_abs()))
    }

    /// A cursor at the first place after a block's first level, under the size of the first of the
    /// levels there in the blocks before.
    #[inline(always)]
    pub fn new(reader: BitReader<'a>, first: u32) -> Cursor<'a>
        requires { first ≤ 32768 }
        ensures reader { result.reader ≡ reader.entry }
        ensures place { result.place ≡ 1 }
        ensures context { result.context ≡ context_number 0 first }
    {
        Cursor {
            reader,
            context: level_parameter(first) as usize,
            place: 1,
        }
    }

    /// A reader of the bits that are left.
    #[inline(always)]
    pub fn reader(&self) -> BitReader<'a>
        ensures { result ≡ self.now.reader }
    {
        self.reader.ahead()
    }

    /// The size of the last level that was read.
    #[inline(always)]
    fn last_size(&self, levels: &[i16; 64]) -> u32
        ensures size { result ≡ last_size (progress_of self.now levels.now) }
        ensures small { result ≤ 32768 }
    {
        u32::from(levels[place_before(self.place)].unsigned_abs())
    }

    /// Takes the next step, by the table where it has it: true for a run and a level, false for the
    /// run up to the block's end.
    #[inline(always)]
    fn next_step(&mut self, entries: &[Entry], levels: &mut [i16; 64]) -> Result<bool, BlockBreak>
        requires entries { AreEntries entries.now }
        requires place { self.old.place < 64 }
        ensures { ReadsStep (progress_of self.old levels.old) result
            (progress_of self.new levels.new) }
    {
        if self.step_by_table(entries, levels) {
            return Ok(true);
        }
        self.decode_step(levels)
    }

    /// Takes the first step of a block, or the first two: the size of the first level, and none for
    /// the run up to the block's end.
    #[inline(always)]
    pub fn begin(
        &mut self,
        entries: &[Entry],
        levels: &mut [i16; 64],
    ) -> Result<Option<u32>, BlockBreak>
        requires entries { AreEntries entries.now }
        requires place { self.old.place < 64 }
        ensures begins { IfOk result (λ found. IfSome found (λ size. Begins
            (progress_of self.old levels.old) (progress_of self.new levels.new) size)) }
        ensures small { IfOk result (λ found. IfSome found (λ size. size ≤ 32768)) }
        ensures ends { IfOk result (λ found. IfNone found
            (EndsBlock (progress_of self.old levels.old) self.new.reader)) }
        ensures same { IfOk result (λ found. IfNone found (levels.new ≡ levels.old)) }
        ensures err { IfErr result (λ why. BreaksNext (progress_of self.old levels.old) why) }
    {
        if let Some(size) = self.begin_by_table(entries, levels) {
            return Ok(Some(size));
        }
        if !self.next_step(entries, levels)? {
            return Ok(None);
        }
        Ok(Some(self.last_size(levels)))
    }

    /// Takes all further steps up to the block's end.
    #[inline(always)]
    pub fn rest(&mut self, entries: &[Entry], levels: &mut [i16; 64]) -> Result<(), BlockBreak>
        requires entries { AreEntries entries.now }
        ensures ok { OnOk result (Finishes
            (progress_of self.old levels.old) levels.new self.new.reader) }
        ensures err { IfErr result (λ why. BreaksLater (progress_of self.old levels.old) why) }
    {
        loop {
            self.steps_by_table(entries, levels);
            if self.place == 64 {
                return Ok(());
            }
            if !self.next_step(entries, levels)? {
                return Ok(());
            }
        }
    }
}
