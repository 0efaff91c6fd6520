//! A table of the steps that a few bits begin with. A step is a run and the level after it.

ghost use Rattle.std.specs.Prelude.{◌≡◌, ◌+◌, ◌<◌, ◌≤◌, length, take};
ghost use Rattle.apv_base.specs.model.Bits.{bin};
ghost use Rattle.apv_scan.specs.Table.{context_number, IsMove, IsEntry, AreEntries};

use crate::elements::run_level::{RunLevel, take_run_level};
use crate::elements::values::{level_parameter, run_parameter};
use apv_bits::{BitReader, Window};
use std::alloc::{AllocError, Global};

/// How many bits steps are looked up by.
const BITS: u32 = 11;

/// How many prefixes of n bits there are.
const PREFIXES: usize = 2048;

/// How many contexts there are: a run's parameter, 0 to 2, and a level's, 0 to 4.
const CONTEXTS: usize = 15;

/// What one step does, or two.
#[derive(Clone, Copy, Debug)]
pub struct Move {
    /// The number of bits.
    pub length: u8,
    /// By how many places: those of the zeros and of the level of each step. Above 64 for no step.
    pub advance: u8,
    /// The number of the context after it.
    pub next: u8,
    /// The last level.
    pub level: i8,
}

/// The steps that a prefix begins with, under a context.
#[derive(Clone, Copy, Debug)]
pub struct Entry {
    /// The first step.
    pub first: Move,
    /// The first two steps, or the first where the second isn't whole.
    pub all: Move,
}

/// No whole step.
const NONE: Move = Move {
    length: 0,
    advance: 127,
    next: 0,
    level: 0,
};

/// The number of the context after a run and a level of a size.
#[inline]
pub fn context_after(run: u32, size: u32) -> u32
    ensures number { result ≡ context_number run size }
    ensures few { result < 15 }
{
    5 * run_parameter(run) + level_parameter(size)
}

/// The step that the first bits of a number of 64 begin with, under a context.
fn move_of(context: u32, bits: u64, most: u32) -> Move
    requires context { context < 15 }
    requires most { most ≤ 11 }
    ensures { IsMove context (take most (bin 64 bits)) result }
{
    let bytes = bits.to_be_bytes();
    let reader = BitReader::new(&bytes);
    let Some(mut window) = reader.window() else {
        return NONE;
    };
    let (run_k, level_k) = (context / 5, context % 5);
    let Some(RunLevel::Level { run, size, level }) = take_run_level(&mut window, run_k, level_k, 64)
    else {
        return NONE;
    };
    let length = window.taken();
    let Ok(level) = i8::try_from(level) else {
        return NONE;
    };
    if length > most {
        return NONE;
    }
    Move {
        length: length as u8,
        advance: run as u8 + 1,
        next: context_after(run, size) as u8,
        level,
    }
}

/// The move of two steps.
fn both(first: Move, second: Move) -> Move
    requires lengths { first.length + second.length < 256 }
    requires advances { first.advance + second.advance < 256 }
    ensures length { result.length ≡ first.length + second.length }
    ensures advance { result.advance ≡ first.advance + second.advance }
    ensures next { result.next ≡ second.next }
    ensures level { result.level ≡ second.level }
{
    Move {
        length: first.length + second.length,
        advance: first.advance + second.advance,
        ..second
    }
}

/// The entry of a prefix under a context.
fn entry_of(context: u32, prefix: u32) -> Entry
    requires context { context < 15 }
    requires prefix { prefix < 2048 }
    ensures { IsEntry context (bin 11 prefix) result }
{
    let bits = u64::from(prefix) << (64 - BITS);
    let first = move_of(context, bits, BITS);
    if first.advance > 64 {
        return Entry { first, all: first };
    }
    let length = u32::from(first.length);
    let second = move_of(u32::from(first.next), bits << length, BITS - length);
    if second.advance > 64 {
        return Entry { first, all: first };
    }
    Entry {
        first,
        all: both(first, second),
    }
}

/// A table by which `read_block_with` reads many blocks, by several threads at once too: the steps
/// that each prefix of 11 bits begins with, under each context. A step is a run and the level after
/// it; a context, the parameters of their code words.
#[derive(Drop)]
pub struct StepTable {
    entries: Vec<Entry>,
    ghost right: { AreEntries entries.items },
}

impl StepTable {
    /// Makes the table, of 245,760 bytes. Fails where it is out of memory.
    pub fn new(alloc: Global) -> Result<StepTable, AllocError> {
        let count = CONTEXTS * PREFIXES;
        let mut entries = Vec::with_capacity(alloc, count)?;
        for index in 0..count {
            let entry = entry_of((index / PREFIXES) as u32, (index % PREFIXES) as u32);
            entries.push(entry)?;
        }
        Ok(StepTable { entries })
    }

    /// The entries.
    #[inline]
    pub(crate) fn entries(&self) -> &[Entry]
        ensures { AreEntries result.now }
    {
        self.entries.as_slice()
    }
}

/// The entry of the bits that a window begins with, of which there are at least eleven.
#[inline(always)]
pub fn look_up(entries: &[Entry], context: usize, window: &Window) -> Entry
    requires entries { AreEntries entries.now }
    requires context { context < 15 }
    requires ahead { 11 ≤ length window.now }
    ensures { IsEntry context (take 11 window.now) result }
{
    let prefix = (window.bits() >> (64 - BITS)) as usize;
    entries[PREFIXES * context + prefix]
}
