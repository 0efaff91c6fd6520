//! The code words of runs and of small levels, in tables.

ghost use Rattle.std.specs.Prelude.{◌≡◌, ℕ, ◌-◌, ◌^◌, ◌/◌, ◌<◌, ◌≤◌, ◌++◌, ◌∷◌, [], List, length};
ghost use Rattle.std.specs.Prelude.{min, unsigned_abs, IfOk, IfSome};
ghost use Rattle.apv_base.specs.model.Bits.{bin};
ghost use Rattle.apv_base.specs.model.CodeWord.{code_word};
ghost use Rattle.apv_base.specs.model.Scan.{level_at};
ghost use Rattle.apv_scan.specs.CodeWords.{level_in, signed_bits, HoldsWord, AreRunWords, AreLevelWords};
ghost use Rattle.apv_scan.specs.CodeWords.{HasLevel, IsRunWord, IsLevelWord};

use crate::elements::values::{level_parameter, run_parameter};
use crate::elements::words::{encode_level, sign_word};
use crate::scan::place_of;
use apv_bits::Word;
use apv_hv::encode_h;
use std::alloc::{AllocError, Global};

/// The code word of a run, or of a level with its sign, of at most 16 bits, and the parameter of
/// the next code word of its kind.
#[derive(Clone, Copy)]
struct CodeWord {
    bits: u16,
    len: u8,
    next: u8,
}

impl CodeWord {
    /// These bits, with that parameter.
    fn of(word: Word, next: u32) -> CodeWord
        requires few { length word ≤ 16 }
        requires next { next ≤ 4 }
        ensures { HoldsWord result word next }
    {
        CodeWord {
            bits: word.bits() as u16,
            len: word.bit_len() as u8,
            next: next as u8,
        }
    }

    /// The code word of a run, with its parameter.
    fn of_run(k: u32, run: u32) -> CodeWord
        requires k { k ≤ 2 }
        requires run { run < 64 }
        ensures { HoldsWord result (code_word k run) (min 2 (run / 4)) }
    {
        CodeWord::of(encode_h(k, run), run_parameter(run))
    }

    /// The code word of the level of a slot, with its parameter and the level's sign.
    fn of_level(k: u32, slot: u32) -> CodeWord
        requires k { k ≤ 4 }
        requires slot { slot < 128 }
        ensures { HoldsWord result (signed_bits k (level_in slot))
            (min 4 (unsigned_abs (level_in slot) / 4)) }
    {
        let level = slot as i32 - 64;
        let size = level.unsigned_abs();
        let sign = u32::from(level < 0);
        let word = encode_h(k, size.saturating_sub(1)).join(sign_word(sign));
        CodeWord::of(word, level_parameter(size))
    }

    /// The bits.
    #[inline]
    fn word(&self) -> Word
        requires few { self.now.len ≤ 16 }
        requires small { self.now.bits < 2 ^ self.now.len }
        ensures bits { result ≡ bin self.now.len self.now.bits }
        ensures len { length result ≡ self.now.len }
    {
        Word::new(u64::from(self.bits), u32::from(self.len))
    }
}

/// The code words of the 64 runs, each with the parameters 0 to 2 and once more with 2.
fn run_words(alloc: Global) -> Result<Vec<CodeWord>, AllocError>
    ensures { IfOk result (λ words. AreRunWords words.items) }
{
    let mut words = Vec::new(alloc);
    for index in 0..256 {
        words.push(CodeWord::of_run(u32::min(2, index % 4), index / 4))?;
    }
    Ok(words)
}

/// The code words of the 128 slots' levels, each with the parameters 0 to 4 and three times more
/// with 4.
fn level_words(alloc: Global) -> Result<Vec<CodeWord>, AllocError>
    ensures { IfOk result (λ words. AreLevelWords words.items) }
{
    let mut words = Vec::new(alloc);
    for index in 0..1024 {
        words.push(CodeWord::of_level(u32::min(4, index % 8), index / 8))?;
    }
    Ok(words)
}

/// The slot of the level at a scan place: -64 to 63 have slots.
#[inline]
fn slot_at(levels: &[i16; 64], place: u32) -> Option<u32>
    requires { place < 64 }
    ensures { IfSome result (λ slot. (slot < 128) × (level_in slot ≡ level_at levels.now place)) }
{
    let level = i32::from(levels[place_of(place)]);
    if level < -64 || level > 63 {
        return None;
    }
    Some((level + 64) as u32)
}

/// The code word of a level that has no slot and its sign, and the parameter of the next level's.
#[cold]
#[inline(never)]
fn large_level(k: u32, levels: &[i16; 64], place: u32) -> (Word, u32)
    requires { HasLevel k levels.now place }
    ensures { IsLevelWord k (level_at levels.now place) result.0 result.1 }
{
    encode_level(k, levels, place)
}

/// Code words of runs (`coeff_zero_run`), and of the levels -64 to 63 with their signs
/// (`abs_ac_coeff_minus1` and `sign_ac_coeff`), to be made once and lent to `put_block_with` and
/// `len_block_with`, by any number of threads.
#[derive(Drop)]
pub struct CodeWords {
    runs: Vec<CodeWord>,
    levels: Vec<CodeWord>,
    ghost runs_are: { AreRunWords runs.items },
    ghost levels_are: { AreLevelWords levels.items },
}

impl CodeWords {
    /// Makes them. Fails where it is out of memory.
    pub fn new(alloc: Global) -> Result<CodeWords, AllocError> {
        Ok(CodeWords {
            runs: run_words(alloc)?,
            levels: level_words(alloc)?,
        })
    }

    /// The tables, lent.
    #[inline]
    pub(crate) fn lent(&self) -> Lent<'_> {
        Lent {
            runs: self.runs.as_slice(),
            levels: self.levels.as_slice(),
        }
    }
}

/// The tables of code words, lent.
#[derive(Clone, Copy)]
pub(crate) struct Lent<'a> {
    runs: &'a [CodeWord],
    levels: &'a [CodeWord],
    ghost runs_are: { AreRunWords runs.now },
    ghost levels_are: { AreLevelWords levels.now },
}

impl<'a> Lent<'a> {
    /// The code word of a run, and the parameter of the next run.
    #[inline]
    pub(crate) fn run(self, k: u32, run: u32) -> (Word, u32)
        requires k { k ≤ 2 }
        requires run { run < 64 }
        ensures { IsRunWord k run result.0 result.1 }
    {
        let entry = &self.runs[(4 * run + k) as usize];
        (entry.word(), u32::from(entry.next))
    }

    /// The code word of the level at a scan place with its sign, and the next level's parameter.
    #[inline]
    pub(crate) fn level(self, k: u32, levels: &[i16; 64], place: u32) -> (Word, u32)
        requires { HasLevel k levels.now place }
        ensures { IsLevelWord k (level_at levels.now place) result.0 result.1 }
    {
        let Some(slot) = slot_at(levels, place) else {
            return large_level(k, levels, place);
        };
        let entry = &self.levels[(8 * slot + k) as usize];
        (entry.word(), u32::from(entry.next))
    }
}
