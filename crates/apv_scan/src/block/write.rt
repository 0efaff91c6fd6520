//! Writing a block, by tables of code words where there are some.

ghost use Rattle.std.specs.Prelude.{◌≡◌, ℕ, ◌*◌, ◌<◌, ◌≤◌, ◌++◌, List, length};
ghost use Rattle.apv_base.specs.model.Scan.{level_at};
ghost use Rattle.apv_base.specs.model.Block.{bits_of, ac_from, places, first_size};
ghost use Rattle.apv_bits.specs.Writer.{bits_after, slice_name, Appends};
ghost use Rattle.apv_scan.specs.CodeWords.{HasLevel, IsRunWord, IsLevelWord};
ghost use Rattle.apv_scan.specs.Writing.{end_bits, HasRoomForBlock, AppendsBlock, CountsBlock};

use crate::block::places::Places;
use crate::context::Context;
use crate::elements::values::{level_parameter, run_parameter};
use crate::elements::words::{dc_word, encode_level, size_and_sign};
use crate::tables::code_words::{CodeWords, Lent};
use apv_bits::{BitWriter, Word};
use apv_hv::encode_h;

/// The code word of a run (`coeff_zero_run`), from a table where there is one, and the parameter of
/// the next run's.
#[inline(always)]
fn word_of_run(words: Option<Lent<'_>>, k: u32, run: u32) -> (Word, u32)
    requires k { k ≤ 2 }
    requires run { run < 64 }
    ensures { IsRunWord k run result.0 result.1 }
{
    match words {
        Some(words) => words.run(k, run),
        None => (encode_h(k, run), run_parameter(run)),
    }
}

/// The code word of the level at a scan place and its sign (`abs_ac_coeff_minus1` and
/// `sign_ac_coeff`), from a table where there is one, and the parameter of the next level's.
#[inline(always)]
fn word_of_level(words: Option<Lent<'_>>, k: u32, levels: &[i16; 64], place: u32) -> (Word, u32)
    requires { HasLevel k levels.now place }
    ensures { IsLevelWord k (level_at levels.now place) result.0 result.1 }
{
    match words {
        Some(words) => words.level(k, levels, place),
        None => encode_level(k, levels, place),
    }
}

/// The bits of a run up to the end of the block (`coeff_zero_run`), where the last level isn't at
/// its last place.
#[inline(always)]
fn end_word(words: Option<Lent<'_>>, run_k: u32, last: u32) -> Word
    requires k { run_k ≤ 2 }
    requires last { last < 64 }
    ensures bits { result ≡ end_bits (4 * run_k) last }
    ensures few { length result ≤ 13 }
{
    if last == 63 {
        Word::new(0, 0)
    } else {
        word_of_run(words, run_k, 63 - last).0
    }
}

/// Joins a word to one that waits, or appends the one that waits where the two are too long
/// together.
#[inline]
fn append(writer: &mut BitWriter<'_>, waiting: Word, word: Word) -> Word
    requires { length waiting ≤ length (bits_after writer.old) }
    ensures appends { (w : List ℕ) × Appends writer.old writer.new w
        × (w ++ result ≡ waiting ++ word) }
    ensures slice { slice_name writer.new ≡ slice_name writer.old }
{
    if waiting.bit_len() + word.bit_len() <= 57 {
        return waiting.join(word);
    }
    writer.put_word(waiting);
    word
}

/// The size of the first of these levels, or another where there is none (`Prev1stAcLevel`).
#[inline]
fn first_of(levels: &[i16; 64], level_places: &Places, otherwise: u32) -> u32
    requires places { level_places.now ≡ places (level_at levels.now) 63 1 }
    requires otherwise { otherwise ≤ 32768 }
    ensures size { result ≡ first_size (level_at levels.now) level_places.now otherwise }
    ensures small { result ≤ 32768 }
{
    match level_places.first() {
        Some(place) => size_and_sign(levels, place).0,
        None => otherwise,
    }
}

/// Appends a word and the levels at these places, which are all after the first that aren't 0
/// (`ac_coeff_coding()`).
#[inline(always)]
fn put_ac(
    words: Option<Lent<'_>>,
    writer: &mut BitWriter<'_>,
    word: Word,
    first: u32,
    levels: &[i16; 64],
    mut level_places: Places,
)
    requires first { first ≤ 32768 }
    requires places { level_places ≡ places (level_at levels.now) 63 1 }
    requires room { length (word ++ bits_of (ac_from (level_at levels.now) 0 0 first 1))
        ≤ length (bits_after writer.old) }
    ensures appends { Appends writer.old writer.new
        (word ++ bits_of (ac_from (level_at levels.now) 0 0 first 1)) }
    ensures slice { slice_name writer.new ≡ slice_name writer.old }
{
    let mut waiting = word;
    let mut last = 0;
    let mut run_k = 0;
    let mut level_k = level_parameter(first);
    while let Some(place) = level_places.take_first() {
        let (run_word, next_run_k) = word_of_run(words, run_k, place - last - 1);
        let (level_word, next_level_k) = word_of_level(words, level_k, levels, place);
        waiting = append(writer, waiting, run_word.join(level_word));
        last = place;
        run_k = next_run_k;
        level_k = next_level_k;
    }
    waiting = append(writer, waiting, end_word(words, run_k, last));
    writer.put_word(waiting);
}

/// The number of bits of the levels at these places, which are all after the first that aren't 0.
#[inline(always)]
fn len_ac(words: Option<Lent<'_>>, first: u32, levels: &[i16; 64], mut level_places: Places) -> u32
    requires first { first ≤ 32768 }
    requires places { level_places ≡ places (level_at levels.now) 63 1 }
    ensures bits { result ≡ length (bits_of (ac_from (level_at levels.now) 0 0 first 1)) }
    ensures few { result ≤ 2974 }
{
    let mut bits = 0;
    let mut last = 0;
    let mut run_k = 0;
    let mut level_k = level_parameter(first);
    while let Some(place) = level_places.take_first() {
        let (run_word, next_run_k) = word_of_run(words, run_k, place - last - 1);
        let (level_word, next_level_k) = word_of_level(words, level_k, levels, place);
        bits += run_word.bit_len() + level_word.bit_len();
        last = place;
        run_k = next_run_k;
        level_k = next_level_k;
    }
    bits + end_word(words, run_k, last).bit_len()
}

/// Appends one block, by tables of code words where there are some.
#[inline(always)]
fn put_block_by(
    words: Option<Lent<'_>>,
    writer: &mut BitWriter<'_>,
    context: &mut Context,
    levels: &[i16; 64],
)
    requires { HasRoomForBlock writer.old context.old levels.now }
    ensures { AppendsBlock context.old writer.old levels.now context.new writer.new }
{
    let before = *context;
    let places = Places::of(levels);
    *context = before.next(levels, first_of(levels, &places, before.first));
    let dc = dc_word(before, levels);
    put_ac(words, writer, dc, before.first, levels, places);
}

/// The number of bits of one block, by tables of code words where there are some.
#[inline(always)]
fn len_block_by(words: Option<Lent<'_>>, context: &mut Context, levels: &[i16; 64]) -> u32
    ensures { CountsBlock context.old levels.now result context.new }
{
    let before = *context;
    let places = Places::of(levels);
    *context = before.next(levels, first_of(levels, &places, before.first));
    dc_word(before, levels).bit_len() + len_ac(words, before.first, levels, places)
}

/// Appends one block (`coefficient_coding()`), whose levels are in raster order, and moves the
/// context. The bits of the slice after stay.
pub fn put_block(writer: &mut BitWriter<'_>, context: &mut Context, levels: &[i16; 64])
    requires { HasRoomForBlock writer.old context.old levels.now }
    ensures { AppendsBlock context.old writer.old levels.now context.new writer.new }
{
    put_block_by(None, writer, context, levels);
}

/// Appends one block as `put_block` does, by code words that were made before.
pub fn put_block_with(
    words: &CodeWords,
    writer: &mut BitWriter<'_>,
    context: &mut Context,
    levels: &[i16; 64],
)
    requires { HasRoomForBlock writer.old context.old levels.now }
    ensures { AppendsBlock context.old writer.old levels.now context.new writer.new }
{
    put_block_by(Some(words.lent()), writer, context, levels);
}

/// The number of bits of one block (`coefficient_coding()`), whose levels are in raster order: at
/// most 3,008, which are 376 bytes. Moves the context.
pub fn len_block(context: &mut Context, levels: &[i16; 64]) -> u32
    ensures { CountsBlock context.old levels.now result context.new }
{
    len_block_by(None, context, levels)
}

/// The number of bits of one block, as `len_block` counts them, by code words that were made
/// before.
pub fn len_block_with(words: &CodeWords, context: &mut Context, levels: &[i16; 64]) -> u32
    ensures { CountsBlock context.old levels.now result context.new }
{
    len_block_by(Some(words.lent()), context, levels)
}
