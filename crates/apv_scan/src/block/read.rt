//! Reading a block, by a table of steps where there is one.

ghost use Rattle.std.specs.Prelude.{◌≡◌, ℕ, pos, ◌<◌, ◌≤◌, ◌==◌, if◌then◌else◌};
ghost use Rattle.apv_base.specs.model.Scan.{level_at};
ghost use Rattle.apv_base.specs.model.Component.{IsBlock};
ghost use Rattle.apv_scan.specs.BlockBreak.{rule_of};
ghost use Rattle.apv_scan.specs.Reading.{ReadsBlock};
ghost use Rattle.apv_scan.specs.Table.{AreEntries};
ghost use Rattle.apv_scan.specs.Walk.{IsReadyForAc, ReadsAcLevels};

use crate::block::levels::is_block;
use crate::block_break::BlockBreak;
use crate::context::Context;
use crate::elements::dc::read_dc;
use crate::elements::run_level::{RunLevel, read_run_level};
use crate::elements::values::{level_parameter, run_parameter};
use crate::scan::place_of;
use crate::tables::cursor::Cursor;
use crate::tables::step_table::{Entry, StepTable};
use apv_bits::BitReader;

/// The size of the first level that isn't 0, where one was found, or another.
#[inline]
fn found_or(found: u32, otherwise: u32) -> u32
    ensures { result ≡ (if found == 0 then otherwise else found) }
{
    if found == 0 { otherwise } else { found }
}

/// Reads the levels after the first (`ac_coeff_coding()`), which are 0 before, and returns the
/// `Prev1stAcLevel` that they leave: the size of the first of them that isn't 0, or the one of the
/// blocks before.
#[inline]
fn read_ac(
    reader: &mut BitReader<'_>,
    first: u32,
    levels: &mut [i16; 64],
) -> Result<u32, BlockBreak>
    requires { IsReadyForAc first levels.old }
    ensures { ReadsAcLevels first reader.old levels.old result levels.new reader.new }
{
    let mut place = 1;
    let mut run_before = 0;
    let mut level_before = first;
    let mut found = 0;
    while place < 64 {
        let run_k = run_parameter(run_before);
        let level_k = level_parameter(level_before);
        let RunLevel::Level { run, size, level } = read_run_level(
            reader,
            run_k,
            level_k,
            64 - place,
        )?
        else {
            break;
        };
        place += run;
        levels[place_of(place)] = level;
        place += 1;
        run_before = run;
        level_before = size;
        found = found_or(found, size);
    }
    Ok(found_or(found, first))
}

/// The same by the entries of a table of steps.
#[inline(always)]
fn read_ac_with(
    entries: &[Entry],
    reader: &mut BitReader<'_>,
    first: u32,
    levels: &mut [i16; 64],
) -> Result<u32, BlockBreak>
    requires entries { AreEntries entries.now }
    requires ready { IsReadyForAc first levels.old }
    ensures { ReadsAcLevels first reader.old levels.old result levels.new reader.new }
{
    let mut cursor = Cursor::new(reader.ahead(), first);
    let Some(size) = cursor.begin(entries, levels)? else {
        *reader = cursor.reader();
        return Ok(first);
    };
    cursor.rest(entries, levels)?;
    *reader = cursor.reader();
    Ok(size)
}

/// The same, by a table of steps where there is one.
#[inline(always)]
fn read_ac_by(
    table: Option<&StepTable>,
    reader: &mut BitReader<'_>,
    first: u32,
    levels: &mut [i16; 64],
) -> Result<u32, BlockBreak>
    requires { IsReadyForAc first levels.old }
    ensures { ReadsAcLevels first reader.old levels.old result levels.new reader.new }
{
    match table {
        Some(table) => read_ac_with(table.entries(), reader, first, levels),
        None => read_ac(reader, first, levels),
    }
}

/// Sets the first level, and all others to 0.
#[inline]
fn clear(levels: &mut [i16; 64], dc: i16)
    ensures first { level_at levels.new 0 ≡ dc }
    ensures zeros { (q : ℕ) → 0 < q → q < 64 → level_at levels.new q ≡ pos 0 }
{
    *levels = [0; 64];
    levels[place_of(0)] = dc;
}

/// Reads one block, by a table of steps where there is one.
#[inline(always)]
fn read_levels(
    table: Option<&StepTable>,
    reader: &mut BitReader<'_>,
    context: &mut Context,
    levels: &mut [i16; 64],
) -> Result<(), BlockBreak>
    ensures { ReadsBlock rule_of context.old reader.old result
        levels.new context.new reader.new }
{
    let before = *context;
    let mut ahead = reader.ahead();
    let dc = read_dc(&mut ahead, before)?;
    clear(levels, dc);
    let first = read_ac_by(table, &mut ahead, before.first, levels)?;
    *reader = ahead;
    *context = before.next(levels, first);
    Ok(())
}

/// Reads one block (`coefficient_coding()`): its levels in raster order, whatever the array held
/// before. Moves the context.
///
/// The error is the first element that breaks: V27, the data end inside a code word or before a
/// sign; V28, the bits are no prefix of a code word of a permitted value; V29, a `coeff_zero_run`
/// is above `64 - p` at scan place p; V30, a level is outside -32768 to 32767. After one, nothing
/// more is said of the reader, the levels and the context than that 64 levels of 16 bits are a
/// block.
pub fn read_block(
    reader: &mut BitReader<'_>,
    context: &mut Context,
    levels: &mut [i16; 64],
) -> Result<(), BlockBreak>
    ensures block { IsBlock levels.new }
    ensures read { ReadsBlock rule_of context.old reader.old result
        levels.new context.new reader.new }
{
    let outcome = read_levels(None, reader, context, levels);
    is_block(levels);
    outcome
}

/// Reads one block as `read_block` does, with the same errors, in less time, by a table of steps.
pub fn read_block_with(
    table: &StepTable,
    reader: &mut BitReader<'_>,
    context: &mut Context,
    levels: &mut [i16; 64],
) -> Result<(), BlockBreak>
    ensures block { IsBlock levels.new }
    ensures read { ReadsBlock rule_of context.old reader.old result
        levels.new context.new reader.new }
{
    let outcome = read_levels(Some(table), reader, context, levels);
    is_block(levels);
    outcome
}
