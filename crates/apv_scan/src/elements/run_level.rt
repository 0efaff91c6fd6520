//! Reading a run of zeros and the level after it: `coeff_zero_run`, `abs_ac_coeff_minus1` and
//! `sign_ac_coeff`.

ghost use Rattle.std.specs.Prelude.{◌≡◌, unsigned_abs, ◌<◌, ◌≤◌, ◌++◌, IfSome};
ghost use Rattle.apv_base.specs.model.Quant.{IsLevel};
ghost use Rattle.apv_base.specs.model.Block.{sign_of};
ghost use Rattle.apv_scan.specs.Reading.{AreRunLevelParameters, IsRunLevel, run_level_bits, ReadsRunLevel};

use crate::block_break::BlockBreak;
use crate::elements::values::{level_from, read_value};
use apv_bits::{BitReader, Window};
use apv_hv::decode_h;

/// A run of zeros up to the end of the block, or a run and the level after it with its size.
#[derive(Clone, Copy)]
pub enum RunLevel {
    End,
    Level { run: u32, size: u32, level: i16 },
}

/// Reads a run and the level after it, a syntax element at a time.
fn read_run_level_elements(
    reader: &mut BitReader<'_>,
    run_k: u32,
    level_k: u32,
    room: u32,
) -> Result<RunLevel, BlockBreak>
    requires { AreRunLevelParameters run_k level_k room }
    ensures { ReadsRunLevel run_k level_k room reader.old result reader.new }
{
    // coeff_zero_run
    let run = read_value(reader, run_k, 63)?;
    if run > room {
        return Err(BlockBreak::Run);
    }
    if run == room {
        return Ok(RunLevel::End);
    }
    // abs_ac_coeff_minus1
    let size = read_value(reader, level_k, 32767)? + 1;
    // sign_ac_coeff
    let Ok(sign) = reader.read(1) else {
        return Err(BlockBreak::Ends);
    };
    let Some(level) = level_from(0, size, sign) else {
        return Err(BlockBreak::Level);
    };
    Ok(RunLevel::Level { run, size, level })
}

/// The same, of the last bytes or where the run and the level are none.
#[cold]
#[inline(never)]
fn read_run_level_slowly<'a>(
    mut reader: BitReader<'a>,
    run_k: u32,
    level_k: u32,
    room: u32,
) -> (Result<RunLevel, BlockBreak>, BitReader<'a>)
    requires { AreRunLevelParameters run_k level_k room }
    ensures { ReadsRunLevel run_k level_k room reader.entry result.0 result.1 }
{
    let step = read_run_level_elements(&mut reader, run_k, level_k, room);
    (step, reader)
}

/// The level of a size and a sign.
#[inline]
fn signed_level(size: u32, sign: u32) -> i16
    requires above { 0 < size }
    requires below { size < 32768 }
    requires sign { sign < 2 }
    ensures size { unsigned_abs result ≡ size }
    ensures sign { sign_of result ≡ sign }
    ensures level { IsLevel result }
{
    if sign == 0 {
        size as i16
    } else {
        -(size as i16)
    }
}

/// Takes a run and the level after it from the start of a window, where they are whole there.
#[inline]
pub fn take_run_level(window: &mut Window, run_k: u32, level_k: u32, room: u32) -> Option<RunLevel>
    requires run_k { run_k ≤ 2 }
    requires level_k { level_k ≤ 4 }
    ensures { IfSome result (λ step. IsRunLevel room step
        × (window.old ≡ run_level_bits run_k level_k room step ++ window.new)) }
{
    // coeff_zero_run
    let run = decode_h(window, run_k)?;
    if run >= room {
        return if run == room {
            Some(RunLevel::End)
        } else {
            None
        };
    }
    // abs_ac_coeff_minus1
    let number = decode_h(window, level_k)?;
    if number >= 32767 {
        return None;
    }
    // sign_ac_coeff
    let Ok(sign) = window.read(1) else {
        return None;
    };
    let size = number + 1;
    Some(RunLevel::Level {
        run,
        size,
        level: signed_level(size, sign),
    })
}

/// Reads a run and the level after it, where room places are left: `coeff_zero_run` with the
/// parameter run_k, `abs_ac_coeff_minus1` with the parameter level_k, and `sign_ac_coeff`.
#[inline]
pub fn read_run_level(
    reader: &mut BitReader<'_>,
    run_k: u32,
    level_k: u32,
    room: u32,
) -> Result<RunLevel, BlockBreak>
    requires { AreRunLevelParameters run_k level_k room }
    ensures { ReadsRunLevel run_k level_k room reader.old result reader.new }
{
    if let Some(mut window) = reader.window() {
        if let Some(step) = take_run_level(&mut window, run_k, level_k, room) {
            reader.skip(window.taken());
            return Ok(step);
        }
    }
    let (step, after) = read_run_level_slowly(reader.ahead(), run_k, level_k, room);
    *reader = after;
    step
}
