//! The syntax elements of a block: values in h(v) with their parameters, and levels by their signs.

ghost use Rattle.std.specs.Prelude.{◌≡◌, pos, ◌+ℤ◌, ◌-ℤ◌, ◌^◌, ◌<◌, ◌≤◌, ◌/◌, min, SomeIff, IfOk, IfErr};
ghost use Rattle.apv_base.specs.model.CodeWord.{code_word};
ghost use Rattle.apv_base.specs.model.Quant.{IsLevel};
ghost use Rattle.apv_base.specs.model.Block.{coded_value, signed, BreaksAt};
ghost use Rattle.apv_bits.specs.Reader.{Takes};
ghost use Rattle.apv_scan.specs.BlockBreak.{rule_of};

use crate::block_break::BlockBreak;
use apv_bits::BitReader;
use apv_hv::{Read, read_h};

/// The parameter of the code word of a first level's difference (`abs_dc_coeff_diff`), after the
/// difference before it (`PrevDcDiff`).
#[inline]
pub fn dc_parameter(diff: u32) -> u32
    ensures parameter { result ≡ min 5 (diff / 2) }
    ensures few { result ≤ 5 }
{
    u32::min(5, diff >> 1)
}

/// The parameter of a run's code word (`coeff_zero_run`), after the run before it.
#[inline]
pub fn run_parameter(run_before: u32) -> u32
    ensures parameter { result ≡ min 2 (run_before / 4) }
    ensures few { result ≤ 2 }
{
    u32::min(2, run_before >> 2)
}

/// The parameter of a level's code word (`abs_ac_coeff_minus1`), after the size of the level before
/// it, which is `Prev1stAcLevel` for a block's first.
#[inline]
pub fn level_parameter(level_before: u32) -> u32
    ensures parameter { result ≡ min 4 (level_before / 4) }
    ensures few { result ≤ 4 }
{
    u32::min(4, level_before >> 2)
}

/// Reads a value in h(v).
pub fn read_value(reader: &mut BitReader<'_>, k: u32, limit: u32) -> Result<u32, BlockBreak>
    requires k { k ≤ 5 }
    requires limit { limit < 2 ^ 16 }
    ensures value { IfOk result (λ v. (v ≤ limit) × Takes reader.old reader.new (code_word k v)) }
    ensures err { IfErr result (λ why.
        BreaksAt (coded_value k limit limit 0) (rule_of why) reader.old.left) }
{
    match read_h(reader, k, limit) {
        Read::Value(value) => Ok(value),
        Read::Ends => Err(BlockBreak::Ends),
        Read::Over => Err(BlockBreak::Over),
    }
}

/// The level that is so far from another, on the side that the sign says, where it is permitted.
#[inline]
pub fn level_from(dc: i32, size: u32, sign: u32) -> Option<i16>
    requires dc { IsLevel dc }
    requires size { size ≤ 65535 }
    requires sign { sign < 2 }
    ensures { SomeIff result (IsLevel (signed (dc +ℤ pos size) (dc -ℤ pos size) sign))
        (signed (dc +ℤ pos size) (dc -ℤ pos size) sign) }
{
    let level = if sign == 0 {
        dc + size as i32
    } else {
        dc - size as i32
    };
    i16::try_from(level).ok()
}
