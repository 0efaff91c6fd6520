//! Reading the first level of a block: `abs_dc_coeff_diff` and `sign_dc_coeff_diff`.

ghost use Rattle.std.specs.Prelude.{◌≡◌, ◌++◌, IfSome, IfOk, IfErr};
ghost use Rattle.apv_base.specs.model.Quant.{IsLevel};
ghost use Rattle.apv_base.specs.model.Block.{bits_of, dc_elements};
ghost use Rattle.apv_bits.specs.Reader.{Takes};
ghost use Rattle.apv_scan.specs.Reading.{DcBreaks};

use crate::block_break::BlockBreak;
use crate::context::Context;
use crate::elements::values::{dc_parameter, level_from, read_value};
use apv_bits::{BitReader, Window};
use apv_hv::decode_h;

/// Reads the first level of a block, a syntax element at a time.
fn read_dc_elements(reader: &mut BitReader<'_>, context: Context) -> Result<i16, BlockBreak>
    ensures ok { IfOk result (λ level. IsLevel level
        × Takes reader.old reader.new (bits_of (dc_elements context level))) }
    ensures err { IfErr result (λ why. DcBreaks context reader.old.left why) }
{
    // abs_dc_coeff_diff
    let size = read_value(reader, dc_parameter(context.diff), 65535)?;
    if size == 0 {
        return Ok(context.dc as i16);
    }
    // sign_dc_coeff_diff
    let Ok(sign) = reader.read(1) else {
        return Err(BlockBreak::Ends);
    };
    let Some(level) = level_from(context.dc, size, sign) else {
        return Err(BlockBreak::Level);
    };
    Ok(level)
}

/// The same, of the last bytes or where the first level is none.
#[cold]
#[inline(never)]
fn read_dc_slowly<'a>(
    mut reader: BitReader<'a>,
    context: Context,
) -> (Result<i16, BlockBreak>, BitReader<'a>)
    ensures ok { IfOk result.0 (λ level. IsLevel level
        × Takes reader.entry result.1 (bits_of (dc_elements context level))) }
    ensures err { IfErr result.0 (λ why. DcBreaks context reader.entry.left why) }
{
    let level = read_dc_elements(&mut reader, context);
    (level, reader)
}

/// Takes the first level from the start of a window, where it is whole there.
#[inline]
fn take_dc(window: &mut Window, context: Context) -> Option<i16>
    ensures { IfSome result (λ level. IsLevel level
        × (window.old ≡ bits_of (dc_elements context level) ++ window.new)) }
{
    // abs_dc_coeff_diff
    let size = decode_h(window, dc_parameter(context.diff))?;
    if size == 0 {
        return Some(context.dc as i16);
    }
    if size > 65535 {
        return None;
    }
    // sign_dc_coeff_diff
    let Ok(sign) = window.read(1) else {
        return None;
    };
    level_from(context.dc, size, sign)
}

/// Reads the first level of a block, by its difference from `PrevDC` (`dc_coeff_coding()`).
#[inline]
pub fn read_dc(reader: &mut BitReader<'_>, context: Context) -> Result<i16, BlockBreak>
    ensures ok { IfOk result (λ level. IsLevel level
        × Takes reader.old reader.new (bits_of (dc_elements context level))) }
    ensures err { IfErr result (λ why. DcBreaks context reader.old.left why) }
{
    if let Some(mut window) = reader.window() {
        if let Some(level) = take_dc(&mut window, context) {
            reader.skip(window.taken());
            return Ok(level);
        }
    }
    let (level, after) = read_dc_slowly(reader.ahead(), context);
    *reader = after;
    level
}
