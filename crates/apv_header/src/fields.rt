//! Single fields of a header.
ghost use Rattle.std.specs.Prelude.{◌≤◌, IfOk, OnOk, IfErr};
ghost use Rattle.apv_base.specs.model.Header.{flag};
ghost use Rattle.apv_header.specs.Fields.{ReadsNumber, IsCut, HasReserved, ReservedBreaks};

use apv_base::{HeadEnd, Rule};
use apv_bits::BitReader;

/// A field of n bits, at most 32 (`u(n)`). V8 where fewer are left.
pub fn read_field(reader: &mut BitReader<'_>, n: u32) -> Result<u32, HeadEnd>
    requires { n ≤ 32 }
    ensures ok { IfOk result (λ value. ReadsNumber n reader.old value reader.new) }
    ensures err { IfErr result (λ end. IsCut n reader.old end) }
{
    match reader.read(n) {
        Ok(value) => Ok(value),
        Err(_) => Err(HeadEnd::Rule(Rule::V8)),
    }
}

/// A field of 8 bits. V8 where fewer are left.
pub fn read_byte(reader: &mut BitReader<'_>) -> Result<u8, HeadEnd>
    ensures ok { IfOk result (λ value. ReadsNumber 8 reader.old value reader.new) }
    ensures err { IfErr result (λ end. IsCut 8 reader.old end) }
{
    Ok(read_field(reader, 8)? as u8)
}

/// A flag. V8 where no bit is left.
pub fn read_flag(reader: &mut BitReader<'_>) -> Result<bool, HeadEnd>
    ensures ok { IfOk result (λ set. ReadsNumber 1 reader.old (flag set) reader.new) }
    ensures err { IfErr result (λ end. IsCut 1 reader.old end) }
{
    Ok(read_field(reader, 1)? == 1)
}

/// A reserved field of n bits, at most 32. V8 where fewer are left, and V14 where it isn't 0.
pub fn read_reserved(reader: &mut BitReader<'_>, n: u32) -> Result<(), HeadEnd>
    requires { n ≤ 32 }
    ensures ok { OnOk result (HasReserved n reader.old reader.new) }
    ensures err { IfErr result (λ end. ReservedBreaks n reader.old end) }
{
    if read_field(reader, n)? != 0 {
        return Err(HeadEnd::Rule(Rule::V14));
    }
    Ok(())
}
