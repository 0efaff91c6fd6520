//! Reading one code word.

ghost use Rattle.std.specs.Prelude.{◌≡◌, ℕ, ◌+◌, ◌*◌, ◌^◌, ◌/◌, ◌-◌, ◌<◌, ◌≤◌, IfSome};
ghost use Rattle.apv_base.specs.model.CodeWord.{long_word_base, code_word};
ghost use Rattle.apv_base.specs.model.Bits.{bin};
ghost use Rattle.apv_hv.specs.Reading.{ReadsWord, ReadsCode, Numbers, LongWords, Words};

use crate::decode::decode_h;
use apv_bits::BitReader;

/// What is at the start of the bits that are left.
///
/// - `Value`: the code word of this value, which is at most the limit.
/// - `Ends`: only a part of a code word of a permitted value: the bits end inside it.
/// - `Over`: neither: no way to go on gives the code word of a permitted value.
#[derive(Clone, Copy, PartialEq, Eq, Debug)]
pub enum Read {
    Value(u32),
    Ends,
    Over,
}

/// Reads the n bits at the end of a code word: a number that is counted from a first value on.
fn read_tail(reader: &mut BitReader<'_>, n: u32, first: u32, limit: u32) -> Read
    requires n { n ≤ 24 }
    requires first { first < 2 ^ 24 }
    ensures { ReadsCode (Numbers n first) limit reader.old result reader.new }
{
    let Ok(number) = reader.read(n) else {
        let left = reader.left() as u32;
        let Ok(prefix) = reader.read(left) else {
            unreachable!()
        };
        return if first + (prefix << (n - left)) <= limit {
            Read::Ends
        } else {
            Read::Over
        };
    };
    if first + number <= limit {
        Read::Value(first + number)
    } else {
        Read::Over
    }
}

/// Reads a long code word after its first bits 01: zeros, a 1, and a number.
fn read_long_word(reader: &mut BitReader<'_>, k: u32, limit: u32) -> Read
    requires k { k ≤ 5 }
    requires limit { limit < 2 ^ 16 }
    ensures { ReadsCode (LongWords k 0) limit reader.old result reader.new }
{
    for zeros in 0..17 {
        let least = (1 << k) + (1 << (k + zeros));
        if least > limit {
            return Read::Over;
        }
        let Ok(bit) = reader.read(1) else {
            return Read::Ends;
        };
        if bit == 1 {
            return read_tail(reader, k + zeros, least, limit);
        }
    }
    Read::Over
}

/// Reads a code word. Where there is none, it says nothing of the reader.
fn read_word(reader: &mut BitReader<'_>, k: u32, limit: u32) -> Read
    requires k { k ≤ 5 }
    requires limit { limit < 2 ^ 16 }
    ensures { ReadsCode (Words k) limit reader.old result reader.new }
{
    let Ok(bit) = reader.read(1) else {
        return Read::Ends;
    };
    if bit == 1 {
        return read_tail(reader, k, 0, limit);
    }
    let Ok(second) = reader.read(1) else {
        return if 1 << k <= limit {
            Read::Ends
        } else {
            Read::Over
        };
    };
    if second == 1 {
        read_long_word(reader, k, limit)
    } else {
        read_tail(reader, k, 1 << k, limit)
    }
}

/// Reads a code word at the end of the slice, or finds that there is none. Only a value moves the reader.
#[cold]
#[inline(never)]
fn read_h_slowly<'a>(reader: BitReader<'a>, k: u32, limit: u32) -> (Read, BitReader<'a>)
    requires k { k ≤ 5 }
    requires limit { limit < 2 ^ 16 }
    ensures { ReadsWord k limit reader.entry result.0 result.1 }
{
    let mut ahead = reader.ahead();
    let read = read_word(&mut ahead, k, limit);
    match read {
        Read::Value(_) => (read, ahead),
        _ => (read, reader),
    }
}

/// Reads a code word with the parameter k, at most 5, of a value up to the limit, which is at most 65,535 (`h(v)`).
/// Only a value moves the reader.
#[inline]
pub fn read_h(reader: &mut BitReader<'_>, k: u32, limit: u32) -> Read
    requires k { k ≤ 5 }
    requires limit { limit < 2 ^ 16 }
    ensures { ReadsWord k limit reader.old result reader.new }
{
    if let Some(mut window) = reader.window() {
        if let Some(value) = decode_h(&mut window, k) {
            if value <= limit {
                reader.skip(window.taken());
                return Read::Value(value);
            }
        }
    }
    let (read, after) = read_h_slowly(reader.ahead(), k, limit);
    *reader = after;
    read
}
