//! Writing one code word.

ghost use Rattle.std.specs.Prelude.{◌≡◌, ℕ, ◌+◌, ◌-◌, ◌*◌, ◌^◌, ◌<◌, ◌≤◌, length};
ghost use Rattle.apv_base.specs.model.CodeWord.{code_word};
ghost use Rattle.apv_bits.specs.Writer.{bits_after, slice_name, Appends};

use apv_bits::{BitWriter, Word};

/// The number of values whose code words have the parameter's minimum length.
#[inline]
fn least_count(k: u32) -> u32
    requires { k ≤ 5 }
    ensures { result ≡ 2 ^ k }
{
    1 << k
}

/// 1 for a value of at least a bound, and 0 for one below it.
#[inline]
fn reaches(bound: u32, value: u32) -> u32
    ensures below { value < bound → result ≡ 0 }
    ensures reached { bound ≤ value → result ≡ 1 }
    ensures one { result ≤ 1 }
{
    u32::from(value >= bound)
}

/// The number of the highest 1 of a value less 2^k, and k for a value below 2 * 2^k.
#[inline]
fn highest(k: u32, value: u32) -> u32
    requires { k ≤ 5 }
    ensures least { value < 2 * 2 ^ k → result ≡ k }
    ensures low { 2 * 2 ^ k ≤ value → 2 ^ result ≤ value - 2 ^ k }
    ensures high { value - 2 ^ k < 2 * 2 ^ result }
    ensures from_k { k ≤ result }
    ensures in_word { result < 32 }
{
    let count = least_count(k);
    (u32::max(value, 2 * count) - count).ilog2()
}

/// The code word with the parameter k, at most 5, of a value of at most 65,535, as bits to be written (`h(v)`): at
/// most 33, and at most 2n + 1 for a value of n bits, where n is above k.
#[inline]
pub fn encode_h(k: u32, value: u32) -> Word
    requires k { k ≤ 5 }
    requires value { value < 2 ^ 16 }
    ensures word { result ≡ code_word k value }
    ensures few { length result ≤ 33 }
    ensures short { (n : ℕ) → k < n → value < 2 ^ n → length result ≤ 2 * n + 1 }
{
    let count = least_count(k);
    // No branch depends on the value, since many of those would be mispredicted. The word is 1 and k bits, or 00 and
    // k bits (the tail has k + 1 bits for both), or 01 and the tail.
    let second = reaches(count, value);
    let further = reaches(2 * count, value);
    let tail = 2 * highest(k, value) + 1 - k;
    let low = count + value - second * (2 * count);
    let bits = (u64::from(further) << tail) + u64::from(low);
    Word::new(bits, tail + second + further)
}

/// The number of bits of the code word with the parameter k, at most 5, of a value of at most 65,535.
#[inline]
pub fn len_h(k: u32, value: u32) -> u32
    requires k { k ≤ 5 }
    requires value { value < 2 ^ 16 }
    ensures { result ≡ length (code_word k value) }
{
    encode_h(k, value).bit_len()
}

/// Appends the code word with the parameter k, at most 5, of a value of at most 65,535 (`h(v)`). There is room for it.
#[inline]
pub fn put_h(writer: &mut BitWriter<'_>, k: u32, value: u32)
    requires k { k ≤ 5 }
    requires value { value < 2 ^ 16 }
    requires room { length (code_word k value) ≤ length (bits_after writer.old) }
    ensures appends { Appends writer.old writer.new (code_word k value) }
    ensures slice { slice_name writer.new ≡ slice_name writer.old }
{
    writer.put_word(encode_h(k, value));
}
