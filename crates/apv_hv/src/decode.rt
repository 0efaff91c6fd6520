//! Decoding one code word at the start of a window.

ghost use Rattle.std.specs.Prelude.{◌≡◌, ◌≢◌, ℕ, ◌+◌, ◌*◌, ◌^◌, ◌/◌, ◌%◌, ◌-◌, ◌<◌, ◌≤◌, ◌++◌};
ghost use Rattle.std.specs.Prelude.{List, IsNone, IfSome, IfNone};
ghost use Rattle.apv_base.specs.model.CodeWord.{code_word};
ghost use Rattle.apv_hv.specs.Decoding.{StartsLongWord};

use apv_bits::Window;

/// How many zeros there are up to the first 1 once the second bit is turned: none for `1`, one for `00`, and two more
/// than follow `01`. The last bit counts as a 1.
#[inline]
fn turned_zeros(bits: u64) -> u32
    ensures few { result < 64 }
    ensures first { result ≡ 0 → 2 ^ 63 ≤ bits }
    ensures second { result ≡ 1 → bits < 2 ^ 62 }
    ensures further { 2 ≤ result → StartsLongWord bits (result - 2) }
{
    ((bits ^ 1 << 62) | 1).leading_zeros()
}

/// The length of the code word with n zeros.
#[inline]
fn length_of(zeros: u32, k: u32) -> u32
    requires k { k ≤ 5 }
    requires zeros { zeros < 64 }
    ensures short { zeros < 2 → result ≡ k + zeros + 1 }
    ensures long { 2 ≤ zeros → result + 1 ≡ k + 2 * zeros }
{
    if zeros < 2 {
        k + zeros + 1
    } else {
        k + 2 * zeros - 1
    }
}

/// The value of the code word with n zeros.
#[inline]
fn value_of(bits: u64, zeros: u32, k: u32, length: u32) -> u64
    requires k { k ≤ 5 }
    requires above { 0 < length }
    requires below { length ≤ 57 }
    ensures first { zeros ≡ 0 → result ≡ bits % 2 ^ 63 / 2 ^ (64 - length) }
    ensures other { 0 < zeros → result ≡ bits % 2 ^ 62 / 2 ^ (64 - length) + 2 ^ k }
{
    let (tail, base) = if zeros == 0 {
        (bits % (1 << 63), 0)
    } else {
        (bits % (1 << 62), 1 << k)
    };
    (tail >> (64 - length)) + base
}

/// Decodes the code word with the parameter k, at most 5, that a window begins with, and passes it (`h(v)`). None
/// exactly where the window begins with no whole code word, and then nothing moves.
#[inline]
pub fn decode_h(window: &mut Window, k: u32) -> Option<u32>
    requires { k ≤ 5 }
    ensures some { IfSome result (λ v. window.old ≡ code_word k v ++ window.new) }
    ensures none { IsNone result → (v : ℕ) (rest : List ℕ) → window.old ≢ code_word k v ++ rest }
    ensures unmoved { IfNone result (window.new ≡ window.old) }
{
    let bits = window.bits();
    let zeros = turned_zeros(bits);
    let length = length_of(zeros, k);
    if length > window.left() {
        return None;
    }
    window.skip(length);
    Some(value_of(bits, zeros, k, length) as u32)
}
