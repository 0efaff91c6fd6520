//! Bits to be written, in one word.

ghost use Rattle.std.specs.Prelude.{◌≡◌, ℕ, ◌+◌, ◌^◌, ◌<◌, ◌≤◌, ◌++◌, List, length};
ghost use Rattle.apv_base.specs.model.Bits.{bin};

use std::marker::Model;

/// At most 57 bits to be written, held in one word, so that several short fields cost one store. Seen as those bits.
/// Eight bytes hold 57 bits, even where the first is the last bit of its byte, and one store writes eight bytes.
#[derive(Drop)]
pub struct Word {
    bits: u64,
    len: u32,
}

impl Model for Word {
    ghost Value = { List ℕ };

    ghost view = { λ w. bin w.len w.bits };

    ghost invariant = { λ w. (w.len ≤ 57) × (w.bits < 2 ^ w.len) };
}

impl Word {
    /// The n bits, at most 57, of a value below 2^n, the most significant first (`u(n)`).
    #[inline]
    pub fn new(value: u64, n: u32) -> Word
        requires n { n ≤ 57 }
        requires value { value < 2 ^ n }
        ensures bits { result ≡ bin n value }
        ensures len { length result ≡ n }
    {
        Word {
            bits: value,
            len: n,
        }
    }

    /// The number of bits, at most 57.
    #[inline]
    pub fn bit_len(&self) -> u32
        ensures len { result ≡ length self.now }
        ensures few { result ≤ 57 }
    {
        self.len
    }

    /// These bits and then others, at most 57 together.
    #[inline]
    pub fn join(self, after: Word) -> Word
        requires { length self + length after ≤ 57 }
        ensures bits { result ≡ self ++ after }
        ensures len { length result ≡ length self + length after }
    {
        Word {
            bits: self.bits << after.len | after.bits,
            len: self.len + after.len,
        }
    }

    /// The number that the bits spell.
    #[inline]
    pub fn bits(&self) -> u64
        ensures small { result < 2 ^ length self.now }
        ensures bits { self.now ≡ bin (length self.now) result }
    {
        self.bits
    }
}
