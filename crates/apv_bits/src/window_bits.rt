//! The next bits of a reader in one word.

ghost use Rattle.std.specs.Prelude.{◌≡◌, ℕ, ◌+◌, ◌-◌, ◌^◌, ◌<◌, ◌≤◌, ◌↔◌, ◌/◌, ◌++◌, List, length};
ghost use Rattle.std.specs.Prelude.{take, drop, IfOk, IsErr, OnErr, IsNone, IfSome};
ghost use Rattle.apv_base.specs.model.Bits.{bin, bits};
ghost use Rattle.apv_bits.specs.Reader.{IsWindow};

use crate::field::load;
use crate::reader::Ended;
use std::marker::Model;

/// At most 57 bits that are ahead, held in one word, so that several short fields cost one load. Seen as those bits.
/// The eight bytes from the next bit's byte on have 57 bits from the next bit on, even where it is the last of its
/// byte.
#[derive(Drop)]
pub struct Window {
    bits: u64,
    left: u32,
}

impl Model for Window {
    ghost Value = { List ℕ };

    ghost view = { λ w. take w.left (bin 64 w.bits) };

    ghost invariant = { λ w. w.left ≤ 57 };
}

/// The 57 bits from a place on, where there are eight bytes from the place's byte on; else `None`.
#[inline]
pub(crate) fn window_at(bytes: &[u8], place: usize) -> Option<Window>
    requires { place ≤ 2 ^ 32 }
    ensures none { IsNone result ↔ (length bytes.now < place / 8 + 8) }
    ensures some { IfSome result (λ w. IsWindow w (drop place (bits bytes.now))) }
{
    let eight = load(bytes, place / 8)?;
    Some(Window {
        bits: eight << (place % 8),
        left: 57,
    })
}

impl Window {
    /// The number of bits ahead, at most 57.
    #[inline]
    pub fn left(&self) -> u32
        ensures left { result ≡ length self.now }
        ensures few { result ≤ 57 }
    {
        self.left
    }

    /// The number of bits that were passed or read since the window was made.
    #[inline]
    pub fn taken(&self) -> u32
        ensures { result + length self.now ≡ 57 }
    {
        57 - self.left
    }

    /// A number of 64 bits that begins with the bits ahead. Those after them say nothing.
    #[inline]
    pub fn bits(&self) -> u64
        ensures { self.now ≡ take (length self.now) (bin 64 result) }
    {
        self.bits
    }

    /// The first n bits as a number, the most significant first.
    #[inline]
    pub(crate) fn top(&self, n: u32) -> u32
        requires few { n ≤ 32 }
        requires ahead { n ≤ length self.now }
        ensures small { result < 2 ^ n }
        ensures bits { take n self.now ≡ bin n result }
    {
        (self.bits >> 1 >> (63 - n)) as u32
    }

    /// Passes n bits, as many as are ahead at most.
    #[inline]
    pub fn skip(&mut self, n: u32)
        requires { n ≤ length self.old }
        ensures { self.new ≡ drop n self.old }
    {
        self.bits <<= n;
        self.left -= n;
    }

    /// Reads n bits, at most 32, as a number, the most significant first (`u(n)`). `Ended` exactly where fewer are
    /// ahead, and then nothing moves.
    #[inline]
    pub fn read(&mut self, n: u32) -> Result<u32, Ended>
        requires { n ≤ 32 }
        ensures ok { IfOk result (λ v. (v < 2 ^ n) × (self.old ≡ bin n v ++ self.new)) }
        ensures ended { IsErr result ↔ (length self.old < n) }
        ensures err { OnErr result (self.new ≡ self.old) }
    {
        if self.left() < n {
            return Err(Ended);
        }
        let value = self.top(n);
        self.skip(n);
        Ok(value)
    }
}
