//! Bits, read from the start of a byte slice.

ghost use Rattle.std.specs.Prelude.{◌≡◌, ℕ, ◌+◌, ◌*◌, ◌^◌, ◌%◌, ◌<◌, ◌≤◌, ◌↔◌, length, take, drop};
ghost use Rattle.std.specs.Prelude.{replicate, IfOk, OnOk, OnErr, IsErr, IsTrue, IsNone, IfSome};
ghost use Rattle.std.specs.Prelude.{Contains};
ghost use Rattle.apv_base.specs.model.Bits.{bin, bits, padding};
ghost use Rattle.apv_bits.specs.Reader.{Unread, Takes, AreWholeBytes, IsWindow};
ghost use Rattle.apv_base.specs.model.Run.{MAX_UNIT};

use crate::field::field;
use crate::window_bits::{Window, window_at};
use std::marker::Model;

/// Fewer bits are left than were asked for. Nothing was read.
#[derive(Clone, Copy, PartialEq, Eq, Debug)]
pub struct Ended;

/// An `alignment_bit_equal_to_zero` is 1. Nothing was read.
#[derive(Clone, Copy, PartialEq, Eq, Debug)]
pub struct NotZero;

/// A reader of the bits of at most 536,870,912 bytes, the most significant of each byte first. Seen as the bits that
/// are left and the number of bits read.
#[derive(Drop)]
pub struct BitReader<'a> {
    bytes: &'a [u8],
    place: usize,
}

impl<'a> Model for BitReader<'a> {
    ghost Value = { Unread };

    ghost view = { λ r. record { left = drop r.place (bits r.bytes.now); place = r.place } };

    ghost invariant = { λ r. (length r.bytes.now ≤ MAX_UNIT) × (r.place ≤ 8 * length r.bytes.now) };
}

impl<'a> BitReader<'a> {
    /// A reader at the first bit of at most 536,870,912 bytes.
    pub fn new(bytes: &'a [u8]) -> BitReader<'a>
        requires { length bytes.now ≤ MAX_UNIT }
        ensures { result ≡ record { left = bits bytes.now; place = 0 } }
    {
        BitReader { bytes, place: 0 }
    }

    /// Reads n bits, at most 32, as a number, the most significant first (`u(n)`). `Ended` exactly where fewer are
    /// left, and then nothing moves.
    #[inline]
    pub fn read(&mut self, n: u32) -> Result<u32, Ended>
        requires { n ≤ 32 }
        ensures ok { IfOk result (λ v. (v < 2 ^ n) × Takes self.old self.new (bin n v)) }
        ensures ended { IsErr result ↔ (length self.old.left < n) }
        ensures err { OnErr result (self.new ≡ self.old) }
    {
        let end = self.place + n as usize;
        if let Some(window) = window_at(self.bytes, self.place) {
            self.place = end;
            return Ok(window.top(n));
        }
        if end > 8 * self.bytes.len() {
            return Err(Ended);
        }
        let value = field(self.bytes, self.place, n);
        self.place = end;
        Ok(value)
    }

    /// The next 57 bits. None exactly where the slice has fewer than eight bytes from the byte on that the next bit
    /// is in.
    #[inline]
    pub fn window(&self) -> Option<Window>
        ensures some { IfSome result (λ w. IsWindow w self.now.left) }
        ensures none { IsNone result ↔ (length self.now.left + self.now.place % 8 < 64) }
    {
        window_at(self.bytes, self.place)
    }

    /// Takes n bits, as many as are left at most: those that were seen in a window.
    #[inline]
    pub fn skip(&mut self, n: u32)
        requires { n ≤ length self.old.left }
        ensures { Takes self.old self.new (take n self.old.left) }
    {
        self.place += n as usize;
    }

    /// Whether a whole number of bytes was read (`byte_aligned()`).
    pub fn aligned(&self) -> bool
        ensures aligned { IsTrue result ↔ (self.now.place % 8 ≡ 0) }
        ensures bytes { AreWholeBytes self.now }
    {
        self.place % 8 == 0
    }

    /// The number of bits read. With the number of bits left it is a multiple of 8, at most 2^32.
    pub fn place(&self) -> u64
        ensures place { result ≡ self.now.place }
        ensures bytes { AreWholeBytes self.now }
    {
        self.place as u64
    }

    /// Moves to the next whole byte, by 0 to 7 bits (`byte_alignment()`). `NotZero` exactly where one of them is 1,
    /// and then nothing moves.
    pub fn align(&mut self) -> Result<(), NotZero>
        ensures ok { OnOk result (Takes self.old self.new (replicate (padding self.old.place) 0)) }
        ensures not_zero { IsErr result ↔ Contains (take (padding self.old.place) self.old.left) 1 }
        ensures err { OnErr result (self.new ≡ self.old) }
    {
        let n = (8 - self.place % 8) % 8;
        let skipped = field(self.bytes, self.place, n as u32);
        if skipped != 0 {
            return Err(NotZero);
        }
        self.place += n;
        Ok(())
    }

    /// A reader at the same place, to look ahead with.
    #[inline]
    pub fn ahead(&self) -> BitReader<'a>
        ensures { result ≡ self.now }
    {
        BitReader {
            bytes: self.bytes,
            place: self.place,
        }
    }

    /// The number of bits left. With the number of bits read it is a multiple of 8, at most 2^32.
    pub fn left(&self) -> u64
        ensures left { result ≡ length self.now.left }
        ensures bytes { AreWholeBytes self.now }
    {
        (8 * self.bytes.len() - self.place) as u64
    }
}
