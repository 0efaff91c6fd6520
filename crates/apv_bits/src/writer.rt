//! Bits, written to the start of a byte slice.

ghost use Rattle.std.specs.Prelude.{◌≡◌, ℕ, ◌+◌, ◌-◌, ◌*◌, ◌^◌, ◌%◌, ◌<◌, ◌≤◌, ◌++◌, ◌↔◌, []};
ghost use Rattle.std.specs.Prelude.{length, take, drop, replicate, IsTrue};
ghost use Rattle.apv_base.specs.model.Bits.{bin, bits, padding};
ghost use Rattle.apv_base.specs.model.Run.{MAX_UNIT};

use crate::field::put_field;
use crate::packed::Word;

/// A writer of bits to the start of at most 536,870,912 bytes, the most significant of each byte first. Seen as the
/// bits written, the bits of the slice after them, which stay as they were, and the slice.
#[derive(Drop)]
pub struct BitWriter<'a> {
    bytes: &'a mut [u8],
    place: usize,
    ghost small: { length bytes.now ≤ MAX_UNIT },
    ghost within: { place ≤ 8 * length bytes.now },
}

impl<'a> BitWriter<'a> {
    ghost use Rattle.apv_bits.specs.Writer.{written, bits_after, slice_name, Appends};

    /// A writer at the first bit of at most 536,870,912 bytes.
    pub fn new(bytes: &'a mut [u8]) -> BitWriter<'a>
        requires { length bytes.old ≤ MAX_UNIT }
        ensures written { written result ≡ [] }
        ensures bits_after { bits_after result ≡ bits bytes.old }
        ensures slice { slice_name result ≡ bytes.entry.ghost_name }
    {
        BitWriter { bytes, place: 0 }
    }

    /// Appends the n bits, at most 32, of a value below 2^n, the most significant first (`u(n)`). There is room for
    /// them.
    #[inline]
    pub fn put(&mut self, value: u32, n: u32)
        requires n { n ≤ 32 }
        requires value { value < 2 ^ n }
        requires room { n ≤ length (bits_after self.old) }
        ensures appends { Appends self.old self.new (bin n value) }
        ensures slice { slice_name self.new ≡ slice_name self.old }
    {
        put_field(self.bytes, self.place, u64::from(value), n);
        self.place += n as usize;
    }

    /// Appends the bits of a word. There is room for them.
    #[inline]
    pub fn put_word(&mut self, word: Word)
        requires { length word ≤ length (bits_after self.old) }
        ensures appends { Appends self.old self.new word }
        ensures slice { slice_name self.new ≡ slice_name self.old }
    {
        let n = word.bit_len();
        put_field(self.bytes, self.place, word.bits(), n);
        self.place += n as usize;
    }

    /// Appends 0 to 7 zeros, up to a whole byte (`byte_alignment()`).
    pub fn align(&mut self)
        ensures appends { Appends self.old self.new
            (replicate (padding (length (written self.old))) 0) }
        ensures slice { slice_name self.new ≡ slice_name self.old }
    {
        let n = (8 - self.place % 8) % 8;
        self.put(0, n as u32);
    }

    /// The number of bits written.
    pub fn place(&self) -> u64
        ensures { result ≡ length (written self.now) }
    {
        self.place as u64
    }

    /// The number of bits after those written: the room left.
    #[inline]
    pub fn left(&self) -> u64
        ensures { result ≡ length (bits_after self.now) }
    {
        (8 * self.bytes.len() - self.place) as u64
    }
}
