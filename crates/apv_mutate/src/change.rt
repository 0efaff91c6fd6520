//! Changes of a stream, at random.
ghost use Rattle.std.specs.Prelude.{◌<◌, max};

use rand::RngExt;
use rand_pcg::Pcg32;
use std::alloc::{AllocError, Global};

/// Where the sizes of the first access unit, its first PBU, the first tile of that and the data of its first component
/// are, where the frame header has no part that may be missing.
const SIZES: [usize; 4] = [0, 8, 36, 44];

/// The bytes before the first tile and its header: of sizes and headers.
const HEADERS: usize = 62;

/// The bits of a byte.
const BITS: [u8; 8] = [1, 2, 4, 8, 16, 32, 64, 128];

/// Changes, of which each is drawn at random.
#[derive(Drop)]
pub struct Changes {
    random: Pcg32,
}

impl Changes {
    /// The changes of the stream of that number of a seed.
    pub fn new(seed: u64, number: u64) -> Changes {
        Changes {
            random: Pcg32::new(seed, number),
        }
    }

    /// A number below an end, or 0 where the end is 0.
    pub fn below(&mut self, end: usize) -> usize
        ensures { result < max end 1 }
    {
        let end = u32::try_from(end).unwrap_or(u32::MAX);
        if end == 0 {
            return 0;
        }
        self.random.random_range(0..end) as usize
    }

    /// A place of a stream, in its headers as often as after them.
    fn place(&mut self, len: usize) -> usize {
        if self.below(2) == 0 {
            self.below(len.min(HEADERS))
        } else {
            self.below(len)
        }
    }

    /// Turns a bit.
    fn turn(&mut self, stream: &mut [u8]) {
        let place = self.place(stream.len());
        let bit = BITS[self.below(8)];
        if let Some(byte) = stream.get_mut(place) {
            *byte ^= bit;
        }
    }

    /// Sets a byte, often to the first or the last values.
    fn set(&mut self, stream: &mut [u8]) {
        let place = self.place(stream.len());
        let value = match self.below(6) {
            0 => 0,
            1 => 1,
            2 => 0x7F,
            3 => 0x80,
            4 => 0xFF,
            _ => self.random.random_range(0..=u8::MAX),
        };
        if let Some(byte) = stream.get_mut(place) {
            *byte = value;
        }
    }

    /// Puts a piece of another stream in the place of a piece, and mends the sizes around it up to some layer.
    fn splice(
        &mut self,
        alloc: Global,
        stream: &mut Vec<u8>,
        other: &[u8],
    ) -> Result<(), AllocError> {
        let begin = self.place(stream.len()).min(stream.len());
        let end = begin + self.below(24).min(stream.len() - begin);
        let from = self.below(other.len()).min(other.len());
        let to = from + self.below(24).min(other.len() - from);
        let mut changed = stream[..begin].to_vec(alloc)?;
        changed.extend_from_slice(&other[from..to])?;
        changed.extend_from_slice(&stream[end..])?;
        let grown = number(to - from).wrapping_sub(number(end - begin));
        self.mend(changed.as_mut_slice(), grown);
        *stream = changed;
        Ok(())
    }

    /// Cuts the stream, or an end of its last access unit whose sizes are mended.
    fn cut(&mut self, stream: &mut Vec<u8>) {
        let len = self.below(stream.len());
        let grown = number(len).wrapping_sub(number(stream.len()));
        stream.truncate(len);
        if self.below(2) == 0 {
            self.mend(stream.as_mut_slice(), grown);
        }
    }

    /// Adds a number to the sizes from that of the access unit inwards, up to some layer.
    fn mend(&mut self, stream: &mut [u8], grown: u32) {
        let layers = self.below(SIZES.len() + 1);
        for place in SIZES.iter().take(layers) {
            add(stream, *place, grown);
        }
    }

    /// Makes a change.
    pub fn apply(
        &mut self,
        alloc: Global,
        stream: &mut Vec<u8>,
        other: &[u8],
    ) -> Result<(), AllocError> {
        match self.below(8) {
            0..=2 => self.turn(stream.as_mut_slice()),
            3..=5 => self.set(stream.as_mut_slice()),
            6 => self.splice(alloc, stream, other)?,
            _ => self.cut(stream),
        }
        Ok(())
    }
}

/// A number of bytes, or 0 where it has no room in 32 bits.
fn number(len: usize) -> u32 {
    u32::try_from(len).unwrap_or(0)
}

/// Adds to the number in four bytes at a place, the high one first, where they are there; it wraps.
fn add(stream: &mut [u8], place: usize, grown: u32) {
    if stream.len() < 4 || place > stream.len() - 4 {
        return;
    }
    let old = [
        stream[place],
        stream[place + 1],
        stream[place + 2],
        stream[place + 3],
    ];
    let new = u32::from_be_bytes(old).wrapping_add(grown).to_be_bytes();
    stream[place..place + 4].copy_from_slice(&new);
}
