//! The header line of a Y4M file.
ghost use Rattle.std.specs.Prelude.{◌≡◌, ℕ, ◌+◌, ◌≤◌, ◌++◌, [], ◌∷◌, length};
ghost use Rattle.std.specs.Fmt.{decimal};
ghost use Rattle.apv_base.specs.model.Video.{header_line as header_line_lem};
ghost use Rattle.apv_video.specs.Tag.{tag_text};

use crate::Tag;
use apv_base::Format;
use std::marker::Model;

/// The bytes that a line can have.
const ROOM: usize = 80;

/// A line of at most 80 bytes, seen as its bytes.
#[derive(Drop)]
pub(crate) struct Line {
    bytes: [u8; 80],
    len: usize,
}

impl Model for Line {
    ghost use Rattle.std.specs.Prelude.{ℕ, ◌≡◌, ◌≤◌, List, length, take};

    ghost Value = { List ℕ };

    ghost view = { λ l. take l.len l.bytes };

    ghost invariant = { λ l. (length l.bytes ≡ 80) × (l.len ≤ 80) };
}

impl Line {
    /// A line without bytes.
    fn new() -> Line
        ensures { result ≡ [] }
    {
        Line {
            bytes: [0; ROOM],
            len: 0,
        }
    }

    /// The bytes of the line.
    pub(crate) fn bytes(&self) -> &[u8]
        ensures { result.now ≡ self.now }
    {
        &self.bytes[..self.len]
    }

    /// Appends a byte.
    fn push(&mut self, byte: u8)
        requires { length self.old + 1 ≤ 80 }
        ensures { self.new ≡ self.old ++ byte ∷ [] }
    {
        self.bytes[self.len] = byte;
        self.len += 1;
    }

    /// Appends a text.
    fn push_text(&mut self, text: &str)
        requires { length self.old + length text.now ≤ 80 }
        ensures text { self.new ≡ self.old ++ text.now }
        ensures size { length self.new ≡ length self.old + length text.now }
    {
        for byte in text.as_bytes() {
            self.push(*byte);
        }
    }

    /// Appends the decimal digits of a number.
    fn push_digits(&mut self, number: u32)
        requires { length self.old + length (decimal number) ≤ 80 }
        ensures { self.new ≡ self.old ++ decimal number }
    {
        if number >= 10 {
            self.push_digits(number / 10);
        }
        self.push(b'0' + (number % 10) as u8);
    }

    /// Appends a number of at most ten digits.
    fn push_number(&mut self, number: u32)
        requires { length self.old + 10 ≤ 80 }
        ensures text { self.new ≡ self.old ++ decimal number }
        ensures size { length self.new ≤ length self.old + 10 }
    {
        self.push_digits(number);
    }
}

/// The header line of a Y4M file of a format at a rate, as a number of frames and of seconds.
pub(crate) fn header_line(format: &Format, rate: (u32, u32), tag: Tag) -> Line
    ensures { result ≡ header_line_lem format.now rate (tag_text tag) }
{
    let mut line = Line::new();
    line.push_text("YUV4MPEG2 W");
    line.push_number(format.width);
    line.push_text(" H");
    line.push_number(format.height);
    line.push_text(" F");
    line.push_number(rate.0);
    line.push_text(":");
    line.push_number(rate.1);
    line.push_text(" Ip A0:0 ");
    line.push_text(tag.text());
    line.push_text("\n");
    line
}
