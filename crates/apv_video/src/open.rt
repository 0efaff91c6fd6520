//! The start of a Y4M file that is read.
ghost use Rattle.std.specs.Prelude.{◌≡◌, ℕ, List};
ghost use Rattle.apv_base.specs.declared.slot.Slot.TheVariants.{Input};
ghost use Rattle.apv_files.specs.SlotView.{OnlyAt};
ghost use Rattle.apv_files.specs.declared.files.Mode.TheVariants.{Reading};
ghost use Rattle.apv_video.specs.OpenVideo.{OpensVideo};

use crate::VideoEnd;
use crate::end::bad_header;
use crate::header::judge_line;
use crate::read_line::read_line;
use apv_base::{Format, Slot, VideoRule};
use apv_files::{Failed, Files};

/// The bytes that a line has at most, with its line feed.
const LINE: usize = 1024;

/// What the pictures of a file are.
#[derive(Clone, Copy, Debug, PartialEq, Eq)]
pub struct Shape {
    /// The format of each picture.
    pub format: Format,
    /// Whether the file is a Y4M file, with a line before each picture.
    pub y4m: bool,
}

/// Reads the header of a Y4M file from `Input`: a line of at most 1,024 bytes with its line feed. What is left begins
/// right after the line feed.
///
/// The refusals come in this order: `Header`, `Tag`, `Size`, and L2 with the number of macroblocks. Whatever the answer
/// is, no byte after the first line feed is taken. `Read` comes only where the read faults of `Input` rose.
pub fn open_video<F: Files>(files: &mut F) -> Result<Shape, VideoEnd>
    requires { (F.slot_view files.old Input).mode ≡ Reading }
    ensures here { OpensVideo (F.slot_view files.old Input) result (F.slot_view files.new Input) }
    ensures elsewhere { OnlyAt Input (F.slot_view files.old) (F.slot_view files.new) }
    ensures held { (file : List ℕ) → F.held files.new file ≡ F.held files.old file }
{
    let mut buf = [0; LINE];
    let count = match read_line(files, Slot::Input, &mut buf) {
        Ok(Some(count)) => count,
        Ok(None) => return Err(bad_header(VideoRule::Header)),
        Err(Failed::Device) => return Err(VideoEnd::Read(Slot::Input)),
        Err(Failed::Memory) => return Err(VideoEnd::Memory),
    };
    let (line, _) = buf.split_at(count);
    match judge_line(line) {
        Ok(format) => Ok(Shape { format, y4m: true }),
        Err(end) => Err(end),
    }
}
