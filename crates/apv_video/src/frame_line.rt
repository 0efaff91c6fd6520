//! The line before a picture of a Y4M file, as it is read.
ghost use Rattle.std.specs.Prelude.{◌≡◌, ℕ, List, ◌∷◌};
ghost use Rattle.std.specs.Bool.{OnFalse, OnTrue};
ghost use Rattle.apv_files.specs.SlotView.{OnlyAt};
ghost use Rattle.apv_files.specs.declared.files.Mode.TheVariants.{Reading};
ghost use Rattle.apv_video.specs.FrameLine.{IsFrameLine, ReadsFrameLine};

use crate::read_line::read_line;
use apv_base::Slot;
use apv_files::{Failed, Files};

/// The bytes that a line has at most after its first one, with its line feed.
const LINE_REST: usize = 1023;

/// Whether F and these bytes are `FRAME`, or `FRAME` and a space and anything.
fn is_frame_line(rest: &[u8]) -> bool
    ensures right { OnTrue result (IsFrameLine (70 ∷ rest.now)) }
    ensures wrong { OnFalse result (IsFrameLine (70 ∷ rest.now) → ⊥) }
{
    if rest.len() < 4 {
        return false;
    }
    let (name, after) = rest.split_at(4);
    if name != b"RAME".as_slice() {
        return false;
    }
    if after.is_empty() {
        return true;
    }
    after[0] == b' '
}

/// Reads the rest of a line before a picture, of which the first byte is given, and says whether the line is right: at
/// most 1,024 bytes with its line feed, `FRAME`, or `FRAME` and a space and anything.
///
/// No byte after the line feed is taken. `Device`: the slot's read faults rose.
pub(crate) fn read_frame_line<F: Files>(
    files: &mut F,
    slot: Slot,
    first: u8,
) -> Result<bool, Failed>
    requires { (F.slot_view files.old slot).mode ≡ Reading }
    ensures here { ReadsFrameLine (F.slot_view files.old slot) first result
        (F.slot_view files.new slot) }
    ensures elsewhere { OnlyAt slot (F.slot_view files.old) (F.slot_view files.new) }
    ensures held { (file : List ℕ) → F.held files.new file ≡ F.held files.old file }
{
    if first != b'F' {
        return Ok(false);
    }
    let mut buf = [0; LINE_REST];
    match read_line(files, slot, &mut buf) {
        Ok(Some(count)) => {
            let (rest, _) = buf.split_at(count);
            Ok(is_frame_line(rest))
        }
        Ok(None) => Ok(false),
        Err(failed) => Err(failed),
    }
}
