//! Lines of files.
ghost use Rattle.std.specs.Prelude.{◌≡◌, ℕ, List};
ghost use Rattle.apv_files.specs.SlotView.{OnlyAt};
ghost use Rattle.apv_files.specs.declared.files.Mode.TheVariants.{Reading};
ghost use Rattle.apv_video.specs.Line.{ReadsLine};

use apv_base::Slot;
use apv_files::{Failed, Files};

/// Reads a line and its line feed: the buffer begins with the line, of which the length is given. None where the input
/// ends before a line feed, or none is among as many bytes as the buffer has.
///
/// No byte after the line feed is taken. After an error no line feed was taken. `Device`: the slot's read faults rose.
pub(crate) fn read_line<F: Files>(
    files: &mut F,
    slot: Slot,
    line: &mut [u8],
) -> Result<Option<usize>, Failed>
    requires { (F.slot_view files.old slot).mode ≡ Reading }
    ensures here { ReadsLine (F.slot_view files.old slot) result line.new
        (F.slot_view files.new slot) }
    ensures elsewhere { OnlyAt slot (F.slot_view files.old) (F.slot_view files.new) }
    ensures held { (file : List ℕ) → F.held files.new file ≡ F.held files.old file }
{
    let mut count = 0;
    while count < line.len() {
        let mut byte = [0; 1];
        let taken = files.read(slot, &mut byte)?;
        if taken == 0 {
            return Ok(None);
        }
        let byte = byte[0];
        if byte == b'\n' {
            return Ok(Some(count));
        }
        line[count] = byte;
        count += 1;
    }
    Ok(None)
}
