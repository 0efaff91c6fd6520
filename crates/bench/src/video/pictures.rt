//! The pieces of work that are timed.
ghost use Rattle.std.specs.Prelude.{◌≡◌};
ghost use Rattle.apv_base.specs.declared.slot.Slot.TheVariants.{Input, Recon};
ghost use Rattle.apv_base.specs.model.Format.{IsSoundFormat};
ghost use Rattle.apv_files.specs.declared.files.Mode.TheVariants.{Reading, Writing};

use apv_base::Slot;
use apv_files::{Files, MemoryFiles};
use apv_grid::Frame;
use apv_video::{Shape, read_frame, write_frame};
use std::alloc::{AllocError, Global};

/// Writes the picture of a frame n times, or until a write fails.
#[inline(never)]
pub fn write_pictures<F: Files>(files: &mut F, frame: &Frame, count: u32)
    requires { (F.slot_view files.old Recon).mode ≡ Writing }
{
    for _number in 0..count {
        let Ok(()) = write_frame(files, Slot::Recon, frame, false) else {
            return;
        };
    }
}

/// Reads n pictures into a frame, or until there is none.
#[inline(never)]
pub fn read_pictures<F: Files>(files: &mut F, frame: &mut Frame, count: u32)
    requires reading { (F.slot_view files.old Input).mode ≡ Reading }
    requires sound { IsSoundFormat frame.old.grid.format }
    ensures { frame.new.grid ≡ frame.old.grid }
{
    let shape = Shape {
        format: frame.grid().format(),
        y4m: false,
    };
    for number in 0..count {
        let Ok(true) = read_frame(files, Slot::Input, &shape, number, frame) else {
            return;
        };
    }
}

/// The bytes of a planar file of n pictures of a frame.
pub fn file_of(alloc: Global, frame: &Frame, count: u32) -> Result<Vec<u8>, AllocError> {
    let mut files = MemoryFiles::new(alloc);
    if files.create(Slot::Recon, "recon").is_ok() {
        write_pictures(&mut files, frame, count);
    }
    files.written(Slot::Recon).to_vec(alloc)
}

/// Sums one byte of every 65,536.
pub fn sum_of_bytes(bytes: &[u8]) -> u64 {
    bytes.chunks(65536).fold(
        0,
        |sum: u64, piece| sum.wrapping_mul(31).wrapping_add(u64::from(piece[0])),
    )
}
