//! How many access units a file may have.
ghost use Rattle.apv_files.specs.SlotView.{AllClosed};

use super::*;
use apv_base::{Limit, Slot};
use apv_files::{Files, MemoryFiles};
use std::alloc::Global;
use std::test::Fail;

/// What is read of the file `in` after 4,294,967,295 units.
fn after_all<F: Files>(alloc: Global, files: &mut F) -> Result<bool, UnitRead>
    requires { AllClosed (F.slot_view files.old) }
{
    if files.open(Slot::Input, "in").is_err() {
        return Err(UnitRead::Read);
    }
    let mut unit = Vec::new(alloc);
    next_unit(files, u32::MAX, &mut unit)
}

/// The same where the file goes on with these bytes.
fn after_all_units(alloc: Global, bytes: &[u8]) -> Result<Result<bool, UnitRead>, Fail> {
    let mut files = MemoryFiles::new(alloc);
    files.hold("in", bytes)?;
    Ok(after_all(alloc, &mut files))
}

#[test]
fn reads_no_unit_after_the_last(rt: HostRuntime) -> Result<(), Fail> {
    assert_eq!(rt; after_all_units(rt.alloc(), b"")?, Ok(false));
    assert_eq!(rt;
        after_all_units(rt.alloc(), &[7])?,
        Err(UnitRead::Limit(Limit::L3, 4294967296))
    );
    Ok(())
}
