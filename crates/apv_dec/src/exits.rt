//! What a failed read is to the reader of access units, and what is answered where there is no unit.
ghost use Rattle.std.specs.Prelude.{◌≡◌};
ghost use Rattle.apv_dec.specs.Exits.{no_unit_exit as no_unit_exit_lem, read_end};

use crate::unit::UnitRead;
use apv_base::{Exit, Slot};
use apv_files::Failed;

impl From<Failed> for UnitRead {
    ghost from_gives = { λ failed end. end ≡ read_end failed };

    fn from(failed: Failed) -> UnitRead {
        match failed {
            Failed::Device => UnitRead::Read,
            Failed::Memory => UnitRead::Memory,
        }
    }
}

/// The answer where no access unit was read.
pub(crate) fn no_unit_exit(end: UnitRead) -> Exit
    ensures { result ≡ no_unit_exit_lem end }
{
    match end {
        UnitRead::Broken(broken) => Exit::Broken(broken),
        UnitRead::Limit(limit, count) => Exit::LimitMet(limit, count),
        UnitRead::Read => Exit::ReadFailed(Slot::Input),
        UnitRead::Memory => Exit::Memory,
    }
}
