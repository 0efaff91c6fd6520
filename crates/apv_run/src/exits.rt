//! What a failed call on files is to a run.
ghost use Rattle.std.specs.Prelude.{◌≡◌};
ghost use Rattle.apv_run.specs.Exits.{open_exit as open_exit_lem, read_exit as read_exit_lem};
ghost use Rattle.apv_run.specs.Exits.{failed_by, write_exit as write_exit_lem};

use apv_base::{Exit, Slot};
use apv_files::Failed;
use apv_video::Put;

/// The answer where the file of that slot couldn't be opened or created: `OpenFailed`, or `Memory`.
pub fn open_exit(slot: Slot, failed: Failed) -> Exit
    ensures { result ≡ open_exit_lem slot failed }
{
    match failed {
        Failed::Device => Exit::OpenFailed(slot),
        Failed::Memory => Exit::Memory,
    }
}

/// The answer where a read of that slot failed: `ReadFailed`, or `Memory`.
pub fn read_exit(slot: Slot, failed: Failed) -> Exit
    ensures { result ≡ read_exit_lem slot failed }
{
    match failed {
        Failed::Device => Exit::ReadFailed(slot),
        Failed::Memory => Exit::Memory,
    }
}

/// The answer where a write to that slot failed: `WriteFailed`, or `Memory`.
pub fn write_exit(slot: Slot, failed: Failed) -> Exit
    ensures { result ≡ write_exit_lem slot failed }
{
    match failed {
        Failed::Device => Exit::WriteFailed(slot),
        Failed::Memory => Exit::Memory,
    }
}

/// What failed where a picture or a header line wasn't written whole.
pub fn failed(put: Put) -> Failed
    ensures { result ≡ failed_by put }
{
    match put {
        Put::Failed => Failed::Device,
        Put::Memory => Failed::Memory,
    }
}
