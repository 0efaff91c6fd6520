//! The outside of a run: named files, the slots that a run reads from and writes to, and the console.
//!
//! A run is generic over `Files`. `MemoryFiles` serves tests: its calls fail where a test sets them to, and move as few
//! bytes as it wants. `SureFiles` serves calls over bytes in memory: it holds the input of a run and what the run
//! writes, and no device can fail, so that the counts of faults are 0 and memory alone can run out. `HostFiles` is the
//! trusted edge to the system.
#![tactic(auto)]

mod calls;
mod files;
mod held_files;
mod host;
mod host_slots;
mod loops;
mod memory;
mod memory_slot;
mod memory_slots;
mod slots;
mod status;
mod sure;
#[cfg(test)]
mod tests;

pub use apv_base::Slot;
pub use calls::Call;
pub use files::{Failed, Files, Mode};
pub use host::HostFiles;
pub use loops::{fill, read_more, write_all};
pub use memory::MemoryFiles;
pub use sure::SureFiles;
