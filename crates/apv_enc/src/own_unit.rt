//! Access units that the encoder made, decoded again.
ghost use Rattle.std.specs.Prelude.{◌≡◌, ◌≤◌, length, false, OnOk};
ghost use Rattle.apv_base.specs.model.Judge.{DecodedUnit, IsValidUnit};
ghost use Rattle.apv_base.specs.model.Run.{MAX_UNIT};
ghost use Rattle.apv_frame.specs.Unit.{AreBuffersOf};

use apv_frame::{FramesFault, UnitFrames};
use apv_unit::structure;
use apv_workers::{Crew, Gate};
use std::alloc::AllocError;
use std::thread::Threads;

/// Decodes a valid access unit, the one of that number in its file, of at most 536,870,912 bytes: the frames are then
/// those of the unit, one after another. Fails only where memory ran out; then nothing is said of the frames.
pub(crate) fn decode_own<R: Threads + Sync, G: Gate>(
    crew: &Crew<'_, R, G>,
    frames: &mut UnitFrames,
    unit: &[u8],
    number: u32,
) -> Result<(), AllocError>
    requires small { length unit.now ≤ MAX_UNIT }
    requires valid { (decoded : DecodedUnit) × (decoded.bytes ≡ unit.now)
        × IsValidUnit false decoded }
    ensures { OnOk result ((decoded : DecodedUnit) → decoded.bytes ≡ unit.now
        → IsValidUnit false decoded → AreBuffersOf decoded.frames frames.new) }
{
    let Ok(()) = structure(unit, number) else {
        unreachable!("the unit is valid")
    };
    match frames.decode(crew, unit) {
        Ok(()) => Ok(()),
        Err(FramesFault::Broken { .. }) => unreachable!("the unit is valid"),
        Err(FramesFault::Memory) => Err(AllocError),
    }
}
