//! The frames of an access unit, decoded.
ghost use Rattle.std.specs.Prelude.{◌≡◌, ◌≤◌, ℕ, List, [], length, OnOk, IfOk, IfErr};
ghost use Rattle.apv_base.specs.model.Body.{with_bodies};
ghost use Rattle.apv_base.specs.model.Pbu.{Pbu};
ghost use Rattle.apv_base.specs.model.Run.{MAX_UNIT};
ghost use Rattle.apv_base.specs.model.Unit.{Structure};
ghost use Rattle.apv_frame.specs.Frame.{IsFrameBody, HasGrid, IsFault};
ghost use Rattle.apv_frame.specs.Unit.{Pushes, HasFrames, IsFramesFault, fault_at};

use crate::decode::{FrameFault, decode_into};
use crate::read::frame_grid;
use apv_grid::{Frame, Grid};
use apv_unit::{Pbus, is_frame};
use apv_workers::{ContentBreak, Crew, Gate};
use std::alloc::{AllocError, Global};
use std::marker::Model;
use std::mem;
use std::thread::Threads;

/// Why the frames of an access unit aren't decoded:
///
/// - `Broken`: the content of a frame breaks a rule, V27 to V31, at `at`; `pbu` is the number of the frame's PBU in its
///   access unit, counted from 0. It is the first such frame.
/// - `Memory`: memory ran out.
#[derive(Clone, Copy, Debug, PartialEq, Eq)]
pub enum FramesFault {
    Broken { pbu: u32, at: ContentBreak },
    Memory,
}

/// The fault of a frame as that of its access unit, where its PBU has that number.
fn fault_of(pbu: u32, fault: FrameFault) -> FramesFault
    ensures { result ≡ fault_at pbu fault }
{
    match fault {
        FrameFault::Broken(at) => FramesFault::Broken { pbu, at },
        FrameFault::Memory => FramesFault::Memory,
    }
}

/// The frames of the access unit that was decoded last, in the order of their PBUs. The memory of those that it had
/// before is used again where the grid is the same. A contract sees the frames.
#[derive(Drop)]
pub struct UnitFrames {
    alloc: Global,
    frames: Vec<Frame>,
    spare: Vec<Frame>,
}

impl Model for UnitFrames {
    ghost use Rattle.std.specs.Prelude.{ℕ, List, ⊤};
    ghost use Rattle.apv_grid.specs.Buffer.{Buffer};

    ghost Value = { List (Buffer ℕ) };

    ghost view = { λ unit. unit.frames.items };

    ghost invariant = { λ unit. ⊤ };
}

impl UnitFrames {
    /// No frames.
    pub fn new(alloc: Global) -> UnitFrames
        ensures { result ≡ [] }
    {
        UnitFrames {
            alloc,
            frames: Vec::new(alloc),
            spare: Vec::new(alloc),
        }
    }

    /// The frames.
    pub fn frames(&self) -> &[Frame]
        ensures { result.now ≡ self.now }
    {
        self.frames.as_slice()
    }

    /// Decodes the frames of an access unit of sound structure, of at most 536,870,912 bytes. The refusal is the
    /// first rule that the content of a frame breaks, in the order of PBUs, tiles and components. After a refusal
    /// nothing is said of the frames.
    pub fn decode<R: Threads + Sync, G: Gate>(
        &mut self,
        crew: &Crew<'_, R, G>,
        unit: &[u8],
    ) -> Result<(), FramesFault>
        requires small { length unit.now ≤ MAX_UNIT }
        requires sound { (pbus : List Pbu) × Structure with_bodies unit.now pbus }
        ensures ok { OnOk result ((pbus : List Pbu) → Structure with_bodies unit.now pbus
            → HasFrames pbus self.new) }
        ensures err { IfErr result (λ fault. (pbus : List Pbu) → Structure with_bodies unit.now pbus
            → IsFramesFault pbus fault) }
    {
        self.clear();
        for pbu in Pbus::of(unit) {
            if is_frame(pbu.kind) {
                match self.push(crew, pbu.body) {
                    Ok(()) => {}
                    Err(fault) => return Err(fault_of(pbu.number, fault)),
                }
            }
        }
        Ok(())
    }

    /// Keeps the memory of the frames for the next ones, that of the first frame on top.
    fn clear(&mut self)
        ensures { self.new ≡ [] }
    {
        self.spare.clear();
        mem::swap(&mut self.frames, &mut self.spare);
        self.spare.reverse();
    }

    /// A frame of that grid, in the memory of an earlier one where that had the same grid.
    fn frame_of(&mut self, grid: &Grid) -> Result<Frame, AllocError>
        ensures grid { IfOk result (λ frame. frame.grid ≡ grid.now) }
        ensures frames { self.new ≡ self.old }
    {
        if let Some(frame) = self.spare.pop() {
            if frame.grid() == grid {
                return Ok(frame);
            }
        }
        Frame::new(self.alloc, grid)
    }

    /// Decodes the body of a frame, which is the next one.
    fn push<R: Threads + Sync, G: Gate>(
        &mut self,
        crew: &Crew<'_, R, G>,
        body: &[u8],
    ) -> Result<(), FrameFault>
        requires small { length body.now ≤ MAX_UNIT }
        requires body { IsFrameBody body.now }
        ensures ok { OnOk result (Pushes body.now self.old self.new) }
        ensures err { IfErr result (IsFault body.now) }
    {
        let grid = frame_grid(body);
        let Ok(mut frame) = self.frame_of(&grid) else {
            return Err(FrameFault::Memory);
        };
        match decode_into(crew, body, &mut frame) {
            Ok(()) => {}
            Err(broken) => return Err(FrameFault::Broken(broken)),
        }
        match self.frames.push(frame) {
            Ok(()) => Ok(()),
            Err(_) => Err(FrameFault::Memory),
        }
    }
}
