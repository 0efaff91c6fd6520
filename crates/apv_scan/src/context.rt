//! What the blocks of a component leave for the next.
ghost use Rattle.std.specs.Prelude.{◌≡◌, ◌-ℤ◌, ◌≤◌, unsigned_abs};
ghost use Rattle.apv_base.specs.model.Scan.{level_at};
ghost use Rattle.apv_base.specs.model.Block.{start};

use crate::scan::place_of;
use std::marker::Model;

/// What the blocks before it leave for a block: `PrevDC`, `PrevDcDiff` and `Prev1stAcLevel`. Seen as
/// the record of the three numbers, which blocks of permitted levels leave.
#[derive(Clone, Copy, PartialEq, Eq, Debug)]
pub struct Context {
    /// `PrevDC`: the first level of the block before, -32768 to 32767.
    pub dc: i32,
    /// `PrevDcDiff`: how far that level was from the one before it, at most 65,535.
    pub diff: u32,
    /// `Prev1stAcLevel`: the size of the first level that isn't 0 after the first place, at most
    /// 32,768. It is that of the last block that has such a level, and 0 before there is one.
    pub first: u32,
}

impl Model for Context {
    ghost use Rattle.apv_base.specs.model.Block as Block;
    ghost use Rattle.apv_base.specs.model.Block.{IsContext};

    ghost Value = { Block.Context };

    ghost view = { λ c. record { dc = c.dc; diff = c.diff; first = c.first } };

    ghost invariant = { λ c. IsContext (record { dc = c.dc; diff = c.diff; first = c.first }) };

    ghost inverse = { λ c. record { dc = c.dc; diff = c.diff; first = c.first } };
}

impl Context {
    /// The context of a component's first block.
    pub fn start() -> Context
        ensures start { result ≡ start }
    {
        Context {
            dc: 0,
            diff: 20,
            first: 0,
        }
    }

    /// The context after a block, where the first level after its first place that isn't 0 has this
    /// size.
    #[inline]
    pub(crate) fn next(self, levels: &[i16; 64], first: u32) -> Context
        requires first { first ≤ 32768 }
        ensures next { result ≡ record {
          dc = level_at levels.now 0;
          diff = unsigned_abs (level_at levels.now 0 -ℤ self.dc);
          first = first;
        } }
    {
        let dc = i32::from(levels[place_of(0)]);
        Context {
            dc,
            diff: (dc - self.dc).unsigned_abs(),
            first,
        }
    }
}
