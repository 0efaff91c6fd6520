//! Laws of the definitions. Each is the contract of a function that does nothing.
ghost use Rattle.std.specs.Prelude.{◌≡◌, ℕ, ℤ, List};
ghost use Rattle.apv_base.specs.model.Scan.{scan_table};
ghost use Rattle.apv_base.specs.model.Block.{IsContext};
ghost use Rattle.apv_base.specs.model.Block as Block;
ghost use Rattle.apv_scan.specs.Laws.{HasOneBlock, IsWholeOrBroken, HasOneBreak, IsSpelled, HasOneComponent};

use crate::scan::SCAN;

/// `SCAN` is the order of the scan.
#[tactic(auto, unfolding(apv_base::specs::model::Scan::scan_table))]
pub fn scan_order()
    ensures { SCAN ≡ scan_table }
{}

/// A list of bits has at most one reading as a block under a context: one block and one rest, or one break.
pub fn one_reading()
    ensures block { (context : Block.Context) (b : List ℕ) → IsContext context
        → HasOneBlock context b }
    ensures either { (context : Block.Context) (b : List ℕ) → IsContext context
        → IsWholeOrBroken context b }
    ensures break_once { (context : Block.Context) (b : List ℕ) → IsContext context
        → HasOneBreak context b }
{}

/// The bytes of blocks are read as these blocks.
pub fn spelled_component()
    ensures { (n : ℕ) (blocks : List (List ℤ)) (x : List ℕ) → IsSpelled n blocks x }
{}

/// A list of bytes is one component of n blocks at most.
pub fn one_component()
    ensures { (n : ℕ) (x : List ℕ) → HasOneComponent n x }
{}
