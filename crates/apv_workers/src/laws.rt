//! Laws of tracks. Each is the contract of a function that names the law of `apv_quant` that it rests on.
ghost use Rattle.apv_workers.specs.Laws.{HasSomeLevels};

use apv_quant::some_nearest;

/// The coefficients of a track have nearest levels at each QP.
pub fn some_levels()
    ensures { HasSomeLevels }
{
    some_nearest();
}
