//! Laws of the definitions. Each is the contract of a function that names the law of `apv_quant` that it rests on.
ghost use Rattle.std.specs.Prelude.{◌≡◌, ℕ, List};
ghost use Rattle.apv_base.specs.laws.Answer.{HasOneAnswer};
ghost use Rattle.apv_search.specs.Choice.{HasSizeAt, IsLeast, IsTooLarge};
ghost use Rattle.apv_search.specs.declared.choice.QpRange.{QpRange};
ghost use Rattle.apv_workers.specs.Track.{TrackState};

use apv_quant::one_nearest;

/// Tracks have at most one size at a QP.
pub fn one_size()
    ensures { (fixed : ℕ) (tracks : List TrackState) (q a b : ℕ)
        → HasSizeAt fixed tracks q a → HasSizeAt fixed tracks q b → a ≡ b }
{
    one_nearest();
}

/// Of the QPs of a range at most one is chosen, or the sizes are too large with one least size, and not both.
pub fn one_choice()
    ensures { (fixed : ℕ) (tracks : List TrackState) (range : QpRange) (limit : ℕ)
        → HasOneAnswer (IsLeast fixed tracks range limit) (IsTooLarge fixed tracks range limit) }
{
    one_nearest();
}
