//! Laws of the definitions. Each is the contract of a function that does nothing.
ghost use Rattle.std.specs.Prelude.{ℕ};
ghost use Rattle.apv_base.specs.model.Format.{IsDepth};
ghost use Rattle.apv_transform.specs.Laws.{HasBoundedColumnSums, HasBoundedRowSums, HasBoundedCoefficients};

/// Coefficients of 16 bits have values between the two passes of at most 122,624 in size.
#[tactic(auto, using(crate::proofs::Ranges::bounded_column_sums))]
pub fn column_sums_are_bounded()
    ensures { HasBoundedColumnSums }
{}

/// Residuals of a bit depth of 10 to 12 have values between the two passes of at most 16,384 in
/// size.
#[tactic(auto, using(crate::proofs::Ranges::bounded_row_sums))]
pub fn row_sums_are_bounded()
    ensures { (depth : ℕ) → IsDepth depth → HasBoundedRowSums depth }
{}

/// Residuals of a bit depth of 10 to 12 have coefficients of at most 16,384 in size.
#[tactic(auto, using(crate::proofs::Ranges::bounded_coefficients))]
pub fn coefficients_are_bounded()
    ensures { (depth : ℕ) → IsDepth depth → HasBoundedCoefficients depth }
{}
