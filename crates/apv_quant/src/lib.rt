//! Scaling of levels to coefficients, as the scaling process for transform coefficients of RFC 9924
//! says, and the nearest level of a coefficient, which an encoder writes.
#![tactic(auto)]

mod block;
mod halves;
mod laws;
mod level;
mod narrow;
mod reaching;
mod scale;
mod scaling;
mod steps;

pub use laws::{one_nearest, some_nearest};
pub use reaching::{LEVEL_SIZES, sizes_reaching};
pub use scale::Scale;
pub use scaling::Scaling;

#[cfg(test)]
mod tests;
