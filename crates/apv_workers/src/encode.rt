//! The tiles of a track, encoded.
mod components;
mod counting;
mod least;
mod lengths;
mod put;
mod quantise;
mod rebuild;
mod transform;

pub use least::least_len_tiles;
pub use lengths::len_tiles;
pub use put::put_tiles;
pub use quantise::quantise_tiles;
pub use rebuild::rebuild_tiles;
pub use transform::transform_tiles;
