//! The gate of a crew, which is told of each tile.

/// Is told of each tile, at the start of its work. A test holds tiles in it to see that several
/// workers run at the same time.
pub trait Gate: Sync {
    /// Called at the start of the work on a tile, counted from 0, by the worker that has it.
    fn enter(&self, tile: u32);
}

/// A gate that does nothing.
#[derive(Clone, Copy, Debug, PartialEq, Eq)]
pub struct NoGate;

impl Gate for NoGate {
    fn enter(&self, _tile: u32) {}
}
