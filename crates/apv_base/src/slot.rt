//! The places that a run reads from and writes to.

/// A place that a run reads from or writes to: `Input` to `TileQp` are read, `Output`, `Recon` and `MetaOut` are
/// written, and the line for the user goes to `Console`.
///
/// - `Input`: the file of access units, or the video of the primary frames.
/// - `Preview`: the video of the preview frames.
/// - `Depth`: the video of the depth frames.
/// - `Alpha`: the video of the alpha frames.
/// - `Metadata`: the file of metadata payloads.
/// - `TileQp`: the file of QP offsets, one for each tile.
/// - `Output`: the pictures, or the file of access units, that a run writes.
/// - `Recon`: the reconstruction of the primary frames.
/// - `MetaOut`: the metadata payloads that a run writes.
/// - `Console`: standard error.
#[derive(Clone, Copy, Debug, PartialEq, Eq)]
pub enum Slot {
    Input,
    Preview,
    Depth,
    Alpha,
    Metadata,
    TileQp,
    Output,
    Recon,
    MetaOut,
    Console,
}
