//! What is asked for and what is chosen.

/// The QPs that are permitted for an access unit: from `least` to `greatest`, both included, at most 75.
#[derive(Clone, Copy, Debug, PartialEq, Eq)]
pub struct QpRange {
    pub least: u8,
    pub greatest: u8,
}

/// The QP of an access unit, before the offsets of components and tiles, and the bytes of the access unit at it
/// (`au_size`).
#[derive(Clone, Copy, Debug, PartialEq, Eq)]
pub struct Chosen {
    pub qp: u8,
    pub size: u64,
}

/// No permitted QP makes an access unit small enough; `smallest` is the least of their sizes in bytes.
#[derive(Clone, Copy, Debug, PartialEq, Eq)]
pub struct TooLarge {
    pub smallest: u64,
}
