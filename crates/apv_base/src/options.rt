//! What the words of a command line ask for, and why they are refused.

/// An option of one of the programs: `Input` is `--input`, `QpOffset1` is `--qp-offset-1`, and so on.
#[derive(Clone, Copy, Debug, PartialEq, Eq)]
pub enum Opt {
    Input,
    Output,
    Metadata,
    Select,
    Group,
    Form,
    Rate,
    Threads,
    Width,
    Height,
    Chroma,
    Depth,
    Profile,
    Level,
    Band,
    Qp,
    Limit,
    QpMin,
    QpMax,
    QpOffset1,
    QpOffset2,
    QpOffset3,
    Matrix0,
    Matrix1,
    Matrix2,
    Matrix3,
    Colour,
    TileWidth,
    TileHeight,
    TileSizes,
    Preview,
    DepthMap,
    Alpha,
    PreviewWidth,
    PreviewHeight,
    AuInfo,
    Filler,
    Recon,
    Strict,
    TileQp,
    Generate,
    Digest,
    Check,
    Region,
    From,
    To,
    Second,
    Payloads,
}

/// Why words give no settings.
///
/// - `Words`: the words can't be cut into options and values.
/// - `Value`: the value of an option is bad.
/// - `Missing`: an option is missing.
/// - `Clash`: an option may not be beside another one.
/// - `SameName`: two file options have the same name.
#[derive(Clone, Copy, Debug, PartialEq, Eq)]
pub enum UsageKind {
    Words,
    Value(Opt),
    Missing(Opt),
    Clash(Opt),
    SameName,
}

/// Why settings couldn't be made from words.
///
/// - `Usage`: the words give none.
/// - `Memory`: memory ran out.
#[derive(Clone, Copy, Debug, PartialEq, Eq)]
pub enum WordsEnd {
    Usage(UsageKind),
    Memory,
}

/// The form of a file of pictures.
///
/// - `Planar`: pictures one after another.
/// - `Y4m`: a Y4M file.
#[derive(Clone, Copy, Debug, PartialEq, Eq)]
pub enum Form {
    Planar,
    Y4m,
}

/// Which frames of an access unit are written, by their `pbu_type`.
///
/// - `Primary`: primary frames, type 1.
/// - `NonPrimary`: non-primary frames, type 2.
/// - `Preview`: preview frames, type 25.
/// - `Depth`: depth frames, type 26.
/// - `Alpha`: alpha frames, type 27.
/// - `All`: all frames.
#[derive(Clone, Copy, Debug, PartialEq, Eq)]
pub enum Select {
    Primary,
    NonPrimary,
    Preview,
    Depth,
    Alpha,
    All,
}
