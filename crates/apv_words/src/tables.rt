//! The options of each program, in the order in which they are judged.
ghost use Rattle.std.specs.Prelude.{◌≡◌, true};
ghost use Rattle.apv_words.specs.Decoder.{dec_table};
ghost use Rattle.apv_words.specs.Editor.{edit_cut_table, edit_join_table, edit_list_table};
ghost use Rattle.apv_words.specs.Editor.{edit_meta_table};
ghost use Rattle.apv_words.specs.Encoder.{built_enc_table, enc_table};
ghost use Rattle.apv_words.specs.Settings.{HasRows};
ghost use Rattle.apv_words.specs.Table.{is_table};
ghost use Rattle.apv_words.specs.View.{table_view};

use crate::table::{Bounds, Condition, Kind, OptRow, Requirement};
use apv_base::Opt;

/// A row of a table: the option, its name, what its value is, whether it is required, and the
/// conditions with which it clashes.
macro_rules! row {
    ($opt:ident, $name:literal, $kind:expr) => {
        row!($opt, $name, $kind, Requirement::Optional, &[])
    };
    ($opt:ident, $name:literal, $kind:expr, $requirement:expr) => {
        row!($opt, $name, $kind, $requirement, &[])
    };
    ($opt:ident, $name:literal, $kind:expr, $requirement:expr, $clashes:expr) => {
        OptRow {
            opt: Opt::$opt,
            name: $name,
            kind: $kind,
            requirement: $requirement,
            clashes: $clashes,
        }
    };
}

/// The bounds of a group.
pub(crate) const GROUPS: Bounds = Bounds {
    minimum: 0,
    maximum: 65_535,
};

/// The bounds of the two numbers of a rate.
pub(crate) const RATES: Bounds = Bounds {
    minimum: 1,
    maximum: 1_000_000,
};

/// The bounds of the number of threads.
pub(crate) const THREADS: Bounds = Bounds {
    minimum: 1,
    maximum: 64,
};

/// The bounds of the number from which a video is generated.
pub(crate) const SEEDS: Bounds = Bounds {
    minimum: 0,
    maximum: 4_294_967_295,
};

/// The bounds of the number of an access unit in its file.
const UNITS: Bounds = Bounds {
    minimum: 0,
    maximum: 4_294_967_295,
};

/// The bounds of a picture's width and height in luma samples.
pub(crate) const SIZES: Bounds = Bounds {
    minimum: 1,
    maximum: 16_777_215,
};

/// The bounds of the bits of a sample.
pub(crate) const DEPTHS: Bounds = Bounds {
    minimum: 10,
    maximum: 12,
};

/// The bounds of `band_idc`.
pub(crate) const BANDS: Bounds = Bounds {
    minimum: 0,
    maximum: 3,
};

/// The bounds of a quantisation parameter.
pub(crate) const QPS: Bounds = Bounds {
    minimum: 0,
    maximum: 75,
};

/// The maximum size of a component's QP offset.
pub(crate) const OFFSET: u32 = 75;

/// The bounds of the bytes of an access unit.
pub(crate) const LIMITS: Bounds = Bounds {
    minimum: 1,
    maximum: 536_870_912,
};

/// The bounds of a tile's width in macroblocks.
pub(crate) const TILE_WIDTHS: Bounds = Bounds {
    minimum: 16,
    maximum: 1_048_575,
};

/// The bounds of a tile's height in macroblocks.
pub(crate) const TILE_HEIGHTS: Bounds = Bounds {
    minimum: 8,
    maximum: 1_048_575,
};

/// The bounds of the bytes of a filler.
pub(crate) const FILLERS: Bounds = Bounds {
    minimum: 0,
    maximum: 16_777_216,
};

/// The bounds of a byte.
const BYTES: Bounds = Bounds {
    minimum: 0,
    maximum: 255,
};

/// The bounds of a bit.
const BITS: Bounds = Bounds {
    minimum: 0,
    maximum: 1,
};

/// The bounds of the 64 entries of a quantisation matrix.
pub(crate) const ENTRIES: [Bounds; 64] = [Bounds {
    minimum: 1,
    maximum: 255,
}; 64];

/// The bounds of the colour primaries, the transfer characteristics, the matrix coefficients and
/// whether samples have their full range.
pub(crate) const COLOURS: [Bounds; 4] = [BYTES, BYTES, BYTES, BITS];

/// The names of the profiles.
const PROFILES: Kind = Kind::Choice(&[
    "422-10", "422-12", "444-10", "444-12", "4444-10", "4444-12", "400-10",
]);

/// The names of the levels.
const LEVELS: Kind = Kind::Choice(&[
    "1", "1.1", "2", "2.1", "3", "3.1", "4", "4.1", "5", "5.1", "6", "6.1", "7", "7.1",
]);

/// The forms of a file of pictures.
const FORMS: Kind = Kind::Choice(&["planar", "y4m"]);

/// An option of the format is required where a planar file is read.
const WHERE_PLANAR: Requirement = Requirement::RequiredWhere(&[
    Condition::Without("generate"),
    Condition::LacksValue("form", "y4m"),
]);

/// An option of the format may not be given where a planar file isn't read.
const NOT_PLANAR: &[Condition] = &[
    Condition::With("generate"),
    Condition::HasValue("form", "y4m"),
];

/// An option is required where the video isn't generated.
const WHERE_READ: Requirement = Requirement::RequiredWhere(&[Condition::Without("generate")]);

/// The size of a preview is required where there is one.
const WHERE_PREVIEW: Requirement = Requirement::RequiredWhere(&[Condition::With("preview")]);

/// The options of the decoder.
static DEC_OPTIONS: [OptRow; 9] = [
    row!(Input, "input", Kind::NameOrDash, Requirement::Required),
    row!(Output, "output", Kind::NameOrDash),
    row!(Metadata, "metadata", Kind::Name),
    row!(
        Select,
        "select",
        Kind::Choice(&["primary", "non-primary", "preview", "depth", "alpha", "all"])
    ),
    row!(Group, "group", Kind::Number(GROUPS)),
    row!(Form, "form", FORMS),
    row!(Rate, "rate", Kind::Ratio(RATES)),
    row!(Threads, "threads", Kind::Number(THREADS)),
    row!(Strict, "strict", Kind::Flag),
];

/// The options of the encoder.
static ENC_OPTIONS: [OptRow; 38] = [
    row!(Generate, "generate", Kind::Number(SEEDS)),
    row!(
        Input,
        "input",
        Kind::NameOrDash,
        WHERE_READ,
        &[Condition::With("generate")]
    ),
    row!(Output, "output", Kind::NameOrDash, WHERE_READ),
    row!(
        Form,
        "form",
        FORMS,
        Requirement::Optional,
        &[Condition::With("generate")]
    ),
    row!(
        Width,
        "width",
        Kind::Number(SIZES),
        WHERE_PLANAR,
        NOT_PLANAR
    ),
    row!(
        Height,
        "height",
        Kind::Number(SIZES),
        WHERE_PLANAR,
        NOT_PLANAR
    ),
    row!(
        Chroma,
        "chroma",
        Kind::Choice(&["400", "422", "444", "4444"]),
        WHERE_PLANAR,
        NOT_PLANAR
    ),
    row!(
        Depth,
        "depth",
        Kind::Number(DEPTHS),
        WHERE_PLANAR,
        NOT_PLANAR
    ),
    row!(Profile, "profile", PROFILES),
    row!(Level, "level", LEVELS),
    row!(Band, "band", Kind::Number(BANDS)),
    row!(
        Qp,
        "qp",
        Kind::Number(QPS),
        Requirement::RequiredWhere(&[Condition::Without("limit")]),
        &[Condition::With("limit")]
    ),
    row!(Limit, "limit", Kind::Number(LIMITS)),
    row!(
        QpMin,
        "qp-min",
        Kind::Number(QPS),
        Requirement::Optional,
        &[Condition::Without("limit")]
    ),
    row!(
        QpMax,
        "qp-max",
        Kind::Number(QPS),
        Requirement::Optional,
        &[Condition::Without("limit"), Condition::Below("qp-min")]
    ),
    row!(QpOffset1, "qp-offset-1", Kind::Signed(OFFSET)),
    row!(QpOffset2, "qp-offset-2", Kind::Signed(OFFSET)),
    row!(QpOffset3, "qp-offset-3", Kind::Signed(OFFSET)),
    row!(Matrix0, "matrix-0", Kind::List(&ENTRIES)),
    row!(Matrix1, "matrix-1", Kind::List(&ENTRIES)),
    row!(Matrix2, "matrix-2", Kind::List(&ENTRIES)),
    row!(Matrix3, "matrix-3", Kind::List(&ENTRIES)),
    row!(Colour, "colour", Kind::List(&COLOURS)),
    row!(TileWidth, "tile-width", Kind::Number(TILE_WIDTHS)),
    row!(TileHeight, "tile-height", Kind::Number(TILE_HEIGHTS)),
    row!(TileSizes, "tile-sizes", Kind::Flag),
    row!(Preview, "preview", Kind::Name),
    row!(DepthMap, "depth-map", Kind::Name),
    row!(Alpha, "alpha", Kind::Name),
    row!(
        PreviewWidth,
        "preview-width",
        Kind::Number(SIZES),
        WHERE_PREVIEW,
        &[Condition::Without("preview")]
    ),
    row!(
        PreviewHeight,
        "preview-height",
        Kind::Number(SIZES),
        WHERE_PREVIEW,
        &[Condition::Without("preview")]
    ),
    row!(Metadata, "metadata", Kind::Name),
    row!(AuInfo, "au-info", Kind::Flag),
    row!(Filler, "filler", Kind::Number(FILLERS)),
    row!(Recon, "recon", Kind::Name),
    row!(TileQp, "tile-qp", Kind::Name),
    row!(Threads, "threads", Kind::Number(THREADS)),
    row!(Digest, "digest", Kind::Flag),
];

/// The options of the editor's command `list`.
static EDIT_LIST_OPTIONS: [OptRow; 2] = [
    row!(Input, "input", Kind::NameOrDash, Requirement::Required),
    row!(Output, "output", Kind::NameOrDash, Requirement::Required),
];

/// The options of the editor's command `cut`.
static EDIT_CUT_OPTIONS: [OptRow; 4] = [
    row!(Input, "input", Kind::NameOrDash, Requirement::Required),
    row!(Output, "output", Kind::NameOrDash, Requirement::Required),
    row!(From, "from", Kind::Number(UNITS), Requirement::Required),
    row!(
        To,
        "to",
        Kind::Number(UNITS),
        Requirement::Required,
        &[Condition::Below("from")]
    ),
];

/// The options of the editor's command `join`.
static EDIT_JOIN_OPTIONS: [OptRow; 3] = [
    row!(Input, "input", Kind::NameOrDash, Requirement::Required),
    row!(Second, "second", Kind::Name, Requirement::Required),
    row!(Output, "output", Kind::NameOrDash, Requirement::Required),
];

/// The options of the editor's command `meta`.
static EDIT_META_OPTIONS: [OptRow; 3] = [
    row!(Input, "input", Kind::NameOrDash, Requirement::Required),
    row!(Output, "output", Kind::NameOrDash, Requirement::Required),
    row!(Payloads, "payloads", Kind::Name),
];

/// The options of the decoder.
pub fn dec_options() -> &'static [OptRow]
    ensures options { table_view result.now ≡ dec_table }
    ensures rows { HasRows dec_table (table_view result.now) }
    ensures table { is_table (table_view result.now) ≡ true }
{
    &DEC_OPTIONS
}

/// The options of the encoder.
pub fn enc_options() -> &'static [OptRow]
    ensures options { table_view result.now ≡ enc_table }
    ensures table { is_table (table_view result.now) ≡ true }
{
    &ENC_OPTIONS
}

/// The options of the encoder that are built: all but the last one, `--digest`.
pub fn enc_built_options() -> &'static [OptRow]
    ensures options { table_view result.now ≡ built_enc_table }
    ensures rows { HasRows enc_table (table_view result.now) }
    ensures table { is_table (table_view result.now) ≡ true }
{
    &ENC_OPTIONS[0..37]
}

/// The options of the editor's command `list`.
pub fn edit_list_options() -> &'static [OptRow]
    ensures options { table_view result.now ≡ edit_list_table }
    ensures table { is_table (table_view result.now) ≡ true }
{
    &EDIT_LIST_OPTIONS
}

/// The options of the editor's command `cut`.
pub fn edit_cut_options() -> &'static [OptRow]
    ensures options { table_view result.now ≡ edit_cut_table }
    ensures table { is_table (table_view result.now) ≡ true }
{
    &EDIT_CUT_OPTIONS
}

/// The options of the editor's command `join`.
pub fn edit_join_options() -> &'static [OptRow]
    ensures options { table_view result.now ≡ edit_join_table }
    ensures table { is_table (table_view result.now) ≡ true }
{
    &EDIT_JOIN_OPTIONS
}

/// The options of the editor's command `meta`.
pub fn edit_meta_options() -> &'static [OptRow]
    ensures options { table_view result.now ≡ edit_meta_table }
    ensures table { is_table (table_view result.now) ≡ true }
{
    &EDIT_META_OPTIONS
}
