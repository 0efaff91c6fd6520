//! The settings of the encoder.
ghost use Rattle.std.specs.Prelude.{◌≡◌, IfErr, IfOk, None, Some, codes, map, option_map, pos};
ghost use Rattle.std.specs.Prelude.{string_bytes, true};
ghost use Rattle.std.specs.Option.{option_map_or};
ghost use Rattle.apv_words.specs.EncParts.{coding_by, files_by};
ghost use Rattle.apv_words.specs.Encoder.{HasEncBounds, HasEncFiles, HasEncSettings};
ghost use Rattle.apv_words.specs.Encoder.{built_enc_table, enc_table, levels};
ghost use Rattle.apv_words.specs.Encoder.{chroma_of as chroma_of_lem, enc_settings_by};
ghost use Rattle.apv_words.specs.Encoder.{level_of as level_of_lem, profile_of as profile_of_lem};
ghost use Rattle.apv_words.specs.Encoder.{colour_of as colour_of_lem, matrix_of as matrix_of_lem};
ghost use Rattle.apv_words.specs.Encoder.{signed_of as signed_of_lem};
ghost use Rattle.apv_words.specs.Ends.{Refuses};
ghost use Rattle.apv_words.specs.Fault.{HasFault};
ghost use Rattle.apv_words.specs.Options.{fault_in, given_in, table_in, value_in};
ghost use Rattle.apv_words.specs.Settings.{HasRows};
ghost use Rattle.apv_words.specs.Table.{Text};
ghost use Rattle.apv_words.specs.Values.{are_within, is_choice, is_signed, number_of};
ghost use Rattle.apv_words.specs.View.{table_view};

use crate::given::{form_at, name_at, number_at, number_or, read_sound};
use crate::reading::{Options, after_program};
use crate::tables::{
    BANDS, COLOURS, DEPTHS, ENTRIES, FILLERS, LIMITS, OFFSET, QPS, SEEDS, SIZES, THREADS,
    TILE_HEIGHTS, TILE_WIDTHS, enc_built_options,
};
use crate::values::{number, read_bytes};
use crate::word::strip_dash;
use apv_base::{Chroma, Colour, Form, Matrix, Name, WordsEnd};
use std::alloc::{AllocError, Global};

/// What the words of the encoder ask for, by the options that are built.
#[derive(Debug, Drop)]
pub struct EncSettings {
    /// The number that the video is generated from, where none is read.
    pub generate: Option<u32>,
    pub input: Option<Name>,
    pub output: Option<Name>,
    pub form: Form,
    /// Width, height, chroma format and bit depth are those of the pictures of a planar file.
    pub width: Option<u32>,
    pub height: Option<u32>,
    pub chroma: Option<Chroma>,
    pub depth: Option<u32>,
    /// `profile_idc`. Without it the profile is the default of the format.
    pub profile: Option<u8>,
    /// `level_idc`, 30 times the level.
    pub level: u8,
    /// `band_idc`, 0 to 3.
    pub band: u32,
    /// The QP of all frames, 0 to 75. It is given where there is no limit.
    pub qp: Option<u32>,
    /// The maximum of an access unit's bytes (`au_size`), 1 to 536,870,912. The QP is then the least one that keeps it.
    pub limit: Option<u32>,
    /// The minimum QP that is tried where there is a limit, 0 to 75.
    pub qp_min: Option<u32>,
    /// The maximum QP that is tried where there is a limit, 0 to 75.
    pub qp_max: Option<u32>,
    /// What is added to the QP in the second component, -75 to 75.
    pub qp_offset_1: i8,
    /// The same in the third component.
    pub qp_offset_2: i8,
    /// The same in the fourth component.
    pub qp_offset_3: i8,
    /// The quantisation matrix of the first component (`q_matrix`), row after row. Without it the matrix is flat.
    pub matrix_0: Option<Matrix>,
    /// The same of the second component.
    pub matrix_1: Option<Matrix>,
    /// The same of the third component.
    pub matrix_2: Option<Matrix>,
    /// The same of the fourth component.
    pub matrix_3: Option<Matrix>,
    /// The colour description of the primary frames.
    pub colour: Option<Colour>,
    /// The width of a tile in macroblocks.
    pub tile_width: Option<u32>,
    /// The height of a tile in macroblocks.
    pub tile_height: Option<u32>,
    /// Whether frame headers state the sizes of tiles (`tile_size_present_in_fh_flag`).
    pub tile_sizes: bool,
    /// Where the pictures of preview, depth and alpha frames are read.
    pub preview: Option<Name>,
    pub depth_map: Option<Name>,
    pub alpha: Option<Name>,
    /// The size of preview frames, which is given where their file is named.
    pub preview_width: Option<u32>,
    pub preview_height: Option<u32>,
    /// Where the payloads are read that each access unit carries.
    pub metadata: Option<Name>,
    /// Whether each access unit has access unit information (`au_info()`).
    pub au_info: bool,
    /// The bytes of the body of a filler PBU, 0 to 16,777,216. Without it there is no such PBU.
    pub filler: Option<u32>,
    /// Where the decoded pictures are written.
    pub recon: Option<Name>,
    /// Where the QPs of the tiles are read.
    pub tile_qp: Option<Name>,
    pub threads: u32,
}

/// The chroma format of that name.
fn chroma_of(text: &str) -> Chroma
    ensures { result ≡ chroma_of_lem text.now }
{
    match text {
        "400" => Chroma::C400,
        "422" => Chroma::C422,
        "444" => Chroma::C444,
        _ => Chroma::C4444,
    }
}

/// The `profile_idc` of the profile of that name.
fn profile_of(text: &str) -> u8
    ensures { result ≡ profile_of_lem text.now }
{
    match text {
        "422-10" => 33,
        "422-12" => 44,
        "444-10" => 55,
        "444-12" => 66,
        "4444-10" => 77,
        "4444-12" => 88,
        _ => 99,
    }
}

/// The `level_idc` of a level.
fn level_of(text: &str) -> u8
    requires { is_choice levels text.now ≡ true }
    ensures { result ≡ level_of_lem text.now }
{
    match text {
        "1" => 30,
        "1.1" => 33,
        "2" => 60,
        "2.1" => 63,
        "3" => 90,
        "3.1" => 93,
        "4" => 120,
        "4.1" => 123,
        "5" => 150,
        "5.1" => 153,
        "6" => 180,
        "6.1" => 183,
        "7" => 210,
        _ => 213,
    }
}

/// A number of one or two digits, or what follows `-`, which is below 0.
fn signed_of(text: &str) -> i8
    requires { is_signed OFFSET text.now ≡ true }
    ensures { result ≡ signed_of_lem text.now }
{
    match strip_dash(text) {
        Some(digits) => match number(digits, 2) {
            Some(value) => -(value as i8),
            None => 0,
        },
        None => match number(text, 2) {
            Some(value) => value as i8,
            None => 0,
        },
    }
}

/// The chroma format that is given.
fn chroma_at(options: &Options<'_>) -> Option<Chroma>
    ensures { result ≡ option_map chroma_of_lem (value_in options.now (codes "chroma")) }
{
    Some(chroma_of(options.value("chroma")?))
}

/// The `profile_idc` that is given.
fn profile_at(options: &Options<'_>) -> Option<u8>
    ensures { result ≡ option_map profile_of_lem (value_in options.now (codes "profile")) }
{
    Some(profile_of(options.value("profile")?))
}

/// The `level_idc` that is given, or that of level 4.1.
fn level_at(options: &Options<'_>) -> u8
    requires { (text : Text) → value_in options.now (codes "level") ≡ Some text
        → is_choice levels text ≡ true }
    ensures { result ≡ option_map_or level_of_lem (value_in options.now (codes "level")) 123 }
{
    match options.value("level") {
        Some(text) => level_of(text),
        None => 123,
    }
}

/// The offset of a QP that is given, or 0.
fn offset_at(options: &Options<'_>, option: &str) -> i8
    requires { (text : Text) → value_in options.now option.now ≡ Some text
        → is_signed OFFSET text ≡ true }
    ensures { result ≡ option_map_or signed_of_lem (value_in options.now option.now) (pos 0) }
{
    match options.value(option) {
        Some(text) => signed_of(text),
        None => 0,
    }
}

/// The quantisation matrix of 64 numbers, row after row.
fn matrix_of(text: &str) -> Option<Matrix>
    requires { are_within 44 ENTRIES text.now ≡ true }
    ensures { result ≡ Some (matrix_of_lem text.now) }
{
    let mut values = [0; 64];
    read_bytes(&ENTRIES, text, &mut values);
    Matrix::of(values)
}

/// The quantisation matrix that is given.
fn matrix_at(options: &Options<'_>, option: &str) -> Option<Matrix>
    requires { (text : Text) → value_in options.now option.now ≡ Some text
        → are_within 44 ENTRIES text ≡ true }
    ensures { result ≡ option_map matrix_of_lem (value_in options.now option.now) }
{
    matrix_of(options.value(option)?)
}

/// The colour description of four numbers.
fn colour_of(text: &str) -> Colour
    requires { are_within 44 COLOURS text.now ≡ true }
    ensures { result ≡ colour_of_lem text.now }
{
    let mut numbers = [0; 4];
    read_bytes(&COLOURS, text, &mut numbers);
    let [primaries, transfer, matrix, full_range] = numbers;
    Colour {
        primaries,
        transfer,
        matrix,
        full_range: full_range == 1,
    }
}

/// The colour description that is given.
fn colour_at(options: &Options<'_>) -> Option<Colour>
    requires { (text : Text) → value_in options.now (codes "colour") ≡ Some text
        → are_within 44 COLOURS text ≡ true }
    ensures { result ≡ option_map colour_of_lem (value_in options.now (codes "colour")) }
{
    Some(colour_of(options.value("colour")?))
}

/// The names of the files that are given.
#[derive(Drop)]
struct Files {
    input: Option<Name>,
    output: Option<Name>,
    preview: Option<Name>,
    depth_map: Option<Name>,
    alpha: Option<Name>,
    metadata: Option<Name>,
    recon: Option<Name>,
    tile_qp: Option<Name>,
}

/// The names of the files that are given.
fn files_at(alloc: Global, options: &Options<'_>) -> Result<Files, AllocError>
    ensures { IfOk result (λ files. files ≡ files_by (value_in options.now)) }
{
    Ok(Files {
        input: name_at(alloc, options, "input")?,
        output: name_at(alloc, options, "output")?,
        preview: name_at(alloc, options, "preview")?,
        depth_map: name_at(alloc, options, "depth-map")?,
        alpha: name_at(alloc, options, "alpha")?,
        metadata: name_at(alloc, options, "metadata")?,
        recon: name_at(alloc, options, "recon")?,
        tile_qp: name_at(alloc, options, "tile-qp")?,
    })
}

/// The QPs, the quantisation matrices and the size of a tile that are given.
#[derive(Clone, Copy)]
struct Coding {
    qp: Option<u32>,
    limit: Option<u32>,
    qp_min: Option<u32>,
    qp_max: Option<u32>,
    qp_offset_1: i8,
    qp_offset_2: i8,
    qp_offset_3: i8,
    matrix_0: Option<Matrix>,
    matrix_1: Option<Matrix>,
    matrix_2: Option<Matrix>,
    matrix_3: Option<Matrix>,
    tile_width: Option<u32>,
    tile_height: Option<u32>,
}

/// The QPs, the quantisation matrices and the size of a tile that are given.
fn coding_at(options: &Options<'_>) -> Coding
    requires rows { HasRows enc_table (table_in options.now) }
    requires sound { fault_in options.now ≡ None }
    ensures { result ≡ coding_by (value_in options.now) }
{
    Coding {
        qp: number_at(options, "qp", QPS),
        limit: number_at(options, "limit", LIMITS),
        qp_min: number_at(options, "qp-min", QPS),
        qp_max: number_at(options, "qp-max", QPS),
        qp_offset_1: offset_at(options, "qp-offset-1"),
        qp_offset_2: offset_at(options, "qp-offset-2"),
        qp_offset_3: offset_at(options, "qp-offset-3"),
        matrix_0: matrix_at(options, "matrix-0"),
        matrix_1: matrix_at(options, "matrix-1"),
        matrix_2: matrix_at(options, "matrix-2"),
        matrix_3: matrix_at(options, "matrix-3"),
        tile_width: number_at(options, "tile-width", TILE_WIDTHS),
        tile_height: number_at(options, "tile-height", TILE_HEIGHTS),
    }
}

/// The settings that options without a fault are.
fn settings(files: Files, options: &Options<'_>) -> EncSettings
    requires rows { HasRows enc_table (table_in options.now) }
    requires sound { fault_in options.now ≡ None }
    requires files { files ≡ files_by (value_in options.now) }
    ensures { result ≡ enc_settings_by (value_in options.now) (given_in options.now) }
{
    let coding = coding_at(options);
    EncSettings {
        generate: number_at(options, "generate", SEEDS),
        input: files.input,
        output: files.output,
        form: form_at(options),
        width: number_at(options, "width", SIZES),
        height: number_at(options, "height", SIZES),
        chroma: chroma_at(options),
        depth: number_at(options, "depth", DEPTHS),
        profile: profile_at(options),
        level: level_at(options),
        band: number_or(options, "band", BANDS, 0),
        qp: coding.qp,
        limit: coding.limit,
        qp_min: coding.qp_min,
        qp_max: coding.qp_max,
        qp_offset_1: coding.qp_offset_1,
        qp_offset_2: coding.qp_offset_2,
        qp_offset_3: coding.qp_offset_3,
        matrix_0: coding.matrix_0,
        matrix_1: coding.matrix_1,
        matrix_2: coding.matrix_2,
        matrix_3: coding.matrix_3,
        colour: colour_at(options),
        tile_width: coding.tile_width,
        tile_height: coding.tile_height,
        tile_sizes: options.is_given("tile-sizes"),
        preview: files.preview,
        depth_map: files.depth_map,
        alpha: files.alpha,
        preview_width: number_at(options, "preview-width", SIZES),
        preview_height: number_at(options, "preview-height", SIZES),
        metadata: files.metadata,
        au_info: options.is_given("au-info"),
        filler: number_at(options, "filler", FILLERS),
        recon: files.recon,
        tile_qp: files.tile_qp,
        threads: number_or(options, "threads", THREADS, 1),
    }
}

/// The settings of the encoder that the words of its command line ask for, or why they are refused.
///
/// This is the call by which a program reads its command line: `words` are those after the program's
/// name. All options are taken but `--digest`, which is refused as an unknown word. There is an input
/// exactly where no video is generated, and an output then; a generated video is planar. There is a QP
/// exactly where there is no limit. The size of the preview is given exactly where its file is named,
/// and each number is within the bounds of its option. `Usage` comes exactly where the words have that
/// fault, and `Memory` may come at any words.
pub fn settings_enc(alloc: Global, words: &[String]) -> Result<EncSettings, WordsEnd>
    ensures settings { IfOk result (HasEncSettings built_enc_table (map string_bytes words.now)) }
    ensures bounds { IfOk result (λ settings. HasEncBounds settings) }
    ensures files { IfOk result (λ settings. HasEncFiles settings) }
    ensures refused { IfErr result (Refuses
        (HasFault built_enc_table (map string_bytes words.now))) }
{
    let Ok(texts) = after_program(alloc, words) else {
        return Err(WordsEnd::Memory);
    };
    let options = match read_sound(alloc, enc_built_options(), texts.as_slice()) {
        Ok(options) => options,
        Err(end) => return Err(end),
    };
    match files_at(alloc, &options) {
        Ok(files) => Ok(settings(files, &options)),
        Err(_) => Err(WordsEnd::Memory),
    }
}
