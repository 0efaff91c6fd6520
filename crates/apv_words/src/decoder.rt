//! The options of the decoder and its settings.
ghost use Rattle.std.specs.Prelude.{◌≡◌, ◌≤◌, ◌∷◌, [], IfErr, IfOk, None, Some, codes, map};
ghost use Rattle.std.specs.Prelude.{is_some, string_bytes, true};
ghost use Rattle.std.specs.Option.{option_map_or};
ghost use Rattle.apv_base.specs.declared.options.Select.TheVariants.{Primary};
ghost use Rattle.apv_words.specs.Decoder.{HasSettings, dec_table, rate_of as rate_of_lem};
ghost use Rattle.apv_words.specs.Decoder.{select_of, settings_by as settings_by_lem};
ghost use Rattle.apv_words.specs.Ends.{Refuses};
ghost use Rattle.apv_words.specs.Fault.{HasFault};
ghost use Rattle.apv_words.specs.Options.{fault_in, given_in, table_in, value_in};
ghost use Rattle.apv_words.specs.Settings.{HasRows};
ghost use Rattle.apv_words.specs.Table.{Text, is_table};
ghost use Rattle.apv_words.specs.Values.{are_within};
ghost use Rattle.apv_words.specs.View.{table_view};

use crate::given::{form_at, name_at, number_at, read_sound};
use crate::reading::{Options, after_program};
use crate::table::OptRow;
use crate::tables::{GROUPS, RATES, THREADS, dec_options};
use crate::values::{halves, within};
use apv_base::{Form, Name, Select, WordsEnd};
use std::alloc::{AllocError, Global};

/// What the words of the decoder ask for.
#[derive(Debug, Drop)]
pub struct DecSettings {
    pub input: Option<Name>,
    /// Without it no picture is written.
    pub output: Option<Name>,
    /// Without it no metadata is written.
    pub metadata: Option<Name>,
    pub select: Select,
    /// The frames of this group only.
    pub group: Option<u32>,
    pub form: Form,
    /// N frames in n seconds.
    pub rate: (u32, u32),
    pub threads: u32,
    pub strict: bool,
}

/// The frames that are selected.
fn select_at(options: &Options<'_>) -> Select
    ensures { result ≡ option_map_or select_of (value_in options.now (codes "select")) Primary }
{
    match options.value("select") {
        Some("non-primary") => Select::NonPrimary,
        Some("preview") => Select::Preview,
        Some("depth") => Select::Depth,
        Some("alpha") => Select::Alpha,
        Some("all") => Select::All,
        Some(_) | None => Select::Primary,
    }
}

/// The two numbers of a rate.
fn rate_of(text: &str) -> (u32, u32)
    requires { are_within 58 (RATES ∷ RATES ∷ []) text.now ≡ true }
    ensures { result ≡ rate_of_lem text.now }
{
    let Some((before, after)) = halves(':', text) else {
        return (30, 1);
    };
    match (within(RATES, before), within(RATES, after)) {
        (Some(before), Some(after)) => (before, after),
        _ => (30, 1),
    }
}

/// The rate that is given, or 30 frames a second.
fn rate_at(options: &Options<'_>) -> (u32, u32)
    requires { (text : Text) → value_in options.now (codes "rate") ≡ Some text
        → are_within 58 (RATES ∷ RATES ∷ []) text ≡ true }
    ensures { result ≡ option_map_or rate_of_lem (value_in options.now (codes "rate")) (30, 1) }
{
    match options.value("rate") {
        Some(text) => rate_of(text),
        None => (30, 1),
    }
}

/// The settings that options without a fault are.
fn settings(alloc: Global, options: &Options<'_>) -> Result<DecSettings, AllocError>
    requires rows { HasRows dec_table (table_in options.now) }
    requires sound { fault_in options.now ≡ None }
    ensures { IfOk result (λ settings.
        settings ≡ settings_by_lem (value_in options.now) (given_in options.now)) }
{
    Ok(DecSettings {
        input: name_at(alloc, options, "input")?,
        output: name_at(alloc, options, "output")?,
        metadata: name_at(alloc, options, "metadata")?,
        select: select_at(options),
        group: number_at(options, "group", GROUPS),
        form: form_at(options),
        rate: rate_at(options),
        threads: number_at(options, "threads", THREADS).unwrap_or(1),
        strict: options.is_given("strict"),
    })
}

/// The settings that the words of a command line ask for by a table of options, which are some of
/// the decoder's in their order, or why the words are refused.
fn settings_by(alloc: Global, table: &[OptRow], words: &[String]) -> Result<DecSettings, WordsEnd>
    requires table { is_table (table_view table.now) ≡ true }
    requires rows { HasRows dec_table (table_view table.now) }
    ensures settings { IfOk result
        (HasSettings (table_view table.now) (map string_bytes words.now)) }
    ensures refused { IfErr result (Refuses
        (HasFault (table_view table.now) (map string_bytes words.now))) }
{
    let Ok(texts) = after_program(alloc, words) else {
        return Err(WordsEnd::Memory);
    };
    let options = match read_sound(alloc, table, texts.as_slice()) {
        Ok(options) => options,
        Err(end) => return Err(end),
    };
    match settings(alloc, &options) {
        Ok(settings) => Ok(settings),
        Err(_) => Err(WordsEnd::Memory),
    }
}

/// The settings of the decoder that the words of its command line ask for, or why they are refused.
/// There is always an input, and there are 1 to 64 threads. `Usage` comes exactly where the words
/// have that fault, and `Memory` may come at any words.
pub fn settings_dec(alloc: Global, words: &[String]) -> Result<DecSettings, WordsEnd>
    ensures settings { IfOk result (HasSettings dec_table (map string_bytes words.now)) }
    ensures input { IfOk result (λ settings. is_some settings.input ≡ true) }
    ensures threads { IfOk result (λ settings. (1 ≤ settings.threads) × (settings.threads ≤ 64)) }
    ensures refused { IfErr result (Refuses (HasFault dec_table (map string_bytes words.now))) }
{
    settings_by(alloc, dec_options(), words)
}
