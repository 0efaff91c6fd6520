//! What options that are given are: names, numbers and the form of pictures.
ghost use Rattle.std.specs.Prelude.{◌≡◌, ◌<◌, IfErr, IfOk, List, None, Some, codes, drop, length};
ghost use Rattle.std.specs.Prelude.{option_map, true};
ghost use Rattle.std.specs.Option.{option_map_or};
ghost use Rattle.apv_base.specs.declared.options.Form.TheVariants.{Planar};
ghost use Rattle.apv_words.specs.Cut.{Pair};
ghost use Rattle.apv_words.specs.Decoder.{form_of};
ghost use Rattle.apv_words.specs.Ends.{Refuses};
ghost use Rattle.apv_words.specs.Fault.{HasFault};
ghost use Rattle.apv_words.specs.Options.{HasPairs, fault_in, value_in};
ghost use Rattle.apv_words.specs.Table.{Text, is_table};
ghost use Rattle.apv_words.specs.Values.{is_within, number_of};
ghost use Rattle.apv_words.specs.View.{table_view, texts_of};

use crate::reading::{Options, read};
use crate::table::{Bounds, OptRow};
use crate::values::within;
use apv_base::{Form, Name, WordsEnd};
use std::alloc::{AllocError, Global};

/// The options without a fault that the words after the program's name give, or why the words are
/// refused.
pub(crate) fn read_sound<'a>(
    alloc: Global,
    table: &'a [OptRow],
    words: &'a [&'a str],
) -> Result<Options<'a>, WordsEnd>
    requires table { is_table (table_view table.now) ≡ true }
    requires program { 0 < length words.now }
    ensures found { IfOk result (λ options. (pairs : List Pair)
        × HasPairs (drop 1 (texts_of words.entry.now)) options pairs) }
    ensures sound { IfOk result (λ options. fault_in options ≡ None) }
    ensures table { IfOk result (λ options. options.table.now ≡ table.entry.now) }
    ensures refused { IfErr result (Refuses
        (HasFault (table_view table.entry.now) (drop 1 (texts_of words.entry.now)))) }
{
    let options = match read(alloc, table, words) {
        Ok(options) => options,
        Err(end) => return Err(end),
    };
    if let Some(kind) = options.fault() {
        return Err(WordsEnd::Usage(kind));
    }
    Ok(options)
}

/// The form of the pictures.
pub(crate) fn form_at(options: &Options<'_>) -> Form
    ensures { result ≡ option_map_or form_of (value_in options.now (codes "form")) Planar }
{
    match options.value("form") {
        Some("y4m") => Form::Y4m,
        Some(_) | None => Form::Planar,
    }
}

/// The name that is given.
pub(crate) fn name_at(
    alloc: Global,
    options: &Options<'_>,
    option: &str,
) -> Result<Option<Name>, AllocError>
    ensures { IfOk result (λ name. name ≡ value_in options.now option.now) }
{
    match options.value(option) {
        Some(text) => Ok(Some(Name::of(alloc, text)?)),
        None => Ok(None),
    }
}

/// The number that is given.
pub(crate) fn number_at(options: &Options<'_>, option: &str, bounds: Bounds) -> Option<u32>
    requires { (text : Text) → value_in options.now option.now ≡ Some text
        → is_within bounds text ≡ true }
    ensures { result ≡ option_map number_of (value_in options.now option.now) }
{
    within(bounds, options.value(option)?)
}

/// The number that is given, or another one.
pub(crate) fn number_or(options: &Options<'_>, option: &str, bounds: Bounds, other: u32) -> u32
    requires { (text : Text) → value_in options.now option.now ≡ Some text
        → is_within bounds text ≡ true }
    ensures { result ≡ option_map_or number_of (value_in options.now option.now) other }
{
    match number_at(options, option, bounds) {
        Some(number) => number,
        None => other,
    }
}
