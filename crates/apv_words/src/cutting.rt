//! Words, cut into options and their values.
ghost use Rattle.std.specs.Prelude.{◌≡◌, IfErr, IfOk, map, true, option_map};
ghost use Rattle.std.specs.List.{list_any};
ghost use Rattle.std.specs.Str.{bytes_eq};
ghost use Rattle.apv_base.specs.declared.options.UsageKind.TheVariants.{Words};
ghost use Rattle.apv_words.specs.Table.{is_table, row_by_name};
ghost use Rattle.apv_words.specs.Cut.{Cut, NoCut};
ghost use Rattle.apv_words.specs.FirstOption.{first_view, first_option, option_of, pairs_at};
ghost use Rattle.apv_words.specs.FirstOption.{with_own as with_own_lem};
ghost use Rattle.apv_words.specs.View.{row_view, table_view, text_of, texts_of};
ghost use Rattle.apv_words.specs.Ends.{Refuses};

use crate::table::OptRow;
use crate::word::{flag, stands_alone};
use apv_base::{UsageKind, WordsEnd};
use std::alloc::Global;

/// An option that is given, and its value. A flag has none.
#[derive(Clone, Copy, Debug)]
pub struct Given<'a> {
    /// The name, without the two dashes.
    pub name: &'static str,
    pub value: Option<&'a str>,
}

/// The first option of that name.
pub(crate) fn find_row<'a>(table: &'a [OptRow], name: &str) -> Option<&'a OptRow>
    ensures { option_map (λ row. row_view row.now) result
        ≡ row_by_name (table_view table.now) name.now }
{
    for row in table {
        if row.name == name {
            return Some(row);
        }
    }
    None
}

/// An option with the next word as its value.
fn with_own<'a>(name: &'static str, next: Option<&'a str>) -> Option<(Given<'a>, usize)>
    ensures { option_map first_view result ≡ with_own_lem name.now (text_of next.entry) }
{
    let own = next?;
    if stands_alone(own) {
        Some((
            Given {
                name,
                value: Some(own),
            },
            2,
        ))
    } else {
        None
    }
}

/// The option whose first word is `first`, where `next` follows, and how many words it and its
/// value are.
fn option_at<'a>(
    table: &[OptRow],
    first: &'a str,
    next: Option<&'a str>,
) -> Option<(Given<'a>, usize)>
    ensures { option_map first_view result
        ≡ option_of (table_view table.now) first.now (text_of next.entry) }
{
    let (name, value) = flag(first)?;
    let row = find_row(table, name)?;
    match (row.kind.takes_value(), value) {
        (false, None) | (true, Some(_)) => Some((
            Given {
                name: row.name,
                value,
            },
            1,
        )),
        (false, Some(_)) => None,
        (true, None) => with_own(row.name, next),
    }
}

/// The option at the start of the words, and how many words it and its value are.
fn first_option<'a>(table: &[OptRow], words: &[&'a str]) -> Option<(Given<'a>, usize)>
    ensures { option_map first_view result
        ≡ first_option (table_view table.now) (texts_of words.now) }
{
    match words {
        [] => None,
        [first] => option_at(table, first, None),
        [first, next, ..] => option_at(table, first, Some(next)),
    }
}

/// Whether an option of that name is given.
fn is_among(givens: &[Given<'_>], name: &str) -> bool
    ensures { result ≡ list_any (λ given. bytes_eq given.name.now name.now) givens.now }
{
    givens.iter().any(|given| given.name == name)
}

/// The options that the words give, with their values, in their order. The words are refused
/// exactly where they can't be cut into options of the table, each of which occurs once.
pub fn cut<'a>(
    alloc: Global,
    table: &[OptRow],
    words: &[&'a str],
) -> Result<Vec<Given<'a>>, WordsEnd>
    requires { is_table (table_view table.now) ≡ true }
    ensures cut { IfOk result (λ givens.
        Cut (table_view table.now) (texts_of words.now) (pairs_at givens.items)) }
    ensures refused { IfErr result (Refuses (λ kind.
        (kind ≡ Words) × NoCut (table_view table.now) (texts_of words.now))) }
{
    let mut givens = Vec::new(alloc);
    let mut taken = 0;
    while taken < words.len() {
        let (_, rest) = words.split_at(taken);
        let Some((given, n)) = first_option(table, rest) else {
            return Err(WordsEnd::Usage(UsageKind::Words));
        };
        if is_among(&givens, given.name) {
            return Err(WordsEnd::Usage(UsageKind::Words));
        }
        if givens.push(given).is_err() {
            return Err(WordsEnd::Memory);
        }
        taken += n;
    }
    Ok(givens)
}
