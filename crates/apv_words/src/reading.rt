//! Words that can be cut, read with `clap`.
ghost use Rattle.std.specs.Prelude.{◌≡◌, ◌<◌, ◌∷◌, map, string_bytes, IfErr, IfOk, List};
ghost use Rattle.std.specs.Prelude.{true, false, codes, drop, length};
ghost use Rattle.std.specs.Prelude.{option_map};
ghost use Rattle.clap.specs.Simple.{app_of};
ghost use Rattle.clap.specs.Walk.{rule_of};
ghost use Rattle.apv_base.specs.declared.options.WordsEnd.TheVariants.{Memory};
ghost use Rattle.apv_words.specs.Table.{Text, is_table, takes_value};
ghost use Rattle.apv_base.specs.declared.options.UsageKind.TheVariants.{Words};
ghost use Rattle.apv_words.specs.Cut.{Cut, NoCut, Pair};
ghost use Rattle.apv_words.specs.Ends.{Refuses};
ghost use Rattle.apv_words.specs.View.{kind_view, table_view, texts_of};
ghost use Rattle.apv_words.specs.Options.{HasPairs, given_in, value_in};
ghost use Rattle.apv_words.specs.Clap.{IsAfterProgram, app_for, plain_rule};

use crate::cutting::{cut, find_row};
use crate::table::OptRow;
use apv_base::WordsEnd;
use clap::error::ErrorKind;
use clap::parser::ValueSource;
use clap::{Arg, ArgAction, ArgMatches, Command};
use std::alloc::{AllocError, Global};

/// The options of a command line, as `clap` has found them.
#[derive(Debug, Drop)]
pub struct Options<'a> {
    pub(crate) table: &'a [OptRow],
    pub(crate) matches: ArgMatches<'a>,
}

/// The argument of an option. It is never required and excludes nothing.
fn argument<'a>(alloc: Global, row: &OptRow) -> Arg<'a>
    ensures rule { rule_of result
        ≡ plain_rule row.now.name.now (takes_value (kind_view row.now.kind)) }
    ensures local { result.global ≡ false }
{
    let action = if row.kind.takes_value() {
        ArgAction::Set
    } else {
        ArgAction::SetTrue
    };
    Arg::new(alloc, row.name).long(row.name).action(action)
}

/// The command of the options, without help and version.
fn command<'a>(alloc: Global, table: &[OptRow]) -> Result<Command<'a>, AllocError>
    ensures { IfOk result (λ command.
        app_of command ≡ app_for (codes "apv") (table_view table.now)) }
{
    let mut command = Command::new(alloc, "apv")
        .disable_help_flag(true)
        .disable_version_flag(true);
    for row in table {
        command = command.arg(argument(alloc, row))?;
    }
    Ok(command)
}

/// The words after a fixed word in the place of the program's name.
pub fn after_program<'a>(alloc: Global, words: &'a [String]) -> Result<Vec<&'a str>, AllocError>
    ensures { IfOk result (λ texts.
        texts_of texts.items ≡ codes "apv" ∷ map string_bytes words.entry.now) }
{
    let mut texts = Vec::new(alloc);
    texts.push("apv")?;
    for word in words {
        texts.push(word.as_str())?;
    }
    Ok(texts)
}

/// What `clap` finds in words that can be cut, after the program's name. It refuses them only
/// where memory runs out.
fn parse<'a>(
    alloc: Global,
    table: &'a [OptRow],
    words: &'a [&'a str],
) -> Result<Options<'a>, WordsEnd>
    requires table { is_table (table_view table.now) ≡ true }
    requires cut { (rest : List Text) × (pairs : List Pair)
        × IsAfterProgram rest (texts_of words.now) × Cut (table_view table.now) rest pairs }
    ensures found { IfOk result (λ options. (rest : List Text) (pairs : List Pair)
        → IsAfterProgram rest (texts_of words.entry.now)
        → Cut (table_view table.entry.now) rest pairs
        → HasPairs rest options pairs) }
    ensures table { IfOk result (λ options. options.table.now ≡ table.entry.now) }
    ensures memory { IfErr result (λ end. end ≡ Memory) }
{
    let Ok(command) = command(alloc, table) else {
        return Err(WordsEnd::Memory);
    };
    match command.try_get_matches_from(words) {
        Ok(matches) => Ok(Options { table, matches }),
        Err(error) => {
            let is_memory = error.kind() == ErrorKind::OutOfMemory;
            prove!(is_memory);
            Err(WordsEnd::Memory)
        }
    }
}

/// The options that the words after the program's name give. They are refused exactly where they
/// can't be cut into options of the table, each of which occurs once.
pub fn read<'a>(
    alloc: Global,
    table: &'a [OptRow],
    words: &'a [&'a str],
) -> Result<Options<'a>, WordsEnd>
    requires table { is_table (table_view table.now) ≡ true }
    requires program { 0 < length words.now }
    ensures found { IfOk result (λ options. (pairs : List Pair)
        × HasPairs (drop 1 (texts_of words.entry.now)) options pairs) }
    ensures table { IfOk result (λ options. options.table.now ≡ table.entry.now) }
    ensures refused { IfErr result (Refuses (λ kind. (kind ≡ Words)
        × NoCut (table_view table.entry.now) (drop 1 (texts_of words.entry.now)))) }
{
    let (_, rest) = words.split_at(1);
    if let Err(end) = cut(alloc, table, rest) {
        return Err(end);
    }
    parse(alloc, table, words)
}

impl<'a> Options<'a> {
    /// The value of the option of that name.
    pub fn value(&self, name: &str) -> Option<&'a str>
        ensures { option_map (λ text. text.now) result ≡ value_in self.now name.now }
    {
        let row = find_row(self.table, name)?;
        if row.kind.takes_value() {
            self.matches.get_str(name)
        } else {
            None
        }
    }

    /// Whether the option of that name is given.
    pub fn is_given(&self, name: &str) -> bool
        ensures { result ≡ given_in self.now name.now }
    {
        matches!(
            self.matches.value_source(name),
            Some(ValueSource::CommandLine)
        )
    }
}
