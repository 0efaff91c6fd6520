//! A table of options.
ghost use Rattle.std.specs.Prelude.{◌≡◌};
ghost use Rattle.apv_words.specs.Table.{takes_value};
ghost use Rattle.apv_words.specs.View.{kind_view};

use apv_base::Opt;

/// The minimum and the maximum number that is permitted.
#[derive(Clone, Copy, Debug)]
pub struct Bounds {
    pub minimum: u32,
    pub maximum: u32,
}

/// What the value of an option is.
///
/// - `Flag`: there is no value.
/// - `Name`: the name of a file.
/// - `NameOrDash`: the name of a file, or `-` for standard input or output.
/// - `Number`: a number.
/// - `Ratio`: two numbers with a colon between them.
/// - `List`: numbers with commas between them.
/// - `Signed`: a number of one or two digits with an optional `-` before it, up to this size.
/// - `Choice`: one of these texts.
#[derive(Clone, Copy, Debug)]
pub enum Kind {
    Flag,
    Name,
    NameOrDash,
    Number(Bounds),
    Ratio(Bounds),
    List(&'static [Bounds]),
    Signed(u32),
    Choice(&'static [&'static str]),
}

impl Kind {
    /// Whether the option takes a value.
    pub fn takes_value(self) -> bool
        ensures { result ≡ takes_value (kind_view self) }
    {
        !matches!(self, Kind::Flag)
    }
}

/// A condition of an option on another one, which it names without the two dashes.
///
/// - `With`: the other option is given.
/// - `Without`: the other option isn't given.
/// - `HasValue`: the other option has that value.
/// - `LacksValue`: the other option has another value, or isn't given.
/// - `Below`: the option's own number is below the number of the other one. No number is below one that isn't given,
///   as none is below 0.
#[derive(Clone, Copy, Debug)]
pub enum Condition {
    With(&'static str),
    Without(&'static str),
    HasValue(&'static str, &'static str),
    LacksValue(&'static str, &'static str),
    Below(&'static str),
}

/// Whether an option is required.
///
/// - `RequiredWhere`: it is required where all of these conditions hold.
#[derive(Clone, Copy, Debug)]
pub enum Requirement {
    Optional,
    Required,
    RequiredWhere(&'static [Condition]),
}

/// An option of a program.
#[derive(Clone, Copy, Debug)]
pub struct OptRow {
    /// The option that a refusal names.
    pub opt: Opt,
    /// Its name, without the two dashes.
    pub name: &'static str,
    pub kind: Kind,
    pub requirement: Requirement,
    /// Where it is given, none of these conditions may hold.
    pub clashes: &'static [Condition],
}
