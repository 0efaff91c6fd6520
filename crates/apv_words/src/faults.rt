//! Why options that are given are refused.
ghost use Rattle.std.specs.Prelude.{◌≡◌, option_map};
ghost use Rattle.std.specs.List.{list_all, list_any};
ghost use Rattle.std.specs.Str.{bytes_eq};
ghost use Rattle.apv_words.specs.Fault.{file_names, is_bad, is_below, is_clashing, is_missing};
ghost use Rattle.apv_words.specs.Fault.{is_required_by, is_value, own_name};
ghost use Rattle.apv_words.specs.Options.{condition_in, fault_in, first_in, given_in, holds_in};
ghost use Rattle.apv_words.specs.Options.{value_in};
ghost use Rattle.apv_words.specs.Table.{repeats};
ghost use Rattle.apv_words.specs.View.{condition_view, conditions_view, kind_view};
ghost use Rattle.apv_words.specs.View.{requirement_view, row_view, table_view};

use crate::reading::Options;
use crate::table::{Condition, Kind, OptRow, Requirement};
use crate::values::{is_good, is_smaller};
use apv_base::{Opt, UsageKind};

impl<'a> Options<'a> {
    /// Whether the option of the row has a bad value.
    fn is_bad(&self, row: &OptRow) -> bool
        ensures { result ≡ holds_in is_bad self.now (row_view row.now) }
    {
        match self.value(row.name) {
            Some(text) => !is_good(row.kind, text),
            None => false,
        }
    }

    /// Whether the option has that value.
    fn has_value(&self, name: &str, text: &str) -> bool
        ensures { result ≡ is_value text.now (value_in self.now name.now) }
    {
        match self.value(name) {
            Some(value) => text == value,
            None => false,
        }
    }

    /// Whether the number of the option is below that of another one.
    fn is_below(&self, name: &str, other: &str) -> bool
        ensures { result ≡ is_below (value_in self.now name.now) (value_in self.now other.now) }
    {
        match (self.value(name), self.value(other)) {
            (Some(own), Some(other)) => is_smaller(own, other),
            _ => false,
        }
    }

    /// Whether the condition holds for the option of that name.
    fn holds(&self, name: &str, condition: Condition) -> bool
        ensures { result ≡ condition_in self.now name.now (condition_view condition) }
    {
        match condition {
            Condition::With(other) => self.is_given(other),
            Condition::Without(other) => !self.is_given(other),
            Condition::HasValue(other, text) => self.has_value(other, text),
            Condition::LacksValue(other, text) => !self.has_value(other, text),
            Condition::Below(other) => self.is_below(name, other),
        }
    }

    /// Whether one of the conditions holds for the option of that name.
    fn holds_any(&self, name: &str, conditions: &[Condition]) -> bool
        ensures { result
            ≡ list_any (condition_in self.now name.now) (conditions_view conditions.now) }
    {
        for condition in conditions {
            if self.holds(name, *condition) {
                return true;
            }
        }
        false
    }

    /// Whether all of the conditions hold for the option of that name.
    fn holds_all(&self, name: &str, conditions: &[Condition]) -> bool
        ensures { result
            ≡ list_all (condition_in self.now name.now) (conditions_view conditions.now) }
    {
        for condition in conditions {
            if !self.holds(name, *condition) {
                return false;
            }
        }
        true
    }

    /// Whether the option of that name is required.
    fn is_required(&self, name: &str, requirement: Requirement) -> bool
        ensures { result ≡ is_required_by (value_in self.now) (given_in self.now) name.now
            (requirement_view requirement) }
    {
        match requirement {
            Requirement::Optional => false,
            Requirement::Required => true,
            Requirement::RequiredWhere(conditions) => self.holds_all(name, conditions),
        }
    }

    /// Whether the option of the row is required and isn't given.
    fn is_missing(&self, row: &OptRow) -> bool
        ensures { result ≡ holds_in is_missing self.now (row_view row.now) }
    {
        self.is_required(row.name, row.requirement) && !self.is_given(row.name)
    }

    /// Whether the option of the row is given and clashes with another one.
    fn is_clashing(&self, row: &OptRow) -> bool
        ensures { result ≡ holds_in is_clashing self.now (row_view row.now) }
    {
        self.is_given(row.name) && self.holds_any(row.name, row.clashes)
    }

    /// The first option whose value is bad.
    fn first_bad(&self) -> Option<Opt>
        ensures { result ≡ first_in is_bad self.now }
    {
        for row in self.table {
            if self.is_bad(row) {
                return Some(row.opt);
            }
        }
        None
    }

    /// The first option that is missing.
    fn first_missing(&self) -> Option<Opt>
        ensures { result ≡ first_in is_missing self.now }
    {
        for row in self.table {
            if self.is_missing(row) {
                return Some(row.opt);
            }
        }
        None
    }

    /// The first option that clashes.
    fn first_clashing(&self) -> Option<Opt>
        ensures { result ≡ first_in is_clashing self.now }
    {
        for row in self.table {
            if self.is_clashing(row) {
                return Some(row.opt);
            }
        }
        None
    }

    /// The name of a file that the option of the row gives.
    fn file_name(&self, row: &OptRow) -> Option<&'a str>
        ensures { option_map (λ name. name.now) result
            ≡ own_name (kind_view row.now.kind) (value_in self.now row.now.name.now) }
    {
        let name = self.value(row.name)?;
        match row.kind {
            Kind::Name | Kind::NameOrDash if name != "-" => Some(name),
            _ => None,
        }
    }

    /// Whether one of the rows gives that name of a file.
    fn has_name(&self, rows: &[OptRow], name: &str) -> bool
        ensures { result ≡ list_any (bytes_eq name.now)
            (file_names (value_in self.now) (table_view rows.now)) }
    {
        for row in rows {
            if let Some(other) = self.file_name(row) {
                if name == other {
                    return true;
                }
            }
        }
        false
    }

    /// Whether two of the rows give the same name of a file.
    fn has_same_name(&self, rows: &[OptRow]) -> bool
        ensures { result ≡ repeats (file_names (value_in self.now) (table_view rows.now)) }
    {
        let [row, rest @ ..] = rows else {
            return false;
        };
        match self.file_name(row) {
            Some(name) => self.has_name(rest, name) || self.has_same_name(rest),
            None => self.has_same_name(rest),
        }
    }

    /// Why the options are refused: the first whose value is bad, that is missing or that clashes,
    /// each in the order of the table, or else two files of the same name.
    pub fn fault(&self) -> Option<UsageKind>
        ensures { result ≡ fault_in self.now }
    {
        if let Some(opt) = self.first_bad() {
            return Some(UsageKind::Value(opt));
        }
        if let Some(opt) = self.first_missing() {
            return Some(UsageKind::Missing(opt));
        }
        if let Some(opt) = self.first_clashing() {
            return Some(UsageKind::Clash(opt));
        }
        if self.has_same_name(self.table) {
            return Some(UsageKind::SameName);
        }
        None
    }
}
