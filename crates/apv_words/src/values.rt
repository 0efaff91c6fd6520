//! The values of options.
ghost use Rattle.std.specs.Prelude.{◌≡◌, ◌≤◌, ◌<◌, ◌∷◌, ◌&&◌, [], None, Some, if◌then◌else◌};
ghost use Rattle.std.specs.Prelude.{length, nat_le, option_map, true};
ghost use Rattle.std.specs.List.{list_all};
ghost use Rattle.std.specs.Str.{bytes_eq};
ghost use Rattle.clap.specs.Lexer.{without_minus};
ghost use Rattle.apv_words.specs.Encoder.{numbers_of};
ghost use Rattle.apv_words.specs.Values.{are_within as are_within_lem, halves_of, is_byte};
ghost use Rattle.apv_words.specs.Values.{is_choice as is_choice_lem, is_good as is_good_lem};
ghost use Rattle.apv_words.specs.Values.{is_number, is_signed as is_signed_lem};
ghost use Rattle.apv_words.specs.Values.{is_smaller as is_smaller_lem};
ghost use Rattle.apv_words.specs.Values.{is_within as is_within_lem, number_of};
ghost use Rattle.apv_words.specs.View.{kind_view, texts_of};

use crate::table::{Bounds, Kind};
use crate::word::strip_dash;

/// The number that at most n decimal digits are, and at least one.
pub fn number(text: &str, digits: usize) -> Option<u64>
    requires { digits ≤ 10 }
    ensures { result ≡ (if is_number digits text.now then Some (number_of text.now) else None) }
{
    let bytes = text.as_bytes();
    if bytes.is_empty() || bytes.len() > digits {
        return None;
    }
    let mut value: u64 = 0;
    for byte in bytes {
        if !byte.is_ascii_digit() {
            return None;
        }
        value = 10 * value + u64::from(*byte - b'0');
    }
    Some(value)
}

/// The number of 1 to 10 digits within the bounds.
pub fn within(bounds: Bounds, text: &str) -> Option<u32>
    ensures { result ≡ (if is_within_lem bounds text.now then Some (number_of text.now) else None) }
{
    let value = number(text, 10)?;
    if value < u64::from(bounds.minimum) || value > u64::from(bounds.maximum) {
        return None;
    }
    Some(value as u32)
}

/// Whether both are numbers of 1 to 10 digits, and the first is the smaller one.
pub fn is_smaller(own: &str, other: &str) -> bool
    ensures { result ≡ is_smaller_lem own.now other.now }
{
    match (number(own, 10), number(other, 10)) {
        (Some(own), Some(other)) => own < other,
        _ => false,
    }
}

/// The texts before and after the first separator.
pub fn halves(separator: char, text: &str) -> Option<(&str, &str)>
    requires { separator < 128 }
    ensures { option_map (λ p. (p.0.now, p.1.now)) result ≡ halves_of separator text.now }
{
    text.split_once(separator)
}

/// Whether the text is numbers, each within its bounds, with a separator between them.
pub fn are_within(separator: char, bounds: &[Bounds], text: &str) -> bool
    requires { separator < 128 }
    ensures { result ≡ are_within_lem separator bounds.now text.now }
{
    match bounds {
        [] => false,
        [last] => within(*last, text).is_some(),
        [first, more @ ..] => match halves(separator, text) {
            Some((before, after)) => {
                within(*first, before).is_some() && are_within(separator, more, after)
            }
            None => false,
        },
    }
}

/// The number within the bounds, whose maximum is that of a byte.
fn byte(bounds: Bounds, text: &str) -> u8
    requires within { is_within_lem bounds text.now ≡ true }
    requires byte { is_byte bounds ≡ true }
    ensures { result ≡ number_of text.now }
{
    match within(bounds, text) {
        Some(number) => number as u8,
        None => 0,
    }
}

/// Reads numbers with commas between them, each within its bounds, whose maximum is that of a byte.
pub fn read_bytes(bounds: &[Bounds], text: &str, numbers: &mut [u8])
    requires within { are_within_lem 44 bounds.now text.now ≡ true }
    requires bytes { list_all is_byte bounds.now ≡ true }
    requires count { length numbers.old ≡ length bounds.now }
    ensures { numbers.new ≡ numbers_of bounds.now text.now }
{
    let Some((number, others)) = numbers.split_first_mut() else {
        return;
    };
    match bounds {
        [] => {}
        [last] => *number = byte(*last, text),
        [first, more @ ..] => {
            if let Some((before, after)) = halves(',', text) {
                *number = byte(*first, before);
                read_bytes(more, after, others);
            }
        }
    }
}

/// Whether the text is one or two digits with an optional `-` before them, up to that size.
pub fn is_signed(size: u32, text: &str) -> bool
    ensures { result ≡ is_signed_lem size text.now }
{
    let digits = match strip_dash(text) {
        Some(digits) => digits,
        None => text,
    };
    match number(digits, 2) {
        Some(value) => value <= u64::from(size),
        None => false,
    }
}

/// Whether the text is one of the choices.
pub fn is_choice(choices: &[&str], text: &str) -> bool
    ensures { result ≡ is_choice_lem (texts_of choices.now) text.now }
{
    for choice in choices {
        if *choice == text {
            return true;
        }
    }
    false
}

/// Whether the value is good for an option of that kind.
pub fn is_good(kind: Kind, text: &str) -> bool
    ensures { result ≡ is_good_lem (kind_view kind) text.now }
{
    match kind {
        Kind::Flag => false,
        Kind::Name => !text.is_empty() && text != "-",
        Kind::NameOrDash => !text.is_empty(),
        Kind::Number(bounds) => within(bounds, text).is_some(),
        Kind::Ratio(bounds) => are_within(':', &[bounds, bounds], text),
        Kind::List(bounds) => are_within(',', bounds, text),
        Kind::Signed(size) => is_signed(size, text),
        Kind::Choice(choices) => is_choice(choices, text),
    }
}
