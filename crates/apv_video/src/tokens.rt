//! The tokens of a header line.
ghost use Rattle.std.specs.Prelude.{◌≡◌, ◌≢◌, ℕ, ◌+◌, ◌<◌, ◌≤◌, [], length, drop, slice_index, slice_range, IfSome, IfNone, MatchOption};
ghost use Rattle.apv_base.specs.model.Video.{IsSize};
ghost use Rattle.apv_video.specs.Tokens.{HasNoSpace, HasTokenAt, IsFound, letter_tokens};

/// The tokens that begin with a letter.
///
/// - `Missing`: there is none.
/// - `One`: there is one.
/// - `Twice`: there is more than one.
pub(crate) enum Found<'a> {
    Missing,
    One(&'a [u8]),
    Twice,
}

/// The end of the token that begins at a place: the next space, or the end of the bytes.
fn token_end(bytes: &[u8], first: usize) -> usize
    requires { first ≤ length bytes.now }
    ensures from { first ≤ result }
    ensures inside { result ≤ length bytes.now }
    ensures token { HasNoSpace (slice_range bytes.now first result) }
    ensures end { result < length bytes.now → slice_index bytes.now result ≡ 32 }
{
    let mut end = first;
    while end < bytes.len() {
        if bytes[end] == b' ' {
            return end;
        }
        end += 1;
    }
    end
}

/// The first token that begins with a letter, among those that begin at a place or after it: its place and its end.
fn find_token(bytes: &[u8], letter: u8, first: usize) -> Option<(usize, usize)>
    requires letter { 32 < letter }
    requires place { first ≤ length bytes.now + 1 }
    ensures { MatchOption result (letter_tokens letter (drop first bytes.now) ≡ [])
        (λ found. HasTokenAt letter bytes.now first found.0 found.1) }
{
    let mut place = first;
    while place < bytes.len() {
        let end = token_end(bytes, place);
        if bytes[place] == letter {
            return Some((place, end));
        }
        place = end + 1;
    }
    None
}

/// The tokens that begin with a letter.
pub(crate) fn find_tokens(bytes: &[u8], letter: u8) -> Found<'_>
    requires { 32 < letter }
    ensures { IsFound (letter_tokens letter bytes.now) result }
{
    let Some((first, end)) = find_token(bytes, letter, 0) else {
        return Found::Missing;
    };
    if find_token(bytes, letter, end + 1).is_some() {
        return Found::Twice;
    }
    Found::One(&bytes[first..end])
}

/// The number that 1 to 8 decimal digits after a letter are.
pub(crate) fn size_of(token: &[u8]) -> Option<u32>
    ensures some { IfSome result (λ size. IsSize token.now size) }
    ensures none { IfNone result ((size : ℕ) → ¬ IsSize token.now size) }
{
    if token.len() < 2 || token.len() > 9 {
        return None;
    }
    let (_, digits) = token.split_at(1);
    let mut size = 0;
    for digit in digits {
        if *digit < b'0' || *digit > b'9' {
            return None;
        }
        size = 10 * size + u32::from(*digit - b'0');
    }
    Some(size)
}
