//! The header line of a Y4M file, as it is read.
ghost use Rattle.std.specs.Prelude.{◌≡◌, ℕ, ◌<◌, ◌++◌, codes, IfSome, IfNone, MatchOption};
ghost use Rattle.apv_base.specs.model.Video.{is_bad_video_size};
ghost use Rattle.apv_video.specs.Header.{HasName, HasNoName, HasSize, IsNamed, IsJudged};

use crate::Tag;
use crate::end::{VideoEnd, bad_header};
use crate::tokens::{Found, find_tokens, size_of};
use apv_base::{Chroma, Format, Limit, MAX_MACROBLOCKS, VideoRule};

/// Why a line names no format.
///
/// - `Form`: it isn't a header line.
/// - `Tag`: it is one, without a tag that is known.
pub(crate) enum LineFault {
    Form,
    Tag,
}

/// What follows the name of the format, `YUV4MPEG2`, in a line: nothing, or a space and more.
fn after_name(line: &[u8]) -> Option<&[u8]>
    ensures { MatchOption result (HasNoName line.now) (λ rest. HasName line.now rest.now) }
{
    if line.len() < 9 {
        return None;
    }
    let (name, rest) = line.split_at(9);
    if name != b"YUV4MPEG2".as_slice() {
        return None;
    }
    if rest.is_empty() {
        return Some(rest);
    }
    if rest[0] != b' ' {
        return None;
    }
    Some(rest)
}

/// The number of the only token that begins with a letter.
fn size_after(rest: &[u8], letter: u8) -> Option<u32>
    requires { 32 < letter }
    ensures some { IfSome result (λ size. HasSize letter rest.now size) }
    ensures none { IfNone result ((size : ℕ) → HasSize letter rest.now size → ⊥) }
{
    match find_tokens(rest, letter) {
        Found::One(token) => size_of(token),
        Found::Missing | Found::Twice => None,
    }
}

/// The format that a line names.
fn format_of(line: &[u8]) -> Result<Format, LineFault>
    ensures { IsNamed line.now result }
{
    let Some(rest) = after_name(line) else {
        return Err(LineFault::Form);
    };
    let width = match size_after(rest, b'W') {
        Some(width) => width,
        None => return Err(LineFault::Form),
    };
    let height = match size_after(rest, b'H') {
        Some(height) => height,
        None => return Err(LineFault::Form),
    };
    let text = match find_tokens(rest, b'C') {
        Found::One(text) => text,
        Found::Missing => return Err(LineFault::Tag),
        Found::Twice => return Err(LineFault::Form),
    };
    match Tag::of(text) {
        Some(tag) => Ok(tag.format(width, height)),
        None => Err(LineFault::Tag),
    }
}

/// Whether the width or height is 0 or above 16,777,215, or the width is odd with 4:2:2.
pub fn is_bad_size(format: &Format) -> bool
    ensures { result ≡ is_bad_video_size format.now }
{
    format.width == 0
        || format.height == 0
        || (format.chroma == Chroma::C422 && format.width % 2 == 1)
        || format.width > 16777215
        || format.height > 16777215
}

/// The format of the header line of a Y4M file, or the first rule that it breaks.
pub(crate) fn judge_line(line: &[u8]) -> Result<Format, VideoEnd>
    ensures { IsJudged line.now result }
{
    let format = match format_of(line) {
        Ok(format) => format,
        Err(LineFault::Form) => return Err(bad_header(VideoRule::Header)),
        Err(LineFault::Tag) => return Err(bad_header(VideoRule::Tag)),
    };
    if is_bad_size(&format) {
        return Err(bad_header(VideoRule::Size));
    }
    let macroblocks = format.macroblocks();
    if macroblocks > MAX_MACROBLOCKS {
        return Err(VideoEnd::Limit(Limit::L2, macroblocks));
    }
    Ok(format)
}
