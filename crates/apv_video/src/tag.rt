//! The tags of formats in a Y4M file.
ghost use Rattle.std.specs.Prelude.{◌≡◌, length, Some, IfSome, IfNone};
ghost use Rattle.std.specs.Option.{option_map};
ghost use Rattle.apv_base.specs.model.Video.{tag_of as tag_of_lem};
ghost use Rattle.apv_video.specs.Tag.{tag_text, HasNoTag};

use apv_base::{Chroma, Format};

/// The tag of a format in the header of a Y4M file.
///
/// - `Mono10`: `Cmono10`, 4:0:0 at 10 bits.
/// - `P422D10`: `C422p10`, 4:2:2 at 10 bits.
/// - `P444D10`: `C444p10`, 4:4:4 at 10 bits.
/// - `P422D12`: `C422p12`, 4:2:2 at 12 bits.
/// - `P444D12`: `C444p12`, 4:4:4 at 12 bits.
#[derive(Clone, Copy, Debug, PartialEq, Eq)]
pub enum Tag {
    Mono10,
    P422D10,
    P444D10,
    P422D12,
    P444D12,
}

impl Tag {
    /// The text of the tag, seven bytes that begin with C.
    pub fn text(self) -> &'static str
        ensures text { result.now ≡ tag_text self }
        ensures size { length result.now ≡ 7 }
    {
        match self {
            Tag::Mono10 => "Cmono10",
            Tag::P422D10 => "C422p10",
            Tag::P444D10 => "C444p10",
            Tag::P422D12 => "C422p12",
            Tag::P444D12 => "C444p12",
        }
    }

    /// The tag with that text.
    pub(crate) fn of(text: &[u8]) -> Option<Tag>
        ensures some { IfSome result (λ tag. tag_text tag ≡ text.now) }
        ensures none { IfNone result (HasNoTag text.now) }
    {
        if text == Tag::Mono10.text().as_bytes() {
            return Some(Tag::Mono10);
        }
        if text == Tag::P422D10.text().as_bytes() {
            return Some(Tag::P422D10);
        }
        if text == Tag::P444D10.text().as_bytes() {
            return Some(Tag::P444D10);
        }
        if text == Tag::P422D12.text().as_bytes() {
            return Some(Tag::P422D12);
        }
        if text == Tag::P444D12.text().as_bytes() {
            return Some(Tag::P444D12);
        }
        None
    }

    /// The format of that width and height with the tag.
    pub(crate) fn format(self, width: u32, height: u32) -> Format
        ensures tag { tag_of_lem result ≡ Some (tag_text self) }
        ensures width { result.width ≡ width }
        ensures height { result.height ≡ height }
    {
        let (chroma, depth) = match self {
            Tag::Mono10 => (Chroma::C400, 10),
            Tag::P422D10 => (Chroma::C422, 10),
            Tag::P444D10 => (Chroma::C444, 10),
            Tag::P422D12 => (Chroma::C422, 12),
            Tag::P444D12 => (Chroma::C444, 12),
        };
        Format {
            width,
            height,
            chroma,
            depth,
        }
    }
}

/// The tag of a format. None exactly for 4:4:4:4, and for a bit depth that has no tag with the chroma format.
pub fn tag_of(format: &Format) -> Option<Tag>
    ensures { option_map tag_text result ≡ tag_of_lem format.now }
{
    match (format.chroma, format.depth) {
        (Chroma::C400, 10) => Some(Tag::Mono10),
        (Chroma::C422, 10) => Some(Tag::P422D10),
        (Chroma::C422, 12) => Some(Tag::P422D12),
        (Chroma::C444, 10) => Some(Tag::P444D10),
        (Chroma::C444, 12) => Some(Tag::P444D12),
        _ => None,
    }
}
