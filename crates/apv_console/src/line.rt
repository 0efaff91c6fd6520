//! The line for an answer.
ghost use Rattle.std.specs.Prelude.{◌≡◌, IfOk, string_bytes};
ghost use Rattle.apv_console.specs.Line.{line_of as line_of_lem, usage_line, broken_line, video_line, format_text};

use crate::names::{chroma_name, limit_name, option_name, rule_name, slot_name, video_rule_name};
use apv_base::{Break, Exit, Format, UsageKind, VideoBreak};
use std::alloc::{AllocError, Global};

/// `usage: value --qp`: the words of the command line give no settings.
fn usage(alloc: Global, kind: UsageKind) -> Result<String, AllocError>
    ensures { IfOk result (λ text. string_bytes text ≡ usage_line kind) }
{
    match kind {
        UsageKind::Words => String::from_str(alloc, "usage: words\n"),
        UsageKind::Value(option) => {
            let word = option_name(option);
            format!(in alloc; "usage: value {word}\n")
        }
        UsageKind::Missing(option) => {
            let word = option_name(option);
            format!(in alloc; "usage: missing {word}\n")
        }
        UsageKind::Clash(option) => {
            let word = option_name(option);
            format!(in alloc; "usage: clash {word}\n")
        }
        UsageKind::SameName => String::from_str(alloc, "usage: same name\n"),
    }
}

/// `broken V23 at unit 0, pbu 1, tile 0, component 0`: a rule of the bitstream is broken.
fn broken(alloc: Global, broken: Break) -> Result<String, AllocError>
    ensures { IfOk result (λ text. string_bytes text ≡ broken_line broken) }
{
    let rule = rule_name(broken.rule);
    let unit = broken.place.unit;
    let pbu = broken.place.pbu;
    let tile = broken.place.tile;
    let comp = broken.place.comp;
    format!(in alloc; "broken {rule} at unit {unit}, pbu {pbu}, tile {tile}, component {comp}\n")
}

/// `bad video input: truncated at frame 3`: a rule of video files is broken.
fn bad_video(alloc: Global, broken: VideoBreak) -> Result<String, AllocError>
    ensures { IfOk result (λ text. string_bytes text ≡ video_line broken) }
{
    let slot = slot_name(broken.slot);
    let rule = video_rule_name(broken.rule);
    let frame = broken.frame;
    format!(in alloc; "bad video {slot}: {rule} at frame {frame}\n")
}

/// `1920x1080 422 10`: a format, by its size, the digits of its chroma format and its bit depth.
fn format_name(alloc: Global, format: Format) -> Result<String, AllocError>
    ensures { IfOk result (λ text. string_bytes text ≡ format_text format) }
{
    let (width, height, depth) = (format.width, format.height, format.depth);
    let chroma = chroma_name(format.chroma);
    format!(in alloc; "{width}x{height} {chroma} {depth}")
}

/// `format changes from 16x16 422 10 to 16x16 444 10`: the frames of a Y4M output differ in format.
fn format_change(alloc: Global, first: Format, other: Format) -> Result<String, AllocError>
    ensures { IfOk result (λ text.
        string_bytes text ≡ line_of_lem (Exit.FormatChange first other)) }
{
    let first = format_name(alloc, first)?;
    let other = format_name(alloc, other)?;
    format!(in alloc; "format changes from {first} to {other}\n")
}

/// `no tag for 16x16 4444 12`: no tag of a Y4M file names the format.
fn no_tag(alloc: Global, format: Format) -> Result<String, AllocError>
    ensures { IfOk result (λ text. string_bytes text ≡ line_of_lem (Exit.NoTag format)) }
{
    let format = format_name(alloc, format)?;
    format!(in alloc; "no tag for {format}\n")
}

/// The console's line for an answer, with its line feed. For `Done` it is empty.
pub fn line_of(alloc: Global, exit: Exit) -> Result<String, AllocError>
    ensures { IfOk result (λ text. string_bytes text ≡ line_of_lem exit) }
{
    match exit {
        Exit::Done => Ok(String::new(alloc)),
        Exit::Memory => String::from_str(alloc, "out of memory\n"),
        Exit::Usage(kind) => usage(alloc, kind),
        Exit::Broken(at) => broken(alloc, at),
        Exit::BadVideo(at) => bad_video(alloc, at),
        Exit::BadPayloads(byte) => format!(in alloc; "bad payloads at byte {byte}\n"),
        Exit::BadTileQp(byte) => format!(in alloc; "bad tile qp at byte {byte}\n"),
        Exit::OpenFailed(slot) => {
            let slot = slot_name(slot);
            format!(in alloc; "cannot open {slot}\n")
        }
        Exit::ReadFailed(slot) => {
            let slot = slot_name(slot);
            format!(in alloc; "read failed on {slot}\n")
        }
        Exit::WriteFailed(slot) => {
            let slot = slot_name(slot);
            format!(in alloc; "write failed on {slot}\n")
        }
        Exit::LimitMet(limit, count) => {
            let limit = limit_name(limit);
            format!(in alloc; "limit {limit} met: {count}\n")
        }
        Exit::FormatChange { first, other } => format_change(alloc, first, other),
        Exit::NoTag(format) => no_tag(alloc, format),
        Exit::TooLarge {
            frame,
            smallest,
            limit,
        } => format!(in alloc; "frame {frame} too large: {smallest} over {limit}\n"),
    }
}
