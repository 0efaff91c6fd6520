//! The names that are in the console's lines.
ghost use Rattle.std.specs.Prelude.{◌≡◌};
ghost use Rattle.apv_console.specs.Names.{rule_name as rule_name_lem, limit_name as limit_name_lem};
ghost use Rattle.apv_console.specs.Names.{slot_name as slot_name_lem};
ghost use Rattle.apv_console.specs.Names.{option_name as option_name_lem};
ghost use Rattle.apv_console.specs.Names.{video_rule_name as video_rule_name_lem};
ghost use Rattle.apv_console.specs.Names.{chroma_name as chroma_name_lem};

use apv_base::{Chroma, Limit, Opt, Rule, Slot, VideoRule};

/// The name of a rule.
pub fn rule_name(rule: Rule) -> &'static str
    ensures { result.now ≡ rule_name_lem rule }
{
    match rule {
        Rule::V1 => "V1",
        Rule::V2 => "V2",
        Rule::V3 => "V3",
        Rule::V4 => "V4",
        Rule::V5 => "V5",
        Rule::V6 => "V6",
        Rule::V7 => "V7",
        Rule::V8 => "V8",
        Rule::V9 => "V9",
        Rule::V10 => "V10",
        Rule::V11 => "V11",
        Rule::V12 => "V12",
        Rule::V13 => "V13",
        Rule::V14 => "V14",
        Rule::V15 => "V15",
        Rule::V16 => "V16",
        Rule::V17 => "V17",
        Rule::V18 => "V18",
        Rule::V19 => "V19",
        Rule::V20 => "V20",
        Rule::V21 => "V21",
        Rule::V22 => "V22",
        Rule::V23 => "V23",
        Rule::V24 => "V24",
        Rule::V25 => "V25",
        Rule::V26 => "V26",
        Rule::V27 => "V27",
        Rule::V28 => "V28",
        Rule::V29 => "V29",
        Rule::V30 => "V30",
        Rule::V31 => "V31",
        Rule::V32 => "V32",
        Rule::V33 => "V33",
        Rule::V34 => "V34",
    }
}

/// The name of a limit.
pub fn limit_name(limit: Limit) -> &'static str
    ensures { result.now ≡ limit_name_lem limit }
{
    match limit {
        Limit::L1 => "L1",
        Limit::L2 => "L2",
        Limit::L3 => "L3",
    }
}

/// The name of a slot.
pub fn slot_name(slot: Slot) -> &'static str
    ensures { result.now ≡ slot_name_lem slot }
{
    match slot {
        Slot::Input => "input",
        Slot::Preview => "preview",
        Slot::Depth => "depth",
        Slot::Alpha => "alpha",
        Slot::Metadata => "metadata",
        Slot::TileQp => "tile-qp",
        Slot::Output => "output",
        Slot::Recon => "recon",
        Slot::MetaOut => "meta-out",
        Slot::Console => "console",
    }
}

/// The word of an option.
pub fn option_name(option: Opt) -> &'static str
    ensures { result.now ≡ option_name_lem option }
{
    match option {
        Opt::Input => "--input",
        Opt::Output => "--output",
        Opt::Metadata => "--metadata",
        Opt::Select => "--select",
        Opt::Group => "--group",
        Opt::Form => "--form",
        Opt::Rate => "--rate",
        Opt::Threads => "--threads",
        Opt::Width => "--width",
        Opt::Height => "--height",
        Opt::Chroma => "--chroma",
        Opt::Depth => "--depth",
        Opt::Profile => "--profile",
        Opt::Level => "--level",
        Opt::Band => "--band",
        Opt::Qp => "--qp",
        Opt::Limit => "--limit",
        Opt::QpMin => "--qp-min",
        Opt::QpMax => "--qp-max",
        Opt::QpOffset1 => "--qp-offset-1",
        Opt::QpOffset2 => "--qp-offset-2",
        Opt::QpOffset3 => "--qp-offset-3",
        Opt::Matrix0 => "--matrix-0",
        Opt::Matrix1 => "--matrix-1",
        Opt::Matrix2 => "--matrix-2",
        Opt::Matrix3 => "--matrix-3",
        Opt::Colour => "--colour",
        Opt::TileWidth => "--tile-width",
        Opt::TileHeight => "--tile-height",
        Opt::TileSizes => "--tile-sizes",
        Opt::Preview => "--preview",
        Opt::DepthMap => "--depth-map",
        Opt::Alpha => "--alpha",
        Opt::PreviewWidth => "--preview-width",
        Opt::PreviewHeight => "--preview-height",
        Opt::AuInfo => "--au-info",
        Opt::Filler => "--filler",
        Opt::Recon => "--recon",
        Opt::Strict => "--strict",
        Opt::TileQp => "--tile-qp",
        Opt::Generate => "--generate",
        Opt::Digest => "--digest",
        Opt::Check => "--check",
        Opt::Region => "--region",
        Opt::From => "--from",
        Opt::To => "--to",
        Opt::Second => "--second",
        Opt::Payloads => "--payloads",
    }
}

/// The name of a rule of video files.
pub fn video_rule_name(rule: VideoRule) -> &'static str
    ensures { result.now ≡ video_rule_name_lem rule }
{
    match rule {
        VideoRule::Header => "header",
        VideoRule::Tag => "tag",
        VideoRule::Size => "size",
        VideoRule::Profile => "profile",
        VideoRule::Grid => "grid",
        VideoRule::Qp => "qp",
        VideoRule::FrameLine => "frame-line",
        VideoRule::Truncated => "truncated",
        VideoRule::Range => "range",
        VideoRule::Missing => "missing",
        VideoRule::Extra => "extra",
    }
}

/// The digits of a chroma format.
pub fn chroma_name(chroma: Chroma) -> &'static str
    ensures { result.now ≡ chroma_name_lem chroma }
{
    match chroma {
        Chroma::C400 => "400",
        Chroma::C422 => "422",
        Chroma::C444 => "444",
        Chroma::C4444 => "4444",
    }
}
