//! The formats of the pictures of a Y4M file.
ghost use Rattle.std.specs.Prelude.{◌≡◌, ◌≤◌, ◌++◌, ◌∷◌, [], List, MatchResult, Some, length, true};
ghost use Rattle.apv_base.specs.declared.format.Format.{Format as FormatRecord};
ghost use Rattle.apv_base.specs.model.Judge.{DecodedUnit};
ghost use Rattle.apv_base.specs.model.Output.{AreOne, FormatsAgree, FormatsDiffer, formats};
ghost use Rattle.apv_base.specs.model.Output.{wants_format as wants_format_lem};
ghost use Rattle.apv_base.specs.model.Run.{MAX_UNIT};
ghost use Rattle.apv_dec.specs.Judged.{IsJudged};
ghost use Rattle.apv_dec.specs.Outputs.{IsFirstFormat, first_format, output_settings};

use crate::pictures::{is_selected, is_y4m};
use apv_base::{Exit, Format};
use apv_grid::Frame;
use apv_unit::{Pbus, is_frame};
use apv_video::tag_of;
use apv_words::DecSettings;

/// Whether pictures are written to a Y4M file, which has one format.
fn wants_format(settings: &DecSettings) -> bool
    ensures { result ≡ wants_format_lem (output_settings settings.now) }
{
    settings.output.is_some() && is_y4m(settings.form)
}

/// The format of the pictures of a Y4M file after one more, which has a format, or why that picture can't be in the
/// file: `NoTag` where it is the first and its format has no tag, and `FormatChange` where its format isn't that of the
/// pictures before it.
fn next_format(first: Option<Format>, format: Format) -> Result<Format, Exit>
    ensures { (before : List FormatRecord) → AreOne before → first ≡ first_format before
        → MatchResult result
        (λ next. AreOne (before ++ format ∷ []) × (Some next ≡ first_format (before ++ format ∷ [])))
        (λ exit. FormatsDiffer (before ++ format ∷ []) exit) }
{
    match first {
        None => match tag_of(&format) {
            Some(_) => Ok(format),
            None => Err(Exit::NoTag(format)),
        },
        Some(first) => {
            if format == first {
                Ok(first)
            } else {
                Err(Exit::FormatChange {
                    first,
                    other: format,
                })
            }
        }
    }
}

/// Judges the formats of the selected frames of a valid access unit, one after another.
fn judge_selected(
    settings: &DecSettings,
    first: Option<Format>,
    unit: &[u8],
    frames: &[Frame],
) -> Result<Option<Format>, Exit>
    requires small { length unit.now ≤ MAX_UNIT }
    requires judged { (judged : DecodedUnit)
        × IsJudged settings.now.strict unit.now frames.now judged }
    ensures { (before : List FormatRecord) (judged : DecodedUnit) → AreOne before → first ≡ first_format before
        → IsJudged settings.now.strict unit.now frames.now judged
        → MatchResult result
        (λ next. let now = before ++ formats (output_settings settings.now) (judged ∷ []) in
        AreOne now × (next ≡ first_format now))
        (λ exit. FormatsDiffer
        (before ++ formats (output_settings settings.now) (judged ∷ [])) exit) }
{
    let mut first = first;
    let mut index = 0;
    for pbu in Pbus::of(unit) {
        if is_frame(pbu.kind) {
            if is_selected(settings, pbu.kind, pbu.group) {
                match next_format(first, frames[index].grid().format()) {
                    Ok(format) => first = Some(format),
                    Err(exit) => return Err(exit),
                }
            }
            index += 1;
        }
    }
    Ok(first)
}

/// Judges the formats of the selected frames of a valid access unit after other units, where pictures are written to a
/// Y4M file: all have the format of the first of them, which has a tag in a Y4M file. `first` is that format, where there
/// was such a frame before; returned is the format with this unit. Without a Y4M file both are none.
///
/// `NoTag`: the format of the first frame has no tag. `FormatChange`: a frame has another format than the first one.
pub(crate) fn judge_formats(
    settings: &DecSettings,
    first: Option<Format>,
    unit: &[u8],
    frames: &[Frame],
) -> Result<Option<Format>, Exit>
    requires small { length unit.now ≤ MAX_UNIT }
    requires judged { (judged : DecodedUnit)
        × IsJudged settings.now.strict unit.now frames.now judged }
    ensures { let settings = output_settings settings.now in
        (before : List DecodedUnit) (judged : DecodedUnit)
        → FormatsAgree settings (formats settings before)
        → IsFirstFormat settings before first
        → IsJudged settings.strict unit.now frames.now judged
        → MatchResult result
        (λ next. FormatsAgree settings (formats settings (before ++ judged ∷ []))
        × IsFirstFormat settings (before ++ judged ∷ []) next)
        (λ exit. (wants_format_lem settings ≡ true)
        × FormatsDiffer (formats settings (before ++ judged ∷ [])) exit) }
{
    if wants_format(settings) {
        judge_selected(settings, first, unit, frames)
    } else {
        Ok(None)
    }
}
