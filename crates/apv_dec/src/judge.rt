//! How an access unit is judged, and its frames are decoded.
ghost use Rattle.std.specs.Prelude.{◌≡◌, ◌≤◌, ℕ, List, length, MatchResult, OnOk, IfErr, true};
ghost use Rattle.apv_base.specs.model.Body.{with_bodies};
ghost use Rattle.apv_base.specs.model.Judge.{DecodedUnit, UnitBreaks};
ghost use Rattle.apv_base.specs.model.Pbu.{Pbu};
ghost use Rattle.apv_base.specs.model.Run.{MAX_UNIT, exit_of};
ghost use Rattle.apv_base.specs.model.Strict.{IsStrict};
ghost use Rattle.apv_base.specs.model.Unit.{Structure};
ghost use Rattle.apv_unit.specs.Strict.{IsStrictBreak};
ghost use Rattle.apv_dec.specs.Judged.{IsJudged, IsRefused, PassesRules, frames_exit as exit_of_fault};

use apv_base::{Break, Exit, Limit, Place};
use apv_frame::{FramesFault, UnitFrames};
use apv_unit::{UnitEnd, strict, structure};
use apv_workers::{Crew, Gate};
use std::thread::Threads;

/// The answer where an access unit isn't valid.
fn unit_exit(end: UnitEnd) -> Exit
    ensures { result ≡ exit_of end }
{
    match end {
        UnitEnd::Broken(broken) => Exit::Broken(broken),
        UnitEnd::Limit(count) => Exit::LimitMet(Limit::L2, count),
    }
}

/// The answer where the frames of the access unit of that number aren't decoded.
fn frames_exit(number: u32, fault: FramesFault) -> Exit
    ensures { result ≡ exit_of_fault number fault }
{
    match fault {
        FramesFault::Broken { pbu, at } => {
            let place = Place {
                unit: number,
                pbu,
                tile: at.tile,
                comp: at.comp,
            };
            Exit::Broken(Break {
                rule: at.rule,
                place,
            })
        }
        FramesFault::Memory => Exit::Memory,
    }
}

/// Judges an access unit of sound structure strictly, where that is asked for.
fn judge_strictly(unit: &[u8], number: u32, wanted: bool) -> Result<(), Break>
    requires small { length unit.now ≤ MAX_UNIT }
    requires sound { (pbus : List Pbu) × Structure with_bodies unit.now pbus }
    ensures { (pbus : List Pbu) → Structure with_bodies unit.now pbus → MatchResult result
        (λ _. wanted ≡ true → IsStrict pbus)
        (λ broken. (wanted ≡ true) × IsStrictBreak pbus number broken) }
{
    if wanted { strict(unit, number) } else { Ok(()) }
}

/// Judges an access unit but for the content of its frames: its structure, and then strictly where that is asked for.
fn judge_rules(unit: &[u8], number: u32, strictly: bool) -> Result<(), UnitEnd>
    requires { length unit.now ≤ MAX_UNIT }
    ensures { MatchResult result (λ _. (pbus : List Pbu) × PassesRules strictly unit.now pbus)
        (λ end. UnitBreaks strictly number unit.now end) }
{
    match structure(unit, number) {
        Ok(()) => {}
        Err(end) => return Err(end),
    }
    match judge_strictly(unit, number, strictly) {
        Ok(()) => Ok(()),
        Err(broken) => Err(UnitEnd::Broken(broken)),
    }
}

/// Judges the access unit of that number in its file, strictly where that is asked for, and decodes all its frames. Says
/// what ends the run there: `Broken` with the first rule that is broken, of the structure (V4 to V26), of strict judging
/// (V32 to V34) and then of the content (V27 to V31); `LimitMet` with L2; or `Memory`. After a refusal nothing is said
/// of the frames.
pub(crate) fn judge_unit<R: Threads + Sync, G: Gate>(
    crew: &Crew<'_, R, G>,
    frames: &mut UnitFrames,
    unit: &[u8],
    number: u32,
    strictly: bool,
) -> Result<(), Exit>
    requires { length unit.now ≤ MAX_UNIT }
    ensures ok { OnOk result ((judged : DecodedUnit)
        × IsJudged strictly unit.now frames.new judged) }
    ensures err { IfErr result (λ exit. IsRefused strictly number unit.now exit) }
{
    match judge_rules(unit, number, strictly) {
        Ok(()) => {}
        Err(end) => return Err(unit_exit(end)),
    }
    match frames.decode(crew, unit) {
        Ok(()) => Ok(()),
        Err(fault) => Err(frames_exit(number, fault)),
    }
}
