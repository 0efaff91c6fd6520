//! The structure pass over an access unit.
ghost use Rattle.std.specs.Prelude.{◌≡◌, ◌≤◌, ◌<◌, ◌^◌, ℕ, List, take, drop, length, MatchResult};
ghost use Rattle.apv_base.specs.declared.rules.HeadEnd.TheVariants.{Rule as breaks};
ghost use Rattle.apv_base.specs.declared.rules.UnitEnd.TheVariants.{Broken};
ghost use Rattle.apv_base.specs.model.Pbu.{Pbu, signature};
ghost use Rattle.apv_base.specs.model.Body.{outline, with_bodies};
ghost use Rattle.apv_base.specs.model.Unit.{Structure, StructureBreaks, unit_end};
ghost use Rattle.apv_unit.specs.Reach.{reach_of};
ghost use Rattle.apv_base.specs.model.Run.{MAX_UNIT};

use crate::body::body_break;
use crate::broken_body::BodyBreak;
use crate::pbu::next_pbu;
use apv_base::{Break, HeadEnd, Place, Rule, UnitEnd};

/// What a break of a PBU makes of its access unit, both by their numbers.
fn end_at(unit: u32, pbu: u32, broken: BodyBreak) -> UnitEnd
    ensures { result ≡ unit_end unit pbu broken.tile broken.end }
{
    match broken.end {
        HeadEnd::Rule(rule) => UnitEnd::Broken(Break {
            rule,
            place: Place {
                unit,
                pbu,
                tile: broken.tile,
                comp: 0,
            },
        }),
        HeadEnd::Wide(count) => UnitEnd::Limit(count),
    }
}

/// The same for a rule that is broken before the body.
fn end_before(unit: u32, pbu: u32, rule: Rule) -> UnitEnd
    ensures { result ≡ unit_end unit pbu 0 (breaks rule) }
{
    let end = HeadEnd::Rule(rule);
    end_at(unit, pbu, BodyBreak { tile: 0, end })
}

/// Judges the PBUs after the signature, with their bodies or without.
fn judge_pbus(unit: &[u8], number: u32, bodies: bool) -> Result<(), UnitEnd>
    requires long { 4 ≤ length unit.now }
    requires small { length unit.now ≤ MAX_UNIT }
    requires signed { take 4 unit.now ≡ signature }
    ensures { MatchResult result
        (λ _. (pbus : List Pbu) × Structure (reach_of bodies) unit.now pbus)
        (λ end. StructureBreaks (reach_of bodies) number unit.now end) }
{
    let mut count = 0;
    let mut place = 4;
    loop {
        let pbu = match next_pbu(unit, place) {
            Ok(pbu) => pbu,
            Err(rule) => return Err(end_before(number, count, rule)),
        };
        if let Some(broken) = body_break(pbu.kind, pbu.body, bodies) {
            return Err(end_at(number, count, broken));
        }
        if pbu.next == unit.len() {
            return Ok(());
        }
        place = pbu.next;
        count += 1;
    }
}

/// Judges an access unit, which is the one of that number in its file, with the bodies of its PBUs or without.
fn judge_unit(unit: &[u8], number: u32, bodies: bool) -> Result<(), UnitEnd>
    requires { length unit.now ≤ MAX_UNIT }
    ensures { MatchResult result
        (λ _. (pbus : List Pbu) × Structure (reach_of bodies) unit.now pbus)
        (λ end. StructureBreaks (reach_of bodies) number unit.now end) }
{
    if !unit.starts_with(b"aPv1") {
        return Err(end_before(number, 0, Rule::V3));
    }
    judge_pbus(unit, number, bodies)
}

/// Judges the outline of an access unit, which is the one of that number in its file: the first of V3 to V7 that is
/// broken, over all PBUs, whose bodies aren't looked into. The unit has at most 536,870,912 bytes.
pub fn check_unit(unit: &[u8], number: u32) -> Result<(), Break>
    requires { length unit.now ≤ MAX_UNIT }
    ensures { MatchResult result (λ _. (pbus : List Pbu) × Structure outline unit.now pbus)
        (λ break. StructureBreaks outline number unit.now (Broken break)) }
{
    // Only bodies have limits.
    if let Err(UnitEnd::Broken(broken)) = judge_unit(unit, number, false) {
        return Err(broken);
    }
    Ok(())
}

/// Judges the structure of an access unit, which is the one of that number in its file: the first rule that is broken
/// over all PBUs in order, each with V4 to V7 and then its body, field by field, or `Limit` where a frame has more
/// than 262,144 macroblocks (the limit L2) and no rule is broken before. Bodies of reserved types are skipped, and
/// the data of tiles aren't read. The unit has at most 536,870,912 bytes.
pub fn structure(unit: &[u8], number: u32) -> Result<(), UnitEnd>
    requires { length unit.now ≤ MAX_UNIT }
    ensures { MatchResult result (λ _. (pbus : List Pbu) × Structure with_bodies unit.now pbus)
        (λ end. StructureBreaks with_bodies number unit.now end) }
{
    judge_unit(unit, number, true)
}
