//! Strict judging of an access unit: three more rules, which aren't the format's.
ghost use Rattle.std.specs.Prelude.{◌≡◌, ◌≢◌, ◌≤◌, ◌++◌, ◌==◌, ◌||◌, ℕ, true, false, not, List};
ghost use Rattle.std.specs.Prelude.{length, MatchOption, MatchResult};
ghost use Rattle.apv_base.specs.declared.rules.Rule.TheVariants.{V32};
ghost use Rattle.apv_base.specs.model.Answer.{place_of};
ghost use Rattle.apv_base.specs.model.Pbu.{Pbu};
ghost use Rattle.apv_base.specs.model.Body.{with_bodies};
ghost use Rattle.apv_base.specs.model.Unit.{Structure};
ghost use Rattle.apv_base.specs.model.Run.{MAX_UNIT};
ghost use Rattle.apv_base.specs.model.Strict.{HoldsNowhere, HoldsFirstAt, repeats_group};
ghost use Rattle.apv_base.specs.model.Strict.{list_entry, lists, lists_others, IsStrict};
ghost use Rattle.apv_base.specs.model.Strict.{StrictBreaks};
ghost use Rattle.apv_unit.specs.GivesPbu.{IsPbu};
ghost use Rattle.apv_unit.specs.Strict.{IsStrictBreak, HasOnePrimary, has_group, frames_of, IsFrameList, IsListOf};

use crate::kinds::{AU_INFO, is_frame};
use crate::pbus::{Pbus, SoundPbu};
use apv_base::{Break, Place, Rule};

/// `pbu_type` of a primary frame.
const PRIMARY: u8 = 1;

/// `pbu_type` of a non-primary frame.
const NON_PRIMARY: u8 = 2;

/// Whether a `pbu_type` is that of a primary or non-primary frame.
fn is_main(kind: u8) -> bool
    ensures { result ≡ (kind == 1 || kind == 2) }
{
    matches!(kind, PRIMARY | NON_PRIMARY)
}

/// The number of the PBU at which an access unit breaks V32: the second primary frame, or 0 where there is none.
fn primary_break(unit: &[u8]) -> Option<u32>
    requires small { length unit.now ≤ MAX_UNIT }
    requires sound { (pbus : List Pbu) × Structure with_bodies unit.now pbus }
    ensures { (pbus : List Pbu) → Structure with_bodies unit.now pbus
        → MatchOption result (HasOnePrimary pbus) (λ number. StrictBreaks pbus (V32, number)) }
{
    let mut found = false;
    for pbu in Pbus::of(unit) {
        if pbu.kind == PRIMARY {
            if found {
                return Some(pbu.number);
            }
            found = true;
        }
    }
    if found { None } else { Some(0) }
}

/// Puts a group into a set that has a bit for each, and returns whether it wasn't there.
fn insert_group(groups: &mut [u64; 1024], group: u16) -> bool
    ensures was { result ≡ not (has_group groups.old group) }
    ensures now { (other : ℕ) → has_group groups.new other
        ≡ (other == group || has_group groups.old other) }
{
    let word = usize::from(group / 64);
    let bit = 1 << (group % 64);
    let is_new = groups[word] & bit == 0;
    groups[word] |= bit;
    is_new
}

/// The number of the PBU at which an access unit breaks V33: the first primary or non-primary frame whose group another
/// one before it has.
fn group_break(unit: &[u8]) -> Option<u32>
    requires small { length unit.now ≤ MAX_UNIT }
    requires sound { (pbus : List Pbu) × Structure with_bodies unit.now pbus }
    ensures { (pbus : List Pbu) → Structure with_bodies unit.now pbus
        → MatchOption result (HoldsNowhere repeats_group pbus)
        (λ number. HoldsFirstAt repeats_group pbus number) }
{
    let mut groups = [0; 1024];
    for pbu in Pbus::of(unit) {
        if is_main(pbu.kind) && !insert_group(&mut groups, pbu.group) {
            return Some(pbu.number);
        }
    }
    None
}

/// What follows the entry of a frame in access unit information, if the bytes begin with that entry: its `pbu_type`,
/// its `group_id`, a reserved byte and the 12 bytes of its `frame_info()`, with which its body begins.
fn after_entry<'a>(bytes: &'a [u8], frame: &SoundPbu<'_>) -> Option<&'a [u8]>
    ensures { (pbu : Pbu) → IsPbu frame.now pbu
        → MatchOption result ((rest : List ℕ) → bytes.now ≢ list_entry pbu ++ rest)
        (λ rest. bytes.now ≡ list_entry pbu ++ rest.now) }
{
    let group = frame.group.to_be_bytes();
    let (info, _) = frame.body.split_at(usize::min(12, frame.body.len()));
    let Some(after) = bytes.strip_prefix(&[frame.kind, group[0], group[1], 0]) else {
        return None;
    };
    after.strip_prefix(info)
}

/// The list of the frames of an access unit, if a body of access unit information begins with it: their number
/// (`num_frames`) and an entry for each, in the order of the PBUs. The body is compared with the frames one by one.
fn list_by_frames<'a>(unit: &[u8], body: &'a [u8]) -> Option<&'a [u8]>
    requires small { length unit.now ≤ MAX_UNIT }
    requires sound { (pbus : List Pbu) × Structure with_bodies unit.now pbus }
    ensures { (pbus : List Pbu) → Structure with_bodies unit.now pbus
        → MatchOption result (lists (frames_of pbus) body.now ≡ false)
        (λ list. (lists (frames_of pbus) body.now ≡ true) × IsFrameList (frames_of pbus) list.now) }
{
    if body.len() < 2 {
        return None;
    }
    let (_, mut rest) = body.split_at(2);
    let mut count = u16::from_be_bytes([body[0], body[1]]);
    for pbu in Pbus::of(unit) {
        if is_frame(pbu.kind) {
            if count == 0 {
                return None;
            }
            count -= 1;
            let Some(after) = after_entry(rest, &pbu) else {
                return None;
            };
            rest = after;
        }
    }
    if count != 0 {
        return None;
    }
    let (list, _) = body.split_at(body.len() - rest.len());
    Some(list)
}

/// The same for a body that is compared with the list where another body gave it, and with the frames otherwise.
fn list_at_start<'a>(unit: &[u8], body: &'a [u8], known: Option<&'a [u8]>) -> Option<&'a [u8]>
    requires small { length unit.now ≤ MAX_UNIT }
    requires sound { (pbus : List Pbu) × Structure with_bodies unit.now pbus }
    requires known { MatchOption known (Unit {0}) (λ list. IsListOf unit.now list.now) }
    ensures { (pbus : List Pbu) → Structure with_bodies unit.now pbus
        → MatchOption result (lists (frames_of pbus) body.now ≡ false)
        (λ list. (lists (frames_of pbus) body.now ≡ true) × IsFrameList (frames_of pbus) list.now) }
{
    let Some(list) = known else {
        return list_by_frames(unit, body);
    };
    if body.starts_with(list) {
        return Some(list);
    }
    None
}

/// The number of the PBU at which an access unit breaks V34: the first access unit information that lists other frames
/// than those of the unit.
fn list_break(unit: &[u8]) -> Option<u32>
    requires small { length unit.now ≤ MAX_UNIT }
    requires sound { (pbus : List Pbu) × Structure with_bodies unit.now pbus }
    ensures { (pbus : List Pbu) → Structure with_bodies unit.now pbus
        → MatchOption result (HoldsNowhere (lists_others pbus) pbus)
        (λ number. HoldsFirstAt (lists_others pbus) pbus number) }
{
    let mut known = None;
    for pbu in Pbus::of(unit) {
        if pbu.kind == AU_INFO {
            let Some(list) = list_at_start(unit, pbu.body, known) else {
                return Some(pbu.number);
            };
            known = Some(list);
        }
    }
    None
}

/// The break of a rule at a PBU of an access unit, both by their numbers.
fn break_at(unit: u32, pbu: u32, rule: Rule) -> Break
    ensures { result ≡ record { rule = rule; place = place_of unit pbu } }
{
    let place = Place {
        unit,
        pbu,
        tile: 0,
        comp: 0,
    };
    Break { rule, place }
}

/// Judges an access unit strictly, which is the one of that number in its file: the first of V32, V33 and V34 that is
/// broken, and the PBU at which it is. V32 is broken at the second primary frame, or at PBU 0 where there is none; V33
/// at the first primary or non-primary frame whose group another one before it has; V34 at the first access unit
/// information (`au_info()`) whose list isn't that of all frames of the unit in the order of the PBUs, each with its
/// type, its group and the 12 bytes of its `frame_info()`. The structure of the unit is sound, and it has at most
/// 536,870,912 bytes.
pub fn strict(unit: &[u8], number: u32) -> Result<(), Break>
    requires small { length unit.now ≤ MAX_UNIT }
    requires sound { (pbus : List Pbu) × Structure with_bodies unit.now pbus }
    ensures { (pbus : List Pbu) → Structure with_bodies unit.now pbus
        → MatchResult result (λ _. IsStrict pbus) (λ broken. IsStrictBreak pbus number broken) }
{
    if let Some(pbu) = primary_break(unit) {
        return Err(break_at(number, pbu, Rule::V32));
    }
    if let Some(pbu) = group_break(unit) {
        return Err(break_at(number, pbu, Rule::V33));
    }
    if let Some(pbu) = list_break(unit) {
        return Err(break_at(number, pbu, Rule::V34));
    }
    Ok(())
}
