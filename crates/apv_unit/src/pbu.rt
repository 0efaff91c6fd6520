//! The PBU at a place of an access unit.
ghost use Rattle.std.specs.Prelude.{◌≡◌, ◌≤◌, drop, length, MatchResult, Err};
ghost use Rattle.apv_base.specs.model.Table.{walk};
ghost use Rattle.apv_base.specs.model.Pbu.{pbu_table};
ghost use Rattle.apv_unit.specs.Pbu.{PbuFound};

use apv_base::Rule;
use apv_bits::{be16, be32};

/// A PBU of an access unit (`pbu()`).
#[derive(Clone, Copy, Debug)]
pub struct Pbu<'a> {
    /// `pbu_type`.
    pub kind: u8,
    /// `group_id`.
    pub group: u16,
    /// The bytes after the PBU's header.
    pub body: &'a [u8],
    /// The place in the access unit after the PBU.
    pub next: usize,
}

/// The PBU whose `pbu_size` begins at a place of an access unit, or the first rule that it breaks: V4 to V7, in that
/// order. The place is in the access unit or at its end.
pub fn next_pbu(unit: &[u8], place: usize) -> Result<Pbu<'_>, Rule>
    requires { place ≤ length unit.now }
    ensures { MatchResult result
        (λ p. PbuFound unit.now place (p.kind, p.group, p.body.now, p.next))
        (λ rule. walk 256 pbu_table (drop place unit.now) ≡ Err rule) }
{
    let (_, rest) = unit.split_at(place);
    if rest.len() < 4 {
        return Err(Rule::V4);
    }
    let (_, bytes) = rest.split_at(4);
    let size = be32(rest) as usize;
    if size < 4 {
        return Err(Rule::V5);
    }
    if size > bytes.len() {
        return Err(Rule::V6);
    }
    if rest[7] != 0 {
        return Err(Rule::V7);
    }
    let (_, group) = rest.split_at(5);
    let (_, after) = rest.split_at(8);
    let (body, _) = after.split_at(size - 4);
    Ok(Pbu {
        kind: rest[4],
        group: be16(group),
        body,
        next: place + 4 + size,
    })
}
