//! The bodies of PBUs.
ghost use Rattle.std.specs.Prelude.{◌≡◌, ◌≤◌, ℕ, List, length, MatchOption};
ghost use Rattle.apv_base.specs.model.Payload.{Payload};
ghost use Rattle.apv_base.specs.model.Body.{body_kind_of, IsSoundBody, BodyBreaks};
ghost use Rattle.apv_unit.specs.Reach.{reach_of};
ghost use Rattle.apv_base.specs.model.Run.{MAX_UNIT};

use crate::au_info::au_info_break;
use crate::broken_body::{BodyBreak, outside};
use crate::filler::is_filler;
use crate::frame::frame_break;
use crate::kinds::{AU_INFO, FILLER, METADATA, is_frame};
use crate::metadata::metadata_break;
use apv_base::Rule;

/// The first rule that a body of this `pbu_type` breaks, or the limit that it doesn't keep, where bodies are looked
/// into. Those of reserved types are never. The body has at most 536,870,912 bytes.
pub fn body_break(kind: u8, body: &[u8], bodies: bool) -> Option<BodyBreak>
    requires { length body.now ≤ MAX_UNIT }
    ensures { MatchOption result
        ((ps : List Payload) × IsSoundBody (body_kind_of (reach_of bodies) kind) body.now ps)
        (λ broken. BodyBreaks (body_kind_of (reach_of bodies) kind) body.now
        broken.tile broken.end) }
{
    if !bodies {
        return None;
    }
    match kind {
        METADATA => metadata_break(body).map(outside),
        FILLER if is_filler(body) => None,
        FILLER => Some(outside(Rule::V23)),
        _ if is_frame(kind) => frame_break(body),
        AU_INFO => au_info_break(body).map(|end| BodyBreak { tile: 0, end }),
        _ => None,
    }
}
