//! The bodies of metadata (`metadata()`), and the payloads in them.
ghost use Rattle.std.specs.Prelude.{◌≡◌, ◌≤◌, ℕ, List, length, MatchBool, MatchOption};
ghost use Rattle.apv_base.specs.model.Payload.{Payload, ArePayloads, HasPartialPayload, payloads_bytes};
ghost use Rattle.apv_base.specs.model.Pbu.{IsMetadata, MetadataBreaks};
ghost use Rattle.apv_base.specs.model.Body.{with_bodies, body_kind_of, IsSoundBody};
ghost use Rattle.apv_base.specs.model.Run.{MAX_UNIT};

use crate::filler::is_filler;
use crate::kinds::METADATA;
use apv_base::Rule;
use apv_bits::be32;
use apv_meta::{Payloads, next_payload};

/// Whether a list is whole payloads one after another.
fn are_payloads(list: &[u8]) -> bool
    requires { length list.now ≤ MAX_UNIT }
    ensures { MatchBool result ((ps : List Payload) × ArePayloads list.now ps)
        ((byte : ℕ) × HasPartialPayload list.now byte) }
{
    let mut place = 0;
    while place < list.len() {
        let Some(payload) = next_payload(list, place) else {
            return false;
        };
        place = payload.next;
    }
    true
}

/// The first rule that a body of metadata of at most 536,870,912 bytes breaks: V8 where `metadata_size` is cut short,
/// V25 where it is below 2 or above what is left of the body, V26 where a payload isn't whole, and V23 for the filler
/// after them, in that order.
pub fn metadata_break(body: &[u8]) -> Option<Rule>
    requires { length body.now ≤ MAX_UNIT }
    ensures { MatchOption result ((ps : List Payload) × IsMetadata body.now ps)
        (λ rule. MetadataBreaks body.now rule) }
{
    if body.len() < 4 {
        return Some(Rule::V8);
    }
    let (_, rest) = body.split_at(4);
    let size = be32(body) as usize;
    if size < 2 {
        return Some(Rule::V25);
    }
    if size > rest.len() {
        return Some(Rule::V25);
    }
    let (list, filler) = rest.split_at(size);
    if !are_payloads(list) {
        return Some(Rule::V26);
    }
    if !is_filler(filler) {
        return Some(Rule::V23);
    }
    None
}

/// The list of payloads of a body of metadata that breaks no rule: `metadata_size` bytes, which are the payloads one
/// after another, each as its type, its size and its bytes.
pub fn payload_list(body: &[u8]) -> &[u8]
    requires { (ps : List Payload) × IsMetadata body.now ps }
    ensures { (ps : List Payload) → IsMetadata body.now ps
        → (result.now ≡ payloads_bytes ps) × ArePayloads result.now ps
        × (length result.now ≤ length body.now) }
{
    let (_, rest) = body.split_at(4);
    let size = be32(body) as usize;
    let (list, _) = rest.split_at(size);
    list
}

/// The payloads of a body of metadata that breaks no rule, of at most 536,870,912 bytes, one after another.
pub fn metadata_payloads(body: &[u8]) -> Payloads<'_>
    requires small { length body.now ≤ MAX_UNIT }
    requires sound { (ps : List Payload) × IsMetadata body.now ps }
    ensures { (ps : List Payload) → IsMetadata body.now ps → ArePayloads result ps }
{
    Payloads::of(payload_list(body))
}

/// The payloads of a PBU of this type whose body breaks no rule, each as its type, its size and its bytes. There are
/// none where the PBU isn't metadata.
pub fn pbu_payloads(kind: u8, body: &[u8]) -> &[u8]
    requires { (ps : List Payload) × IsSoundBody (body_kind_of with_bodies kind) body.now ps }
    ensures { (ps : List Payload) → IsSoundBody (body_kind_of with_bodies kind) body.now ps
        → result.now ≡ payloads_bytes ps }
{
    if kind == METADATA {
        payload_list(body)
    } else {
        &[]
    }
}
