//! An access unit, coded.
mod entries;
mod sizes;
mod write;

ghost use Rattle.std.specs.Prelude.{◌≡◌, ◌≤◌, ◌<◌, ℕ, ℤ, ◌-◌, length, ◌^◌, IfOk, IfErr, IfSome, false};
ghost use Rattle.std.specs.List.{AllByRecursion};
ghost use Rattle.apv_base.specs.declared.format.Format.{Format};
ghost use Rattle.apv_base.specs.model.Format.{IsDepth};
ghost use Rattle.apv_base.specs.model.Header.{IsSoundHeader};
ghost use Rattle.apv_encoding.specs.AccessUnit.{Pictures};
ghost use Rattle.apv_encoding.specs.Settings.{IsPermittedQp, given_or, has_large_qp, tracks_of};
ghost use Rattle.apv_enc.specs.Coding.{AreCoded, HasFrameToCode, HasPermittedQps, IsUnitFault, IsUnitMade};
ghost use Rattle.apv_enc.specs.UnitParts.{AreTransformed};
ghost use Rattle.apv_search.specs.Choice.{IsInRange};
ghost use Rattle.apv_tracks.specs.Kinds.{kinds_of};
ghost use Rattle.apv_tracks.specs.Plain.{plain_settings};
ghost use Rattle.apv_tracks.specs.States.{AreReady};
ghost use Rattle.apv_words.specs.Encoder.{HasEncBounds, HasEncFiles};

use apv_base::{MAX_UNIT_BYTES, qp_max};
use apv_encoding::unit as unit_law;
use apv_search::{Chosen, QpRange, least_qp};
use apv_words::EncSettings;
use apv_workers::{Crew, Gate, Track, transform_tiles};
use sizes::len_unit_fixed;
use std::thread::Threads;
use write::write_unit;

/// Why no access unit is made:
///
/// - `TooLarge`: a size limit is set, and the access unit has more bytes at each permitted QP; the least of its sizes.
/// - `Limit`: no size limit is set, and the access unit has that many bytes, more than 536,870,912 (L1).
/// - `Memory`: memory ran out.
#[derive(Clone, Copy, Debug, PartialEq, Eq)]
pub enum UnitFault {
    TooLarge(u64),
    Limit(u64),
    Memory,
}

/// A QP that is given, or another one.
fn qp_or(given: Option<u32>, other: u8) -> u8
    requires { IfSome given (λ qp. qp ≤ 75) }
    ensures { result ≡ given_or given other }
{
    match given {
        Some(qp) => qp as u8,
        None => other,
    }
}

/// The permitted QPs: the one of the settings, or with a limit those from the first to the last one, which are 0 and the
/// maximum of the bit depth of the primary frames where none is given.
fn permitted_qps(settings: &EncSettings, depth: u8) -> QpRange
    requires bounds { HasEncBounds settings.now }
    requires given { HasEncFiles settings.now }
    requires depth { IsDepth depth }
    requires qps { has_large_qp (plain_settings settings.now).rate depth ≡ false }
    ensures permits { (q : ℕ) → IsInRange result q
        → IsPermittedQp (plain_settings settings.now).rate depth q }
    ensures permitted { (q : ℕ) → IsPermittedQp (plain_settings settings.now).rate depth q
        → IsInRange result q }
    ensures order { result.least ≤ result.greatest }
    ensures few { result.greatest ≤ 75 }
{
    if settings.limit.is_some() {
        return QpRange {
            least: qp_or(settings.qp_min, 0),
            greatest: qp_or(settings.qp_max, qp_max(depth)),
        };
    }
    let qp = qp_or(settings.qp, 0);
    QpRange {
        least: qp,
        greatest: qp,
    }
}

/// The maximum of an access unit's bytes (`au_size`) by the settings, or the maximum of the type where they set none.
fn size_limit(settings: &EncSettings) -> u64
    ensures { result ≡ given_or settings.now.limit (2 ^ 64 - 1) }
{
    match settings.limit {
        Some(limit) => u64::from(limit),
        None => u64::MAX,
    }
}

/// The headers of tracks break no rule.
fn sound_headers(tracks: &[Track])
    ensures { AllByRecursion (λ track. IsSoundHeader track.header) tracks.now }
{
    for track in tracks {
        let _header = track.header();
    }
}

/// Transforms the samples of the frames of all tracks.
fn transform_all<R: Threads + Sync, G: Gate>(crew: &Crew<'_, R, G>, tracks: &mut [Track])
    requires { AllByRecursion HasFrameToCode tracks.old }
    ensures { AreTransformed tracks.old tracks.new }
{
    for index in 0..tracks.len() {
        transform_tiles(crew, &mut tracks[index]);
    }
}

/// Makes the access unit (`access_unit()`) of one frame of each track: the signature; access unit information, where it
/// is asked for; the PBU of each frame, in the order of the tracks; the metadata PBU, where there are payloads; and a
/// filler PBU, where it is asked for. All frames are at one QP, each component's kept below the maximum of its own bit
/// depth: the one of the settings, or the least permitted one at which the access unit keeps their limit. The vector
/// becomes the access unit, whatever it held. The bytes are the same for every number of workers.
///
/// The tracks are those that the settings ask for, in their order, and the QPs of the settings are permitted for the bit
/// depth of the first. Each has a frame with the grid of its header, samples of its bit depth, and padding as `Frame::pad`
/// leaves it. The payloads are whole ones, of at most 1,073,741,824 bytes. Only coefficients, levels, lengths and QP of a
/// track change. After a refusal nothing is said of the vector.
pub fn encode_unit<R: Threads + Sync, G: Gate>(
    crew: &Crew<'_, R, G>,
    settings: &EncSettings,
    tracks: &mut [Track],
    payloads: &[u8],
    unit: &mut Vec<u8>,
) -> Result<Chosen, UnitFault>
    requires bounds { HasEncBounds settings.now }
    requires given { HasEncFiles settings.now }
    requires tracks { length tracks.old ≡ length (kinds_of settings.now) }
    requires qps { HasPermittedQps (plain_settings settings.now).rate tracks.old }
    requires frames { AllByRecursion HasFrameToCode tracks.old }
    requires payloads { length payloads.now ≤ 2 ^ 30 }
    ensures coded { AreCoded tracks.old tracks.new }
    ensures at_qp { IfOk result (λ chosen.
        AllByRecursion (λ track. track.q ≡ chosen.qp) tracks.new) }
    ensures ok { IfOk result (λ chosen.
        (format : Format) (tile_offset : ℕ → ℤ) (pictures : Pictures)
        → let tracks_of_run = tracks_of (plain_settings settings.now) format tile_offset in
        AreReady tracks_of_run pictures tracks.old
        → IsUnitMade (plain_settings settings.now) format.depth tracks_of_run payloads.now
        pictures chosen tracks.new unit.new.items) }
    ensures err { IfErr result (λ fault.
        (format : Format) (tile_offset : ℕ → ℤ) (pictures : Pictures)
        → let tracks_of_run = tracks_of (plain_settings settings.now) format tile_offset in
        AreReady tracks_of_run pictures tracks.old
        → IsUnitFault (plain_settings settings.now) format.depth tracks_of_run payloads.now
        pictures fault) }
{
    sound_headers(tracks);
    let depth = tracks[0].header().info.depth;
    let range = permitted_qps(settings, depth);
    let fixed = len_unit_fixed(settings, tracks, payloads);
    transform_all(crew, tracks);
    unit_law();
    let chosen = match least_qp(crew, fixed, tracks, range, size_limit(settings)) {
        Ok(chosen) => chosen,
        Err(large) => return Err(UnitFault::TooLarge(large.smallest)),
    };
    if chosen.size > u64::from(MAX_UNIT_BYTES) {
        return Err(UnitFault::Limit(chosen.size));
    }
    match write_unit(crew, settings, tracks, payloads, chosen.size, unit) {
        Ok(()) => Ok(chosen),
        Err(_) => Err(UnitFault::Memory),
    }
}
