//! The parts of an access unit, written.
ghost use Rattle.std.specs.Prelude.{◌≡◌, ◌≤◌, ◌+◌, ◌^◌, length, IfOk, IfSome};
ghost use Rattle.std.specs.List.{AllByRecursion};
ghost use Rattle.apv_base.specs.model.Run.{MAX_UNIT};
ghost use Rattle.apv_encoding.specs.AccessUnit.{filler_pbu, metadata_pbu};
ghost use Rattle.apv_enc.specs.UnitParts.{au_info_part, listed_states, state_pbus, unit_bytes};
ghost use Rattle.apv_tracks.specs.Kinds.{kinds_of};
ghost use Rattle.apv_workers.specs.Track.{HasLengths};

use super::entries::entries_of;
use super::sizes::{len_au_info, len_filler, len_frame, len_metadata};
use apv_frame::put_frame;
use apv_tracks::{TrackKind, track_kinds};
use apv_unit::{AU_INFO, FILLER, METADATA, put_au_info, put_filler, put_pbu_header};
use apv_words::EncSettings;
use apv_workers::{Crew, Gate, Track};
use std::alloc::AllocError;
use std::thread::Threads;

/// The first bytes of an access unit (`signature`).
const SIGNATURE: [u8; 4] = [0x61, 0x50, 0x76, 0x31];

/// Writes the PBU of access unit information that lists the frames of at most four tracks, of these kinds, where it is
/// asked for.
fn put_au_info_pbu(asked: bool, kinds: &[TrackKind], tracks: &[Track], out: &mut [u8])
    requires kinds { length kinds.now ≡ length tracks.now }
    requires four { length tracks.now ≤ 4 }
    requires room { length out.old
        ≡ length (au_info_part asked (listed_states kinds.now tracks.now)) }
    ensures { out.new ≡ au_info_part asked (listed_states kinds.now tracks.now) }
{
    if !asked {
        return;
    }
    let entries = entries_of(kinds, tracks);
    let size = (out.len() - 4) as u32;
    let (header, body) = out.split_at_mut(8);
    put_pbu_header(AU_INFO, 1, size, header);
    let (listed, _) = entries.split_at(tracks.len());
    put_au_info(listed, body);
}

/// Writes the PBUs of the frames of tracks, of these kinds, in their order.
fn put_frames<R: Threads + Sync, G: Gate>(
    crew: &Crew<'_, R, G>,
    kinds: &[TrackKind],
    tracks: &[Track],
    out: &mut [u8],
)
    requires kinds { length kinds.now ≡ length tracks.now }
    requires lengths { AllByRecursion HasLengths tracks.now }
    requires bytes { length out.old ≤ MAX_UNIT }
    requires room { length out.old ≡ length (state_pbus kinds.now tracks.now) }
    ensures { out.new ≡ state_pbus kinds.now tracks.now }
{
    let mut place = 0;
    for index in 0..tracks.len() {
        let track = &tracks[index];
        let len = len_frame(track);
        let (_, after) = out.split_at_mut(place);
        let (frame, _) = after.split_at_mut(len);
        put_frame(crew, track, kinds[index].pbu_type, frame);
        place += len;
    }
}

/// Writes the metadata PBU of payloads where they aren't empty: the PBU header, `metadata_size` and the payloads.
fn put_metadata(payloads: &[u8], out: &mut [u8])
    requires payloads { length payloads.now ≤ 2 ^ 30 }
    requires room { length out.old ≡ length (metadata_pbu payloads.now) }
    ensures { out.new ≡ metadata_pbu payloads.now }
{
    if payloads.is_empty() {
        return;
    }
    let size = payloads.len() as u32;
    let (header, body) = out.split_at_mut(8);
    put_pbu_header(METADATA, 1, size + 8, header);
    let (metadata_size, bytes) = body.split_at_mut(4);
    metadata_size.copy_from_slice(&size.to_be_bytes());
    bytes.copy_from_slice(payloads);
}

/// Writes the filler PBU with a body of that many bytes, where it is asked for.
fn put_filler_pbu(filler: Option<u32>, out: &mut [u8])
    requires filler { IfSome filler (λ count. count ≤ 16777216) }
    requires room { length out.old ≡ length (filler_pbu filler) }
    ensures { out.new ≡ filler_pbu filler }
{
    let Some(count) = filler else {
        return;
    };
    let (header, body) = out.split_at_mut(8);
    put_pbu_header(FILLER, 1, 4 + count, header);
    put_filler(body);
}

/// Writes an access unit: the signature, access unit information where it is asked for, the PBUs of the frames, the
/// metadata PBU where there are payloads, and a filler PBU where it is asked for.
fn put_unit<R: Threads + Sync, G: Gate>(
    crew: &Crew<'_, R, G>,
    settings: &EncSettings,
    tracks: &[Track],
    payloads: &[u8],
    out: &mut [u8],
)
    requires tracks { length tracks.now ≡ length (kinds_of settings.now) }
    requires four { length tracks.now ≤ 4 }
    requires lengths { AllByRecursion HasLengths tracks.now }
    requires payloads { length payloads.now ≤ 2 ^ 30 }
    requires filler { IfSome settings.now.filler (λ count. count ≤ 16777216) }
    requires bytes { length out.old ≤ MAX_UNIT }
    requires room { length out.old ≡ length (unit_bytes settings.now tracks.now payloads.now) }
    ensures { out.new ≡ unit_bytes settings.now tracks.now payloads.now }
{
    let kinds = track_kinds(settings);
    let (signature, pbus) = out.split_at_mut(4);
    signature.copy_from_slice(&SIGNATURE);
    let (au_info, pbus) = pbus.split_at_mut(len_au_info(settings.au_info, tracks.len()));
    put_au_info_pbu(settings.au_info, &kinds, tracks, au_info);
    let after = len_metadata(payloads) + len_filler(settings.filler);
    let (frames, pbus) = pbus.split_at_mut(pbus.len() - after);
    put_frames(crew, &kinds, tracks, frames);
    let (metadata, filler) = pbus.split_at_mut(len_metadata(payloads));
    put_metadata(payloads, metadata);
    put_filler_pbu(settings.filler, filler);
}

/// Makes a vector an access unit of that many bytes, whatever it held. After an error nothing is said of it.
pub(super) fn write_unit<R: Threads + Sync, G: Gate>(
    crew: &Crew<'_, R, G>,
    settings: &EncSettings,
    tracks: &[Track],
    payloads: &[u8],
    size: u64,
    unit: &mut Vec<u8>,
) -> Result<(), AllocError>
    requires tracks { length tracks.now ≡ length (kinds_of settings.now) }
    requires four { length tracks.now ≤ 4 }
    requires lengths { AllByRecursion HasLengths tracks.now }
    requires payloads { length payloads.now ≤ 2 ^ 30 }
    requires filler { IfSome settings.now.filler (λ count. count ≤ 16777216) }
    requires bytes { size ≤ MAX_UNIT }
    requires size { size ≡ length (unit_bytes settings.now tracks.now payloads.now) }
    ensures { IfOk result (λ _. unit.new.items
        ≡ unit_bytes settings.now tracks.now payloads.now) }
{
    unit.resize(size as usize, 0)?;
    put_unit(crew, settings, tracks, payloads, unit.as_mut_slice());
    Ok(())
}
