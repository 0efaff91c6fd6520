//! The least QP at which an access unit is small enough.
ghost use Rattle.std.specs.Prelude.{◌≡◌, ℕ, ◌<◌, ◌≤◌, ◌^◌, length, IfOk, IfErr};
ghost use Rattle.apv_search.specs.Choice.{AreAtQp, AreRequantised, IsAtQp, data_of, frame_data};
ghost use Rattle.apv_search.specs.Choice.{AreLeftAt, IsInRange, IsLargeAt, IsLeast, IsLeastData, IsTooLarge};

use crate::choice::{Chosen, QpRange, TooLarge};
use apv_workers::{Crew, Gate, Track, least_len_tiles, len_tiles, quantise_tiles, some_levels};
use std::thread::Threads;

/// Finds the levels of a track at a QP and the lengths of their data, and returns the sum of the lengths.
fn code_track<R: Threads + Sync, G: Gate>(crew: &Crew<'_, R, G>, track: &mut Track, qp: u8) -> u64
    ensures at_qp { IsAtQp qp track.old track.new }
    ensures bytes { result ≡ frame_data track.new }
    ensures few { result ≤ 2 ^ 43 }
{
    quantise_tiles(crew, track, qp);
    len_tiles(crew, track)
}

/// Finds the levels of all tracks at a QP and the lengths of their data, and returns the sum of the lengths.
fn code_at<R: Threads + Sync, G: Gate>(crew: &Crew<'_, R, G>, tracks: &mut [Track], qp: u8) -> u64
    requires { length tracks.old ≤ 4 }
    ensures at_qp { AreAtQp qp tracks.old tracks.new }
    ensures bytes { result ≡ data_of tracks.new }
    ensures few { result ≤ 2 ^ 45 }
{
    let mut total = 0;
    for index in 0..tracks.len() {
        total += code_track(crew, &mut tracks[index], qp);
    }
    total
}

/// A number of bytes that the data of all tracks have at least, at a QP and at each one below it.
fn least_data<R: Threads + Sync, G: Gate>(
    crew: &Crew<'_, R, G>,
    tracks: &mut [Track],
    qp: u8,
) -> u64
    requires { length tracks.old ≤ 4 }
    ensures least { IsLeastData tracks.old qp result }
    ensures few { result ≤ 2 ^ 45 }
    ensures others { AreRequantised tracks.old tracks.new }
{
    let mut total = 0;
    for index in 0..tracks.len() {
        total += least_len_tiles(crew, &mut tracks[index], qp);
    }
    total
}

/// The first QP that is to be tried: an access unit has more bytes than the limit at each permitted QP before it. It is
/// found without levels, by halving the range.
fn first_qp<R: Threads + Sync, G: Gate>(
    crew: &Crew<'_, R, G>,
    fixed: u64,
    tracks: &mut [Track],
    range: QpRange,
    limit: u64,
) -> u8
    requires few { length tracks.old ≤ 4 }
    requires order { range.least ≤ range.greatest }
    requires qps { range.greatest ≤ 75 }
    requires fixed { fixed ≤ 2 ^ 40 }
    ensures range { IsInRange range result }
    ensures before { (q : ℕ) → range.least ≤ q → q < result → IsLargeAt fixed tracks.old limit q }
    ensures others { AreRequantised tracks.old tracks.new }
{
    some_levels();
    let mut first = range.least;
    let mut last = range.greatest;
    while first < last {
        let middle = first + (last - first) / 2;
        if fixed + least_data(crew, tracks, middle) > limit {
            first = middle + 1;
        } else {
            last = middle;
        }
    }
    first
}

/// Tries the QPs of a range, from the least on, up to the first at which an access unit has at most that many bytes.
fn try_qps<R: Threads + Sync, G: Gate>(
    crew: &Crew<'_, R, G>,
    fixed: u64,
    tracks: &mut [Track],
    range: QpRange,
    limit: u64,
) -> Result<Chosen, TooLarge>
    requires few { length tracks.old ≤ 4 }
    requires order { range.least ≤ range.greatest }
    requires qps { range.greatest ≤ 75 }
    requires fixed { fixed ≤ 2 ^ 40 }
    ensures least { IfOk result (IsLeast fixed tracks.old range limit) }
    ensures at_qp { IfOk result (λ chosen. AreLeftAt fixed chosen tracks.old tracks.new) }
    ensures large { IfErr result (IsTooLarge fixed tracks.old range limit) }
    ensures others { AreRequantised tracks.old tracks.new }
{
    let mut smallest = u64::MAX;
    for qp in range.least..range.greatest + 1 {
        let size = fixed + code_at(crew, tracks, qp);
        if size <= limit {
            return Ok(Chosen { qp, size });
        }
        smallest = u64::min(smallest, size);
    }
    Err(TooLarge { smallest })
}

/// Finds the least permitted QP at which an access unit has at most that many bytes, and its bytes at it (`au_size`). The
/// access unit has at each QP some fixed bytes, at most 1,099,511,627,776, and those of the data of all tiles of the
/// frames of 1 to 4 tracks (`tile_data()`). It may have more bytes at a greater QP: each QP is tried, from the least on,
/// but for those at which the access unit is too large by a bound that takes less time than its levels.
///
/// The coefficients of the tracks are there, as `transform_tiles` leaves them. The tracks are left at the QP that is
/// chosen, with their levels and lengths. Only levels, lengths and QP of a track change. The result is the same for every
/// number of workers. The range isn't empty.
///
/// # Errors
///
/// `TooLarge` where the access unit has more bytes at each permitted QP. The tracks are then left at some QP.
pub fn least_qp<R: Threads + Sync, G: Gate>(
    crew: &Crew<'_, R, G>,
    fixed: u64,
    tracks: &mut [Track],
    range: QpRange,
    limit: u64,
) -> Result<Chosen, TooLarge>
    requires some { 1 ≤ length tracks.old }
    requires few { length tracks.old ≤ 4 }
    requires order { range.least ≤ range.greatest }
    requires qps { range.greatest ≤ 75 }
    requires fixed { fixed ≤ 2 ^ 40 }
    ensures least { IfOk result (IsLeast fixed tracks.old range limit) }
    ensures at_qp { IfOk result (λ chosen. AreLeftAt fixed chosen tracks.old tracks.new) }
    ensures large { IfErr result (IsTooLarge fixed tracks.old range limit) }
    ensures others { AreRequantised tracks.old tracks.new }
{
    let least = first_qp(crew, fixed, tracks, range, limit);
    let rest = QpRange { least, ..range };
    match try_qps(crew, fixed, tracks, rest, limit) {
        Ok(chosen) => Ok(chosen),
        // The least of all sizes is asked for.
        Err(_) => try_qps(crew, fixed, tracks, range, limit),
    }
}
