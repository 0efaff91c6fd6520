//! The QP that is chosen for a grey frame.
ghost use Rattle.std.specs.Prelude.{◌≡◌, ℕ, ◌<◌, ◌≤◌, length, slice_index};
ghost use Rattle.std.specs.Prelude.{IfOk, IfSome};
ghost use Rattle.apv_base.specs.model.Header.{grid_of};
ghost use Rattle.apv_workers.specs.Encode.{AreOfDepth};

use crate::{Chosen, QpRange, TooLarge, least_qp};
use apv_grid::{Frame, Pieces};
use apv_header::read_frame_header;
use apv_workers::{Crew, NoGate, Track, transform_tiles};
use std::alloc::{AllocError, Global};
use std::test::Fail;
use std::thread::Threads;

/// The header of a 4:0:0 frame of 16x16 samples of 10 bits, with one tile.
const ONE: [u8; 20] = [
    0x63, 0x7b, 0, 0, 0, 0x10, 0, 0, 0x10, 2, 0, 0, 0, 0, 0, 0x40, 0, 2, 0, 0,
];

/// Sets all values to 612.
fn fill(values: &mut [u16])
    ensures { (place : ℕ) → place < length values.old → slice_index values.new place < 1024 }
{
    for place in 0..values.len() {
        values[place] = 612;
    }
}

/// Sets all samples of a frame to 612.
fn fill_frame(frame: &mut Frame)
    ensures grid { frame.new.grid ≡ frame.old.grid }
    ensures below { (place : ℕ) → slice_index frame.new.values place < 1024 }
{
    let Pieces { values, .. } = frame.pieces();
    fill(values);
}

/// A track of grey frames, or nothing where the header isn't read.
fn track_of(alloc: Global, header: &[u8; 20]) -> Result<Option<Track>, AllocError>
    ensures { IfOk result (λ found. IfSome found (λ track.
        (track.frame.grid ≡ grid_of track.header)
        × AreOfDepth (grid_of track.header) track.frame.values)) }
{
    let Ok(head) = read_frame_header(header) else {
        return Ok(None);
    };
    let mut track = Track::new(alloc, &head.header, [0; 4])?;
    fill_frame(track.frame_mut());
    Ok(Some(track))
}

/// What is chosen for a grey frame with 46 fixed bytes, and nothing where its header isn't read.
fn choice<R: Threads + Sync>(
    rt: &R,
    alloc: Global,
    range: QpRange,
    limit: u64,
) -> Result<Option<Result<Chosen, TooLarge>>, AllocError>
    requires order { range.least ≤ range.greatest }
    requires qps { range.greatest ≤ 75 }
{
    let Some(mut track) = track_of(alloc, &ONE)? else {
        return Ok(None);
    };
    let crew = Crew::new(rt, &NoGate, 1);
    transform_tiles(&crew, &mut track);
    let mut tracks = [track];
    Ok(Some(least_qp(&crew, 46, &mut tracks, range, limit)))
}

#[test]
fn least_qp_within_a_limit(rt: HostRuntime) -> Result<(), Fail> {
    let range = QpRange {
        least: 0,
        greatest: 63,
    };
    for (limit, qp) in [(54, 48), (55, 19)] {
        let chosen = choice(&rt, rt.alloc(), range, limit)?;
        assert!(rt; chosen == Some(Ok(Chosen { qp, size: limit })));
    }
    Ok(())
}

#[test]
fn no_qp_within_a_limit(rt: HostRuntime) -> Result<(), Fail> {
    let range = QpRange {
        least: 0,
        greatest: 47,
    };
    let chosen = choice(&rt, rt.alloc(), range, 53)?;
    assert!(rt; chosen == Some(Err(TooLarge { smallest: 55 })));
    Ok(())
}
