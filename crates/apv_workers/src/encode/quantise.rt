//! The coefficients of a track, quantised.
ghost use Rattle.std.specs.Prelude.{◌≡◌, length};
ghost use Rattle.apv_base.specs.model.Header.{grid_of};
ghost use Rattle.apv_base.specs.model.Nearest.{AreLevelsOf};
ghost use Rattle.apv_base.specs.model.Picture.{Samples};
ghost use Rattle.apv_workers.specs.Encode.{AreCoefficients, AreNearestTo};
ghost use Rattle.apv_workers.specs.Track.{qps_of, levels_of};
ghost use Rattle.apv_workers.specs.TrackFields.{CanCode, AreQuantised};

use crate::crew::Crew;
use crate::encode::components::{ComponentWork, work_components};
use crate::gate::Gate;
use crate::track::{Track, TrackHead};
use apv_grid::{Blocks, Pieces};
use apv_tile::quantise_component;
use std::thread::Threads;

/// Coefficients that are to be quantised.
#[derive(Drop)]
struct Quantising<'a> {
    head: &'a TrackHead,
    coeffs: &'a Blocks,
}

impl ComponentWork<i16> for Quantising<'_> {
    ghost ready = { λ d tile comp values. CanCode d.head.now d.coeffs.now tile comp (length values) };

    ghost done = { λ d tile comp values. AreQuantised d.head.now d.coeffs.now tile comp values };

    fn work_on(&self, tile: u32, comp: u8, values: &mut [i16]) {
        let coeffs = self.coeffs.part(tile, comp);
        quantise_component(coeffs, &self.head.scale(tile, comp), values);
    }
}

/// Finds the levels that are nearest to a track's coefficients, at a QP with the offset of each component and of each
/// tile, kept between 0 and the maximum of the bit depth (`tile_qp`). The result is the same for every number of workers.
/// It may be called again for the same coefficients at another QP.
pub fn quantise_tiles<R: Threads + Sync, G: Gate>(crew: &Crew<'_, R, G>, track: &mut Track, q: u8)
    ensures q { track.new.q ≡ q }
    ensures nearest { AreNearestTo track.new.header (qps_of track.new)
        track.new.coeffs track.new.levels }
    ensures picture { (samples : Samples)
        → AreCoefficients (grid_of track.new.header) samples track.new.coeffs
        → AreLevelsOf track.new.header (qps_of track.new) samples (levels_of track.new) }
    ensures others { track.new ≡ record track.old { q = q; levels = track.new.levels } }
{
    track.head.q = q;
    let Pieces { values, .. } = track.levels.pieces();
    let head = &track.head;
    let coeffs = &track.coeffs;
    work_components(crew, &Quantising { head, coeffs }, &head.grid, values);
}
