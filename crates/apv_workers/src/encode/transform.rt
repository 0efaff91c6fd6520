//! The samples of a track, transformed.
ghost use Rattle.std.specs.Prelude.{◌≡◌, length};
ghost use Rattle.apv_base.specs.model.Header.{grid_of};
ghost use Rattle.apv_base.specs.model.Picture.{Samples};
ghost use Rattle.apv_grid.specs.Buffer.{value_count};
ghost use Rattle.apv_workers.specs.Encode.{AreOfDepth, IsPaddedFrom, AreCoefficients};
ghost use Rattle.apv_workers.specs.Encode.{CanTransform, AreTransformed};

use crate::crew::Crew;
use crate::encode::components::{ComponentWork, work_components};
use crate::gate::Gate;
use crate::track::Track;
use apv_grid::laws::samples_of_a_part;
use apv_grid::{Frame, Pieces};
use apv_tile::transform_component;
use std::thread::Threads;

/// The samples of a frame, which are to be transformed.
#[derive(Drop)]
struct Transforming<'a> {
    frame: &'a Frame,
}

impl ComponentWork<i16> for Transforming<'_> {
    ghost ready = { λ d tile comp values. CanTransform d.frame.now tile comp values };

    ghost done = { λ d tile comp values. AreTransformed d.frame.now tile comp values };

    fn work_on(&self, tile: u32, comp: u8, values: &mut [i16]) {
        samples_of_a_part();
        let samples = self.frame.part(tile, comp);
        transform_component(samples, self.frame.grid().format().depth, values);
    }
}

/// A frame has all values of its grid.
fn all_samples(frame: &mut Frame)
    ensures same { frame.new ≡ frame.old }
    ensures all { length frame.old.values ≡ value_count frame.old.grid }
{
    let Pieces { values, .. } = frame.pieces();
    let _count = values.len();
}

/// Transforms the samples of a track's frame: sets the coefficients of all blocks to those of its samples. The result
/// is the same for every number of workers.
///
/// The frame has the grid of the track's header, each sample is below `2 ^ BitDepth`, and the samples outside the visible
/// area are the nearest visible ones, as `Frame::pad` leaves them.
pub fn transform_tiles<R: Threads + Sync, G: Gate>(crew: &Crew<'_, R, G>, track: &mut Track)
    requires grid { track.old.frame.grid ≡ grid_of track.old.header }
    requires depth { AreOfDepth (grid_of track.old.header) track.old.frame.values }
    ensures coeffs { (samples : Samples)
        → IsPaddedFrom (grid_of track.old.header) samples track.old.frame.values
        → AreCoefficients (grid_of track.old.header) samples track.new.coeffs }
    ensures others { track.new ≡ record track.old { coeffs = track.new.coeffs } }
{
    samples_of_a_part();
    all_samples(&mut track.frame);
    let Pieces { values, .. } = track.coeffs.pieces();
    let work = Transforming {
        frame: &track.frame,
    };
    work_components(crew, &work, &track.head.grid, values);
}
