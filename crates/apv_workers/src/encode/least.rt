//! Numbers of bytes that the data of a track have at least.
ghost use Rattle.std.specs.Prelude.{◌≡◌, ◌≤◌, ◌*◌, ◌^◌};
ghost use Rattle.apv_base.specs.model.Grid.{block_count};
ghost use Rattle.apv_base.specs.model.Header.{grid_of};
ghost use Rattle.apv_workers.specs.Least.{IsLeastTotal, IsLeastOfComponent};
ghost use Rattle.apv_workers.specs.TrackFields.{CanCode};

use crate::crew::Crew;
use crate::encode::counting::{ComponentLength, count_all, sum_of_all};
use crate::gate::Gate;
use crate::track::{Track, TrackHead};
use apv_grid::Blocks;
use apv_quant::sizes_reaching;
use apv_tile::least_len_component;
use std::thread::Threads;

/// Coefficients of whose levels a number of bytes is counted that they have at least.
#[derive(Drop)]
struct LeastCounting<'a> {
    head: &'a TrackHead,
    coeffs: &'a Blocks,
}

impl ComponentLength for LeastCounting<'_> {
    ghost ready = { λ d tile comp. CanCode d.head.now d.coeffs.now tile comp
        (64 * block_count (grid_of d.head.now.header) tile comp) };

    ghost counts = { λ d tile comp count.
        IsLeastOfComponent d.head.now d.coeffs.now tile comp count };

    fn length_of(&self, tile: u32, comp: u8) -> u32 {
        // So the coefficients are few.
        prove!(self.head.grid.blocks(tile, comp) <= 1048576);
        let header = &self.head.header;
        let matrix = &header.matrices[comp as usize];
        let sizes = sizes_reaching(matrix, self.head.qp(tile, comp), header.info.depth);
        least_len_component(self.coeffs.part(tile, comp), &sizes) as u32
    }
}

/// A number of bytes that the data of all tiles of a track have at least, at a QP and at each one below it, counted from
/// the coefficients alone, in less time than the levels take. The result is the same for every number of workers.
///
/// The coefficients are there, as `transform_tiles` leaves them. Only the lengths and the QP of the track change; `len_tiles`
/// sets the lengths again.
pub fn least_len_tiles<R: Threads + Sync, G: Gate>(
    crew: &Crew<'_, R, G>,
    track: &mut Track,
    q: u8,
) -> u64
    ensures least { IsLeastTotal track.old q result }
    ensures few { result ≤ 2 ^ 43 }
    ensures others { track.new ≡ record track.old { lengths = track.new.lengths; q = q } }
{
    track.head.q = q;
    let work = LeastCounting {
        head: &track.head,
        coeffs: &track.coeffs,
    };
    count_all(crew, &work, &track.head, track.lengths.as_mut_slice());
    sum_of_all(&track.head, track.lengths.as_slice())
}
