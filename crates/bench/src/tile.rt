//! A component of a tile, coded and decoded by tables.
mod sums;
mod tables;
mod work;

use crate::noise::Density;
use crate::plan::{Plan, too_many_rounds};
use std::io;
use tables::Tables;
use work::Work;

/// Measures a block in each call. What is written is what decoding reads.
fn run_component(rt: &HostRuntime, plan: Plan, tables: &Tables, work: &mut Work) -> io::Result<()> {
    plan.run(rt, "quantise_component", "block", || work.quantise(tables))?;
    plan.run(rt, "len_component_with", "block", || {
        work.count_with(tables)
    })?;
    plan.run(rt, "put_component_with", "block", || {
        work.write_with(tables)
    })?;
    plan.run(rt, "decode_component_with", "block", || {
        work.decode_with(tables)
    })?;
    plan.run(rt, "rebuild_component", "block", || work.rebuild(tables))
}

/// Measures a block in each call, for components of blocks of both densities, each of a block for
/// each round.
pub fn run(rt: &HostRuntime, plan: Plan) -> io::Result<()> {
    let tables = Tables::new(rt.alloc(), plan.depth())?;
    for density in Density::BOTH {
        println!(rt; "tile, {} levels", density.levels())?;
        let Some(mut work) = Work::new(rt.alloc(), plan.rounds, density)? else {
            return Err(too_many_rounds());
        };
        run_component(rt, plan, &tables, &mut work)?;
    }
    Ok(())
}
