//! The structure of an access unit, judged.
mod unit;

use crate::plan::Plan;
use std::io;
use unit::{count_sound, unit};

/// Measures an access unit with a frame of 1920x1080 samples. The checksum is how often it was sound.
pub fn run(rt: &HostRuntime, plan: Plan) -> io::Result<()> {
    println!(rt; "structure")?;
    let bytes = unit(rt.alloc())?;
    plan.run(rt, "structure", "unit", || {
        count_sound(bytes.as_slice(), plan.rounds)
    })
}
