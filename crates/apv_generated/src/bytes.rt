//! Generated pictures as bytes.
ghost use Rattle.std.specs.Prelude.{◌≡◌, ◌++◌, OnOk};
ghost use Rattle.apv_base.specs.model.Picture.{joined, picture};
ghost use Rattle.apv_encoding.specs.Generated.{generated_format, generated_picture};
ghost use Rattle.apv_generated.specs.Bytes.{component_bytes, row_bytes};

use crate::picture::generated;
use std::alloc::AllocError;

/// Appends the samples of the row `y` of a component of a picture, two bytes for each, the low one first.
fn push_row(
    seed: u32,
    number: u32,
    comp: u8,
    y: u32,
    width: u32,
    bytes: &mut Vec<u8>,
) -> Result<(), AllocError>
    ensures { OnOk result (bytes.new.items
        ≡ bytes.old.items ++ row_bytes (generated_picture seed number) comp width y) }
{
    for x in 0..width {
        let sample = generated(seed, comp, number, x, y);
        bytes.push((sample % 256) as u8)?;
        bytes.push((sample / 256) as u8)?;
    }
    Ok(())
}

/// Appends the samples of a component of a picture, row after row.
fn push_component(
    seed: u32,
    number: u32,
    comp: u8,
    width: u32,
    bytes: &mut Vec<u8>,
) -> Result<(), AllocError>
    ensures { OnOk result (bytes.new.items
        ≡ bytes.old.items ++ component_bytes (generated_picture seed number) comp width 360) }
{
    for y in 0..360 {
        push_row(seed, number, comp, y, width, bytes)?;
    }
    Ok(())
}

/// Appends the picture of that number, from 0 on, of the video that is generated from `seed`: its samples, component
/// after component, row after row, two bytes for each, the low one first.
pub(crate) fn push_picture(seed: u32, number: u32, bytes: &mut Vec<u8>) -> Result<(), AllocError>
    ensures { OnOk result (bytes.new.items
        ≡ bytes.old.items ++ picture generated_format (generated_picture seed number)) }
{
    push_component(seed, number, 0, 640, bytes)?;
    push_component(seed, number, 1, 320, bytes)?;
    push_component(seed, number, 2, 320, bytes)?;
    Ok(())
}
