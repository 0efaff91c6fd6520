//! The worked values.
ghost use Rattle.std.specs.Prelude.{◌≤◌};

use crate::{Scale, Scaling, sizes_reaching};
use apv_base::{Matrix, component_qp};
use std::test::Fail;

/// The scale at 10 bits and a QP of a matrix with one value everywhere.
fn scale(value: u8, qp: u8) -> Result<Scale, Fail>
    requires { qp ≤ 63 }
{
    let matrix = Matrix::of([value; 64]).ok_or("a value of 0")?;
    Ok(Scale::of(&matrix, qp, 10))
}

/// The nearest level, alone and in a block.
fn nearest(value: u8, qp: u8, coeff: i16) -> Result<(i16, i16), Fail>
    requires { qp ≤ 63 }
{
    let scale = scale(value, qp)?;
    Ok((
        scale.nearest(coeff, 5),
        scale.quantise_block(&[coeff; 64])[63],
    ))
}

/// The scaled level, alone and in a block.
fn scaled(value: u8, qp: u8, level: i16) -> Result<(i16, i16), Fail>
    requires { qp ≤ 63 }
{
    let scale = scale(value, qp)?;
    Ok((scale.scaled(level, 5), scale.scale_block(&[level; 64])[63]))
}

/// The scaled level, alone and in a block, by what a decoder makes.
fn scaled_by_scaling(value: u8, qp: u8, level: i16) -> Result<(i16, i16), Fail>
    requires { qp ≤ 63 }
{
    let matrix = Matrix::of([value; 64]).ok_or("a value of 0")?;
    let scaling = Scaling::of(&matrix, qp, 10);
    Ok((
        scaling.scaled(level, 5),
        scaling.scale_block(&[level; 64])[63],
    ))
}

#[test]
fn worked_values(rt: HostRuntime) -> Result<(), Fail> {
    assert_eq!(rt; nearest(16, 22, 16)?, (0, 0));
    assert_eq!(rt; nearest(16, 22, 17)?, (1, 1));
    assert_eq!(rt; nearest(16, 22, -16)?, (0, 0));
    assert_eq!(rt; nearest(16, 22, 48)?, (1, 1));
    assert_eq!(rt; nearest(16, 22, 3200)?, (100, 100));
    assert_eq!(rt; nearest(1, 0, 16352)?, (32767, 32767));
    assert_eq!(rt; scaled(16, 22, 100)?, (3200, 3200));
    assert_eq!(rt; scaled(16, 0, 1)?, (3, 3));
    assert_eq!(rt; scaled(16, 0, -1)?, (-2, -2));
    assert_eq!(rt; scaled(255, 63, 32767)?, (32767, 32767));
    assert_eq!(rt; scaled(255, 63, -32768)?, (-32768, -32768));
    Ok(())
}

#[test]
fn worked_values_of_a_scaling(rt: HostRuntime) -> Result<(), Fail> {
    assert_eq!(rt; scaled_by_scaling(16, 0, 1)?, (3, 3));
    assert_eq!(rt; scaled_by_scaling(16, 0, -1)?, (-2, -2));
    assert_eq!(rt; scaled_by_scaling(255, 63, 32767)?, (32767, 32767));
    assert_eq!(rt; scaled_by_scaling(255, 63, -32768)?, (-32768, -32768));
    Ok(())
}

#[test]
fn scaling_at_12_bits(rt: HostRuntime) -> Result<(), Fail> {
    let mut values = [0; 64];
    let mut levels = [0; 64];
    for place in 0..64u8 {
        values[place as usize] = 1 + 4 * place;
        levels[place as usize] = 100 * i16::from(place) - 3200;
    }
    let matrix = Matrix::of(values).ok_or("a value of 0")?;
    for (qp, at_10, at_40) in [(0, -3523, 5031), (11, -12508, 17861)] {
        let coeffs = Scaling::of(&matrix, qp, 12).scale_block(&levels);
        assert_eq!(rt; (coeffs[10], coeffs[40]), (at_10, at_40), "at {qp}");
        let others = Scale::of(&matrix, qp, 12).scale_block(&levels);
        assert_eq!(rt; coeffs, others, "at {qp}");
    }
    Ok(())
}

#[test]
fn matrices_and_component_qps(rt: HostRuntime) {
    let mut values = [16; 64];
    assert!(rt; Matrix::of(values).is_some());
    values[63] = 0;
    assert!(rt; Matrix::of(values).is_none());
    for (qp, offset, depth, want) in [
        (0, -1, 10, 0),
        (22, -3, 10, 19),
        (63, 1, 10, 63),
        (75, 127, 12, 75),
        (255, 127, 12, 75),
        (0, -128, 12, 0),
    ] {
        assert_eq!(rt; component_qp(qp, offset, depth), want, "at {qp}, {offset}");
    }
}

#[test]
fn sizes_that_reach_levels(rt: HostRuntime) {
    // A level of 1 is worth 32 coefficients, and one half of it is no level.
    let sizes = sizes_reaching(&Matrix::flat(), 22, 10);
    assert_eq!(rt; sizes, [17, 49, 81, 145, 273, 529, 1041, 2065]);
    let scale = Scale::of(&Matrix::flat(), 22, 10);
    assert_eq!(rt; (scale.nearest(48, 5), scale.nearest(49, 5)), (1, 2));
}
