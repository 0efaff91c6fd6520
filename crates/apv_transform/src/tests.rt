use super::*;
use crate::kernel::{forward_columns, forward_rows, inverse_columns, inverse_rows, transpose};
use crate::lanes::eight;
use std::simd::prelude::*;

#[test]
fn gives_worked_samples(rt: HostRuntime) {
    let mut coeffs = [0; 64];
    coeffs[0] = 32000;
    coeffs[8] = 32000;
    coeffs[4] = -28800;
    coeffs[12] = -28800;
    let samples = inverse(&coeffs, 10);
    for (place, want) in [(0, 751), (1, 1023), (56, 473)] {
        assert_eq!(rt; samples.get(place).copied(), Some(want), "at {place}");
    }
}

#[test]
fn gives_worked_samples_of_12_bits(rt: HostRuntime) {
    let mut coeffs = [0; 64];
    coeffs[0] = 1000;
    coeffs[1] = -700;
    coeffs[10] = 300;
    coeffs[63] = 40;
    let samples = inverse(&coeffs, 12);
    for (place, want) in [(0, 2120), (7, 2363), (56, 1982), (29, 2244)] {
        assert_eq!(rt; samples.get(place).copied(), Some(want), "at {place}");
    }
}

#[test]
fn gives_worked_coefficients(rt: HostRuntime) {
    let mut samples = [512; 64];
    samples[0] = 1023;
    let coeffs = forward(&samples, 10);
    for (place, want) in [(0, 256), (8, 355), (1, 355), (63, 20)] {
        assert_eq!(rt; coeffs.get(place).copied(), Some(want), "at {place}");
    }
}

#[test]
fn passes_give_worked_lanes(rt: HostRuntime) {
    let corner = i32x8::from_array([511, 0, 0, 0, 0, 0, 0, 0]);
    let zero = i32x8::splat(0);
    let residuals = eight(corner, zero, zero, zero, zero, zero, zero, zero);
    let sums = forward_rows(&residuals, 10);
    let coeffs = forward_columns(&transpose(&sums));
    let columns = inverse_columns(&coeffs);
    let rows = inverse_rows(&transpose(&columns), 10);
    assert_eq!(rt;
        coeffs[0].to_array(),
        [256, 355, 335, 299, 256, 200, 140, 72]
    );
    assert_eq!(rt; columns[0].to_array()[1], 1424);
    assert_eq!(rt; rows[0].to_array()[0], 513);
}
