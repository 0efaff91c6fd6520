ghost use Rattle.std.specs.Prelude.{◌^◌, ◌<◌, ◌≤◌, ℕ, slice_index};
ghost use Rattle.apv_base.specs.model.Format.{IsDepth};

use crate::{
    decode_component, decode_component_with, least_len_component, len_component,
    len_component_with, put_component, put_component_with, quantise_component, rebuild_component,
    transform_component,
};
use apv_base::{Matrix, Rule};
use apv_bits::BitWriter;
use apv_quant::Scale;
use apv_scan::{CodeWords, StepTable};
use std::test::Fail;

/// Components of four blocks of one value at 10 bits with flat matrices: the bytes, the QP, the
/// first level of a block, and the value.
const PLAIN: [(&str, u8, i16, u16); 3] = [
    ("8107D41F507D41F0", 0, 0, 512),
    ("51083E8107D41F507C", 22, 100, 612),
    ("9483E883EA0FA83E", 48, 5, 612),
];

/// Bytes that aren't four blocks with zeros up to a whole byte, and the rule that they break.
const BREAKS: [(&str, Rule); 7] = [
    ("40", Rule::V27),
    ("4000", Rule::V28),
    ("8107", Rule::V27),
    ("8320F80000000000", Rule::V29),
    ("401FF8283E400FFDF20F9003FF7C", Rule::V30),
    ("8107D41F507D41F1", Rule::V31),
    ("8107D41F507D41", Rule::V27),
];

/// The bytes that a text spells, two digits for each, and how many they are.
fn bytes_of(text: &str) -> ([u8; 24], usize)
    ensures { result.1 ≤ 24 }
{
    let mut bytes = [0; 24];
    let mut writer = BitWriter::new(&mut bytes);
    for character in text.chars() {
        let digit = character.to_digit(16).unwrap_or(0) % 16;
        if writer.left() >= 4 {
            writer.put(digit, 4);
        }
    }
    let end = writer.place().div_ceil(8) as usize;
    (bytes, end.min(24))
}

/// Four blocks, decoded with and without a table of steps, where both agree.
fn decoded(table: &StepTable, text: &str, scale: &Scale) -> Option<Result<[u16; 256], Rule>> {
    let (bytes, end) = bytes_of(text);
    let mut samples = [7; 256];
    let mut others = [8; 256];
    let answer = decode_component(&bytes[..end], scale, 10, &mut samples);
    let other = decode_component_with(table, &bytes[..end], scale.scaling(), 10, &mut others);
    if answer != other {
        return None;
    }
    match answer {
        Ok(()) if samples == others => Some(Ok(samples)),
        Ok(()) => None,
        Err(rule) => Some(Err(rule)),
    }
}

/// The coefficients of four blocks, and their levels.
fn coded(samples: &[u16; 256], depth: u8, scale: &Scale) -> ([i16; 256], [i16; 256])
    requires depth { IsDepth depth }
    requires samples { (place : ℕ) → place < 256 → slice_index samples.now place < 2 ^ depth }
{
    let mut coeffs = [3; 256];
    let mut levels = [4; 256];
    transform_component(samples, depth, &mut coeffs);
    quantise_component(&coeffs, scale, &mut levels);
    (coeffs, levels)
}

/// Whether levels are counted and written as the bytes that a text spells, with and without code
/// words that were made before.
fn is_written(words: &CodeWords, levels: &[i16; 256], text: &str) -> bool {
    let (bytes, end) = bytes_of(text);
    let len = len_component(levels) as usize;
    let other = len_component_with(words, levels) as usize;
    if len != end || other != end {
        return false;
    }
    let mut out = [0xff; 24];
    let mut others = [0xaa; 24];
    put_component(levels, &mut out[..len]);
    put_component_with(words, levels, &mut others[..other]);
    out[..len] == bytes[..end] && others[..other] == bytes[..end]
}

/// Four blocks of one value.
fn plain(value: u16, depth: u8) -> [u16; 256]
    requires { value < 2 ^ depth }
    ensures { (place : ℕ) → place < 256 → slice_index result place < 2 ^ depth }
{
    let mut samples = [0; 256];
    for place in 0..256 {
        samples[place] = value;
    }
    samples
}

#[test]
fn plain_blocks(rt: HostRuntime) -> Result<(), Fail> {
    let table = StepTable::new(rt.alloc())?;
    let words = CodeWords::new(rt.alloc())?;
    for (text, qp, level, value) in PLAIN {
        if qp > 63 || value > 1023 {
            continue;
        }
        let scale = Scale::of(&Matrix::flat(), qp, 10);
        let samples = plain(value, 10);
        let (_, levels) = coded(&samples, 10, &scale);
        let mut expected = [0; 256];
        for block in 0..4 {
            expected[64 * block] = level;
        }
        assert_eq!(rt; levels, expected, "{text}");
        assert!(rt; is_written(&words, &levels, text), "{text}");
        let mut rebuilt = [9; 256];
        rebuild_component(&levels, &scale, 10, &mut rebuilt);
        assert_eq!(rt; rebuilt, samples, "{text}");
        assert_eq!(rt; decoded(&table, text, &scale), Some(Ok(samples)), "{text}");
    }
    Ok(())
}

#[test]
fn breaks(rt: HostRuntime) -> Result<(), Fail> {
    let table = StepTable::new(rt.alloc())?;
    let scale = Scale::of(&Matrix::flat(), 0, 10);
    for (text, rule) in BREAKS {
        assert_eq!(rt; decoded(&table, text, &scale), Some(Err(rule)), "{text}");
    }
    Ok(())
}

#[test]
fn samples_of_levels(rt: HostRuntime) {
    let mut levels = [0; 128];
    levels[0] = 1000;
    levels[4] = -900;
    levels[8] = 1000;
    levels[12] = -900;
    levels[65] = 1;
    let mut values = [16; 64];
    values[1] = 32;
    let Some(matrix) = Matrix::of(values) else {
        return;
    };
    let mut samples = [0; 128];
    rebuild_component(&levels, &Scale::of(&matrix, 22, 10), 10, &mut samples);
    assert_eq!(rt; [samples[0], samples[1], samples[56]], [751, 1023, 473]);
    for row in samples[64..].chunks_exact(8) {
        assert_eq!(rt; row, [515, 514, 514, 513, 511, 510, 510, 509].as_slice());
    }
}

#[test]
fn maximum(rt: HostRuntime) {
    let mut rebuilt = [0; 256];
    let samples = plain(4095, 12);
    let scale = Scale::of(&Matrix::flat(), 0, 12);
    let (coeffs, levels) = coded(&samples, 12, &scale);
    rebuild_component(&levels, &scale, 12, &mut rebuilt);
    assert_eq!(rt; (coeffs[0], levels[192], rebuilt), (16376, 26202, samples));
    let Some(ones) = Matrix::of([1; 64]) else {
        return;
    };
    let scale = Scale::of(&ones, 0, 10);
    let (coeffs, levels) = coded(&plain(1023, 10), 10, &scale);
    rebuild_component(&levels, &scale, 10, &mut rebuilt);
    assert_eq!(rt;
        (coeffs[0], levels[192], rebuilt),
        (16352, 32767, [672; 256])
    );
}

#[test]
fn bytes_that_a_component_has_at_least(rt: HostRuntime) {
    // The sizes at QP 22 of 10 bits. A level of 1 takes 3 bits at least, and one of 2 takes 4.
    let sizes = [17, 49, 81, 145, 273, 529, 1041, 2065];
    assert_eq!(rt; least_len_component(&[16; 64], &sizes), 0);
    assert_eq!(rt; least_len_component(&[-48; 64], &sizes), 24);
    assert_eq!(rt; least_len_component(&[49; 128], &sizes), 63);
}
