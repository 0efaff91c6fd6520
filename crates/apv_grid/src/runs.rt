//! Samples of a row of macroblocks of a component: in runs of 8, whose values are side by side in
//! a block, and one by one.
ghost use Rattle.std.specs.Prelude.{◌≡◌, ℕ, ◌<◌, ◌≤◌, ◌+◌, ◌-◌, ◌*◌, ◌%◌, ◌^◌, length, slice_index};
ghost use Rattle.apv_grid.specs.Strip.{row_place, Copies, ReadsSamples, WritesSamples, SamplesAreWithin};

use std::simd::u16x8;

/// Copies 8 values.
#[inline]
pub(crate) fn copy_run(from: &[u16], a: usize, to: &mut [u16], b: usize)
    requires from { a + 8 ≤ length from.now }
    requires to { b + 8 ≤ length to.old }
    ensures { Copies from.now a to.old to.new b 8 }
{
    u16x8::from_slice(&from[a..a + 8]).copy_to_slice(&mut to[b..b + 8]);
}

/// The place of a sample's value, counted from that of the first sample of the row of macroblocks.
#[inline]
pub(crate) fn place_in_row(half: bool, x: usize) -> usize
    requires { x < 2 ^ 32 }
    ensures { result ≡ row_place half x }
{
    if half {
        x / 8 * 128 + x % 8
    } else {
        x / 16 * 256 + x / 8 % 2 * 64 + x % 8
    }
}

/// Reads the samples `x + i` of a row of macroblocks into the items `i` of a row, for each `i` from
/// `a` on, up to `b`.
#[inline]
fn read_samples(
    values: &[u16],
    start: usize,
    half: bool,
    x: usize,
    row: &mut [u16],
    a: usize,
    b: usize,
)
    requires range { (a ≤ b) × (b ≤ length row.old) }
    requires small { x + length row.old < 2 ^ 32 }
    requires within { SamplesAreWithin half start x a b (length values.now) }
    ensures { ReadsSamples half values.now start x row.old row.new a b }
{
    for i in a..b {
        row[i] = values[start + place_in_row(half, x + i)];
    }
}

/// Reads n whole runs, from the item `a` of the row on.
#[inline]
fn read_whole(
    values: &[u16],
    start: usize,
    half: bool,
    x: usize,
    row: &mut [u16],
    a: usize,
    runs: usize,
)
    requires run { 0 < runs → (x + a) % 8 ≡ 0 }
    requires range { a + 8 * runs ≤ length row.old }
    requires small { x + length row.old < 2 ^ 32 }
    requires within { SamplesAreWithin half start x a (a + 8 * runs) (length values.now) }
    ensures { ReadsSamples half values.now start x row.old row.new a (a + 8 * runs) }
{
    for k in 0..runs {
        let i = a + 8 * k;
        copy_run(values, start + place_in_row(half, x + i), row, i);
    }
}

/// Reads the samples of a row of macroblocks from `x` on into a row.
#[inline]
pub(crate) fn read_runs(values: &[u16], start: usize, half: bool, x: usize, row: &mut [u16])
    requires small { x + length row.old < 2 ^ 32 }
    requires within { SamplesAreWithin half start x 0 (length row.old) (length values.now) }
    ensures { ReadsSamples half values.now start x row.old row.new 0 (length row.old) }
{
    let len = row.len();
    let head = usize::min((8 - x % 8) % 8, len);
    let runs = (len - head) / 8;
    read_samples(values, start, half, x, row, 0, head);
    read_whole(values, start, half, x, row, head, runs);
    read_samples(values, start, half, x, row, head + 8 * runs, len);
}

/// Writes the items `i` of a row to the samples `x + i` of a row of macroblocks, for each `i` from
/// `a` on, up to `b`.
#[inline]
fn write_samples(
    values: &mut [u16],
    start: usize,
    half: bool,
    x: usize,
    row: &[u16],
    a: usize,
    b: usize,
)
    requires range { (a ≤ b) × (b ≤ length row.now) }
    requires small { x + length row.now < 2 ^ 32 }
    requires within { SamplesAreWithin half start x a b (length values.old) }
    ensures { WritesSamples half row.now start x values.old values.new a b }
{
    for i in a..b {
        values[start + place_in_row(half, x + i)] = row[i];
    }
}

/// Writes n whole runs, from the item `a` of the row on.
#[inline]
fn write_whole(
    values: &mut [u16],
    start: usize,
    half: bool,
    x: usize,
    row: &[u16],
    a: usize,
    runs: usize,
)
    requires run { 0 < runs → (x + a) % 8 ≡ 0 }
    requires range { a + 8 * runs ≤ length row.now }
    requires small { x + length row.now < 2 ^ 32 }
    requires within { SamplesAreWithin half start x a (a + 8 * runs) (length values.old) }
    ensures { WritesSamples half row.now start x values.old values.new a (a + 8 * runs) }
{
    for k in 0..runs {
        let i = a + 8 * k;
        copy_run(row, i, values, start + place_in_row(half, x + i));
    }
}

/// Writes a row to the samples of a row of macroblocks from `x` on.
#[inline]
pub(crate) fn write_runs(values: &mut [u16], start: usize, half: bool, x: usize, row: &[u16])
    requires small { x + length row.now < 2 ^ 32 }
    requires within { SamplesAreWithin half start x 0 (length row.now) (length values.old) }
    ensures { WritesSamples half row.now start x values.old values.new 0 (length row.now) }
{
    let len = row.len();
    let head = usize::min((8 - x % 8) % 8, len);
    let runs = (len - head) / 8;
    write_samples(values, start, half, x, row, 0, head);
    write_whole(values, start, half, x, row, head, runs);
    write_samples(values, start, half, x, row, head + 8 * runs, len);
}
