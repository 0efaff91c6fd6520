//! The line for a report of a run over a generated video.
ghost use Rattle.std.specs.Prelude.{◌≡◌, IfOk, string_bytes};
ghost use Rattle.apv_console.specs.Line.{encoded_text, report_line};

use std::alloc::{AllocError, Global};

/// What a run found that encoded a generated video.
///
/// - `seed`: the number that the video was generated from.
/// - `frames`: the number of frames.
/// - `bytes`: the size of the file of access units in bytes, each after the four bytes of its size (`au_size`).
/// - `least_qp`, `greatest_qp`: the least and the greatest QP of an access unit, before the offsets of components and tiles.
/// - `peak`: the maximum difference between a sample of the video and the decoded one, 0 to 65,535.
#[derive(Clone, Copy, Debug, PartialEq, Eq)]
pub struct Report {
    pub seed: u32,
    pub frames: u32,
    pub bytes: u64,
    pub least_qp: u8,
    pub greatest_qp: u8,
    pub peak: u16,
}

/// `generated 7: frames 8, bytes 1234567`: what was encoded, and the size of the file.
fn encoded(alloc: Global, report: &Report) -> Result<String, AllocError>
    ensures { IfOk result (λ text. string_bytes text ≡ encoded_text report.now) }
{
    let (seed, frames, bytes) = (report.seed, report.frames, report.bytes);
    format!(in alloc; "generated {seed}: frames {frames}, bytes {bytes}")
}

/// The console's line for a report, with its line feed:
/// `generated 7: frames 8, bytes 1234567, least qp 20, greatest qp 20, peak difference 25`.
pub fn report_line_of(alloc: Global, report: &Report) -> Result<String, AllocError>
    ensures { IfOk result (λ text. string_bytes text ≡ report_line report.now) }
{
    let (least, greatest, peak) = (report.least_qp, report.greatest_qp, report.peak);
    let encoded = encoded(alloc, report)?;
    format!(in alloc;
        "{encoded}, least qp {least}, greatest qp {greatest}, peak difference {peak}\n"
    )
}
