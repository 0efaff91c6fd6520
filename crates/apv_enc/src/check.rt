//! What is found of the access units of a generated video, one after another.
ghost use Rattle.std.specs.Prelude.{◌≡◌, ◌<◌, ◌≤◌, ◌*◌, OnOk, length};
ghost use Rattle.apv_base.specs.model.Judge.{DecodedFrame};
ghost use Rattle.apv_base.specs.model.Run.{MAX_UNIT};
ghost use Rattle.apv_enc.specs.Added.{HasFirstFrame, report_with};
ghost use Rattle.apv_enc.specs.Report.{empty_report};

use crate::own_unit::decode_own;
use apv_console::Report;
use apv_frame::UnitFrames;
use apv_generated::peak_difference;
use apv_search::Chosen;
use apv_workers::{Crew, Gate};
use std::alloc::{AllocError, Global};
use std::thread::Threads;

/// The report of the access units so far, and the decoded frames of the last one.
#[derive(Drop)]
pub(crate) struct Check {
    frames: UnitFrames,
    report: Report,
}

impl Check {
    ghost use Rattle.apv_enc.specs.Check.{report_in};

    /// A check of no access unit of the video that is generated from `seed`.
    pub(crate) fn new(alloc: Global, seed: u32) -> Check
        ensures { report_in result ≡ empty_report seed }
    {
        Check {
            frames: UnitFrames::new(alloc),
            report: Report {
                seed,
                frames: 0,
                bytes: 0,
                least_qp: 255,
                greatest_qp: 0,
                peak: 0,
            },
        }
    }

    /// The report so far.
    pub(crate) fn report(&self) -> Report
        ensures { result ≡ report_in self.now }
    {
        self.report
    }

    /// Decodes the next access unit, a valid one with a frame, of that number in its file, and takes it up with its QP and
    /// size: its first frame is compared with the generated picture. Fails only where memory ran out; then nothing is said
    /// of the check.
    pub(crate) fn add<R: Threads + Sync, G: Gate>(
        &mut self,
        crew: &Crew<'_, R, G>,
        unit: &[u8],
        number: u32,
        chosen: &Chosen,
    ) -> Result<(), AllocError>
        requires few { (report_in self.old).frames < 4294967295 }
        requires bytes { (report_in self.old).bytes ≤ (report_in self.old).frames * 536870916 }
        requires size { chosen.now.size ≤ MAX_UNIT }
        requires small { length unit.now ≤ MAX_UNIT }
        requires first { (first : DecodedFrame) × HasFirstFrame unit.now first }
        ensures report { OnOk result ((first : DecodedFrame) → HasFirstFrame unit.now first
            → report_in self.new ≡ report_with (report_in self.old) chosen.now first) }
        ensures qp { chosen.now.qp ≤ 255 }
    {
        decode_own(crew, &mut self.frames, unit, number)?;
        let report = self.report;
        let peak = peak_difference(report.seed, report.frames, &self.frames.frames()[0]);
        self.report = Report {
            seed: report.seed,
            frames: report.frames + 1,
            bytes: report.bytes + (4 + chosen.size),
            least_qp: u8::min(report.least_qp, chosen.qp),
            greatest_qp: u8::max(report.greatest_qp, chosen.qp),
            peak: u16::max(report.peak, peak),
        };
        Ok(())
    }
}
