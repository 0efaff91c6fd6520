//! Crews of workers.
ghost use Rattle.std.specs.Prelude.{◌≡◌, ◌≤◌, OnOk, IfErr};
ghost use Rattle.apv_workers.specs.Work.{AreOf, AreReady, AreDone, BreaksFirst};

use crate::gate::Gate;
use crate::run::{ContentBreak, TileRun, TileWork, run};
use apv_scan::{CodeWords, StepTable};
use std::thread::Threads;

/// The workers among whom the work on tiles is divided: the runtime that gives threads, the gate,
/// and the number of workers. A crew may have the tables by which the components of tiles are read
/// and written in less time; the outcome is the same without them.
pub struct Crew<'a, R: Threads + Sync, G: Gate> {
    rt: &'a R,
    gate: &'a G,
    workers: u8,
    steps: Option<&'a StepTable>,
    words: Option<&'a CodeWords>,
}

impl<R: Threads + Sync, G: Gate> Drop for Crew<'_, R, G> {
    fn drop(self) {
        let Crew {
            rt: _,
            gate: _,
            workers: _,
            steps: _,
            words: _,
        } = self;
    }
}

impl<'a, R: Threads + Sync, G: Gate> Crew<'a, R, G> {
    /// A crew of 1 to 64 workers.
    pub fn new(rt: &'a R, gate: &'a G, workers: u8) -> Crew<'a, R, G>
        requires some { 1 ≤ workers }
        requires few { workers ≤ 64 }
    {
        Crew {
            rt,
            gate,
            workers,
            steps: None,
            words: None,
        }
    }

    /// A crew of 1 to 64 workers with the tables of a run: that by which components are read, and
    /// that by which they are written.
    pub fn with_tables(
        rt: &'a R,
        gate: &'a G,
        workers: u8,
        steps: &'a StepTable,
        words: &'a CodeWords,
    ) -> Crew<'a, R, G>
        requires some { 1 ≤ workers }
        requires few { workers ≤ 64 }
    {
        Crew {
            rt,
            gate,
            workers,
            steps: Some(steps),
            words: Some(words),
        }
    }

    /// The table by which components are read, if the crew has one.
    pub(crate) fn steps(&self) -> Option<&'a StepTable> {
        self.steps
    }

    /// The table by which components are written, if the crew has one.
    pub(crate) fn words(&self) -> Option<&'a CodeWords> {
        self.words
    }

    /// Works on a run of tiles, whose values are given.
    pub(crate) fn work<T: Send, W: TileWork<T>>(
        &self,
        work: &W,
        tiles: TileRun<'_>,
        values: &mut [T],
    ) -> Result<(), ContentBreak>
        requires run { AreOf tiles values.old }
        requires ready { AreReady (W.ready work.now) tiles values.old }
        ensures ok { OnOk result (AreDone (W.sound work.now) (W.done work.now)
            tiles.entry values.old values.new) }
        ensures err { IfErr result (BreaksFirst (W.sound work.now) (W.breaks work.now)
            tiles.entry) }
    {
        let workers = u32::from(self.workers);
        run(self.rt, self.gate, work, workers, tiles, values)
    }
}
