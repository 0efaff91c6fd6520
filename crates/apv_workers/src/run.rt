//! Work on a run of consecutive tiles, divided among workers.
ghost use Rattle.std.specs.Prelude.{◌≡◌, ℕ, ◌+◌, ◌-◌, ◌<◌, ◌≤◌, List, OnOk, IfErr};
ghost use Rattle.std.specs.Thread.{IsSync, IsSend};
ghost use Rattle.apv_workers.specs.Work.{AreOf, AreReady, AreDone, BreaksFirst, EitherBreaks};
ghost use Rattle.apv_workers.specs.Work.{component_break};
ghost use Rattle.apv_workers.specs.declared.run.ComponentBreak.{ComponentBreak};

use crate::gate::Gate;
use apv_base::Rule;
use std::thread::{Threads, join_mut};

/// The rule that the data of a component of a tile break.
#[derive(Clone, Copy, Debug, PartialEq, Eq)]
pub struct ComponentBreak {
    /// The component, 0 to 3.
    pub comp: u8,
    /// The rule, `V27` to `V31`.
    pub rule: Rule,
}

/// The rule that the content of a frame breaks, and where.
#[derive(Clone, Copy, Debug, PartialEq, Eq)]
pub struct ContentBreak {
    /// The tile, counted from 0 row after row.
    pub tile: u32,
    /// The component, 0 to 3.
    pub comp: u8,
    /// The rule, `V27` to `V31`.
    pub rule: Rule,
}

/// Consecutive tiles: where the values of all tiles of a frame begin in their buffer, with the end
/// of the last tile, the first tile of the run, and the number of its tiles.
#[derive(Clone, Copy)]
pub struct TileRun<'a> {
    pub cuts: &'a [usize],
    pub first: u32,
    pub count: u32,
}

/// The work on one tile, which changes that tile's part of a buffer.
pub trait TileWork<T>: Sync {
    /// The part of a tile that the work may be given.
    ghost ready: { Self → ℕ → List T → Type 0 };

    /// The tile breaks no rule.
    ghost sound: { Self → ℕ → Type 0 };

    /// The first rule that the tile breaks.
    ghost breaks: { Self → ℕ → ComponentBreak → Type 0 };

    /// What the work makes of a part.
    ghost done: { Self → ℕ → List T → List T → Type 0 };

    /// Works on a tile, whose part is given.
    fn work(&self, tile: u32, part: &mut [T]) -> Result<(), ComponentBreak>
        requires { ready self.now tile part.old }
        ensures ok { OnOk result (sound self.now tile × done self.now tile part.old part.new) }
        ensures err { IfErr result (λ broken. breaks self.now tile broken) };
}

/// Works on the tiles of a run, whose values are given, by at least one worker. With one worker or
/// one tile it goes in order. Else the left half, of half the tiles rounded down, has half the
/// workers rounded down, and the right half has the others. Returns the first break.
#[cycle(halves)]
pub(crate) fn run<R: Threads + Sync, G: Gate, T: Send, W: TileWork<T>>(
    rt: &R,
    gate: &G,
    work: &W,
    workers: u32,
    tiles: TileRun<'_>,
    values: &mut [T],
) -> Result<(), ContentBreak>
    requires run { AreOf tiles values.old }
    requires ready { AreReady (W.ready work.now) tiles values.old }
    ensures ok { OnOk result (AreDone (W.sound work.now) (W.done work.now)
        tiles.entry values.old values.new) }
    ensures err { IfErr result (BreaksFirst (W.sound work.now) (W.breaks work.now) tiles.entry) }
{
    let TileRun { cuts, first, count } = tiles;
    if count == 0 {
        return Ok(());
    }
    if count == 1 {
        gate.enter(first);
        return match work.work(first, values) {
            Ok(()) => Ok(()),
            Err(broken) => Err(content_break(first, broken)),
        };
    }
    let low = count / 2;
    let middle = first + low;
    let mid = cuts[middle as usize] - cuts[first as usize];
    let (left, right) = values.split_at_mut(mid);
    let lower = TileRun {
        cuts,
        first,
        count: low,
    };
    let upper = TileRun {
        cuts,
        first: middle,
        count: count - low,
    };
    both_halves(rt, gate, work, workers, lower, left, upper, right)
}

/// A break in a component of a tile.
fn content_break(tile: u32, broken: ComponentBreak) -> ContentBreak
    ensures tile { result.tile ≡ tile }
    ensures comp { component_break result ≡ broken }
{
    ContentBreak {
        tile,
        comp: broken.comp,
        rule: broken.rule,
    }
}

/// Works on the two halves of a run.
#[cycle(halves)]
fn both_halves<R: Threads + Sync, G: Gate, T: Send, W: TileWork<T>>(
    rt: &R,
    gate: &G,
    work: &W,
    workers: u32,
    lower: TileRun<'_>,
    left: &mut [T],
    upper: TileRun<'_>,
    right: &mut [T],
) -> Result<(), ContentBreak>
    requires some { (0 < lower.count) × (0 < upper.count) }
    requires middle { upper.first ≡ lower.first + lower.count }
    requires run_left { AreOf lower left.old }
    requires run_right { AreOf upper right.old }
    requires ready_left { AreReady (W.ready work.now) lower left.old }
    requires ready_right { AreReady (W.ready work.now) upper right.old }
    ensures ok_left { OnOk result (AreDone (W.sound work.now) (W.done work.now)
        lower.entry left.old left.new) }
    ensures ok_right { OnOk result (AreDone (W.sound work.now) (W.done work.now)
        upper.entry right.old right.new) }
    ensures err { IfErr result (EitherBreaks (W.sound work.now) (W.breaks work.now)
        lower.entry upper.entry) }
{
    if workers < 2 {
        match run(rt, gate, work, 1, lower, left) {
            Ok(()) => {}
            Err(broken) => return Err(broken),
        }
        return run(rt, gate, work, 1, upper, right);
    }
    let fewer = workers / 2;
    let others = workers - fewer;
    let mut first_half = || -> Result<(), ContentBreak>
        requires { IsSync R.row × IsSync G.row × IsSync W.row × IsSend T.row
            × AreOf lower left.now × AreReady (W.ready work.now) lower left.now }
        ensures ok { OnOk result (AreDone (W.sound work.entry.now) (W.done work.entry.now)
            lower.entry left.entry.now left.exit.now) }
        ensures err { IfErr result (BreaksFirst (W.sound work.entry.now) (W.breaks work.entry.now)
            lower.entry) }
    { run(rt, gate, work, fewer, lower, left) };
    let mut second_half = || -> Result<(), ContentBreak>
        requires { IsSync R.row × IsSync G.row × IsSync W.row × IsSend T.row
            × AreOf upper right.now × AreReady (W.ready work.now) upper right.now }
        ensures ok { OnOk result (AreDone (W.sound work.entry.now) (W.done work.entry.now)
            upper.entry right.entry.now right.exit.now) }
        ensures err { IfErr result (BreaksFirst (W.sound work.entry.now) (W.breaks work.entry.now)
            upper.entry) }
    { run(rt, gate, work, others, upper, right) };
    let (in_left, in_right) = join_mut(rt, &mut first_half, &mut second_half);
    match in_left {
        Ok(()) => in_right,
        Err(broken) => Err(broken),
    }
}
