//! How often work is run, and its least times.
ghost use Rattle.apv_base.specs.model.Format.{IsDepth};

use std::io;
use std::io::ErrorKind;
use std::time::{Duration, Instant};

/// The least time of the batches so far.
#[derive(Clone, Copy)]
pub struct Least {
    nanoseconds: u64,
}

impl Least {
    /// Of no batch yet.
    pub fn none() -> Least {
        Least {
            nanoseconds: u64::MAX,
        }
    }

    /// Takes the time of a batch into account.
    pub fn take(&mut self, time: Duration) {
        let nanoseconds = u64::try_from(time.as_nanos()).unwrap_or(u64::MAX);
        self.nanoseconds = self.nanoseconds.min(nanoseconds);
    }

    /// The tenths of a nanosecond of a round, where a batch has this number of rounds, and 0 where
    /// no batch was timed.
    fn tenths_a_round(self, rounds: u32) -> u64 {
        self.nanoseconds.checked_mul(10).unwrap_or(0) / u64::from(rounds.max(1))
    }
}

/// How often the program runs each call.
#[derive(Clone, Copy, PartialEq, Eq, Debug)]
pub struct Plan {
    /// The rounds of a batch.
    pub rounds: u32,
    /// The batches that are timed; none where times aren't wanted.
    pub batches: Option<u32>,
}

impl Plan {
    /// Runs a batch, which returns a checksum, and prints `NAME: checksum CHECKSUM`; where times are
    /// wanted, runs it BATCHES times, and prints `NAME: checksum CHECKSUM, TIME ns a UNIT`, where
    /// TIME is a round's part of the least time. Fails where the clock or the output does.
    pub fn run<F: FnMut() -> u64>(
        &self,
        rt: &HostRuntime,
        name: &str,
        unit: &str,
        mut batch: F,
    ) -> io::Result<()>
        requires { F.IsAlwaysCallable batch }
    {
        let mut least = Least::none();
        let mut checksum = 0;
        for _batch in 0..self.batches.unwrap_or(1) {
            let start = Instant::now(rt)?;
            checksum = batch();
            least.take(start.elapsed(rt)?);
        }
        self.print(rt, name, unit, checksum, least)
    }

    /// Prints what `run` does, where the least time of the batches is this one.
    pub fn print(
        &self,
        rt: &HostRuntime,
        name: &str,
        unit: &str,
        checksum: u64,
        least: Least,
    ) -> io::Result<()> {
        if self.batches.is_none() {
            return println!(rt; "{name}: checksum {checksum}");
        }
        let tenths = least.tenths_a_round(self.rounds);
        println!(rt;
            "{name}: checksum {checksum}, {}.{} ns a {unit}",
            tenths / 10,
            tenths % 10
        )
    }

    /// The bit depth of the samples: 10, and 12 at the maximum number of rounds, so that the
    /// compiler can't build the program for one depth.
    #[inline(never)]
    pub fn depth(&self) -> u8
        ensures { IsDepth result }
    {
        if self.rounds == u32::MAX { 12 } else { 10 }
    }
}

/// The error of more rounds than there is room for: `InvalidInput`.
pub fn too_many_rounds() -> io::Error {
    io::Error::new(ErrorKind::InvalidInput, "too many rounds")
}
