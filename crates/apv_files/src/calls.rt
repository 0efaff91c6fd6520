//! The calls that are made of files in memory, by their kind, and which of them are set to fail.
ghost use Rattle.std.specs.Prelude.{◌≡◌, OnOk, OnErr};
ghost use Rattle.apv_files.specs.Calls.{CountsCall, SetsToFail, counted, with_failure, fails_next};
ghost use Rattle.apv_files.specs.Calls.{no_calls, kind_view, calls_of};

use std::alloc::{AllocError, Global};

/// A kind of calls on `MemoryFiles`. The calls of a kind are numbered from 0, over all slots:
///
/// - `Open`: `open` and `create`.
/// - `Read`: `read`.
/// - `Write`: `write` to an output slot.
/// - `Console`: `write` to the console.
#[derive(Clone, Copy, Debug, PartialEq, Eq)]
pub enum Call {
    Open,
    Read,
    Write,
    Console,
}

/// The calls of one kind: how many were made, which stays at the last value of its type, and the numbers of those that
/// are set to fail.
#[derive(Drop)]
pub struct KindOfCalls {
    made: u64,
    failing: Vec<u64>,
}

impl KindOfCalls {
    /// No call was made, and none is set to fail.
    fn new(alloc: Global) -> KindOfCalls
        ensures { kind_view result ≡ no_calls }
    {
        KindOfCalls {
            made: 0,
            failing: Vec::new(alloc),
        }
    }

    /// Counts a call, and returns whether it is set to fail.
    fn count(&mut self) -> bool
        ensures fails { result ≡ fails_next (kind_view self.old) }
        ensures counted { kind_view self.new ≡ counted (kind_view self.old) }
    {
        let fails = self.failing.contains(&self.made);
        self.made = self.made.saturating_add(1);
        fails
    }

    /// Sets the call of a number to fail. After an error nothing changes.
    fn fail(&mut self, number: u64) -> Result<(), AllocError>
        ensures ok { OnOk result (kind_view self.new ≡ with_failure number (kind_view self.old)) }
        ensures err { OnErr result (kind_view self.new ≡ kind_view self.old) }
    {
        self.failing.push(number)?;
        Ok(())
    }
}

/// The calls of each kind.
#[derive(Drop)]
pub struct Calls {
    open: KindOfCalls,
    read: KindOfCalls,
    write: KindOfCalls,
    console: KindOfCalls,
}

impl Calls {
    /// No call was made, and none is set to fail.
    pub fn new(alloc: Global) -> Calls
        ensures { (call : Call) → calls_of result call ≡ no_calls }
    {
        Calls {
            open: KindOfCalls::new(alloc),
            read: KindOfCalls::new(alloc),
            write: KindOfCalls::new(alloc),
            console: KindOfCalls::new(alloc),
        }
    }

    /// Counts a call of a kind, and returns whether it is set to fail.
    pub fn count(&mut self, call: Call) -> bool
        ensures fails { result ≡ fails_next (calls_of self.old call) }
        ensures counted { CountsCall call (calls_of self.old) (calls_of self.new) }
    {
        match call {
            Call::Open => self.open.count(),
            Call::Read => self.read.count(),
            Call::Write => self.write.count(),
            Call::Console => self.console.count(),
        }
    }

    /// Sets the call of a kind with a number to fail. After an error nothing changes.
    pub fn fail(&mut self, call: Call, number: u64) -> Result<(), AllocError>
        ensures ok { OnOk result (SetsToFail call number (calls_of self.old) (calls_of self.new)) }
        ensures err { OnErr result ((kind : Call) →
            calls_of self.new kind ≡ calls_of self.old kind) }
    {
        match call {
            Call::Open => self.open.fail(number),
            Call::Read => self.read.fail(number),
            Call::Write => self.write.fail(number),
            Call::Console => self.console.fail(number),
        }
    }
}
