//! How a run ends, but for the console.
ghost use Rattle.std.specs.Prelude.{◌≡◌, None};

use apv_base::Exit;
use apv_console::Report;

/// The answer of a run, and what it found of a generated video, where it encoded one to its end.
#[derive(Clone, Copy, Debug)]
pub(crate) struct RunEnd {
    pub exit: Exit,
    pub report: Option<Report>,
}

impl RunEnd {
    /// An answer without a report.
    pub(crate) fn of(exit: Exit) -> RunEnd
        ensures { result ≡ record { exit = exit; report = None } }
    {
        RunEnd { exit, report: None }
    }
}
