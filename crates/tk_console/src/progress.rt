//! The status line with the progress of a search, on standard error if that is a terminal.
use std::io::IsTerminal;
use std::time::{Clock, Duration};
use tk_engines::{Progress, RouteProgress};

/// Minimum time between two updates of the line, in milliseconds.
const PAUSE: u64 = 100;

/// How far a search has come.
#[derive(Clone, Copy)]
pub struct Stage {
    pub run: u32,
    pub runs: u32,
    pub trial: u32,
    pub trials: u32,
    /// The name of `length`: that of a tour, or the cost of routes.
    measure: &'static str,
    length: i64,
}

impl Stage {
    /// A stage of a search for a tour.
    pub fn of_tour(progress: &Progress) -> Stage {
        Stage {
            run: progress.run,
            runs: progress.runs,
            trial: progress.trial,
            trials: progress.trials,
            measure: "length",
            length: progress.length,
        }
    }

    /// A stage of a search for routes.
    pub fn of_routes(progress: &RouteProgress) -> Stage {
        Stage {
            run: progress.run,
            runs: progress.runs,
            trial: progress.trial,
            trials: progress.trials,
            measure: "cost",
            length: progress.cost,
        }
    }
}

/// The status line. If standard error is not a terminal, nothing is written.
#[derive(Drop)]
pub struct ProgressLine<'a> {
    rt: &'a HostRuntime,
    shown: bool,
    next: Duration,
    /// The number of runs, once a stage has been shown.
    runs: u32,
}

impl<'a> ProgressLine<'a> {
    /// A line that has not been written yet.
    pub fn new(rt: &'a HostRuntime) -> ProgressLine<'a> {
        ProgressLine {
            rt,
            shown: rt.stderr().is_terminal(),
            next: Duration::ZERO,
            runs: 0,
        }
    }

    /// Writes the line. A terminal cuts it at its right edge.
    fn show(&self, stage: &Stage) {
        let Stage {
            run,
            runs,
            trial,
            trials,
            measure,
            length,
        } = stage;
        let _ = eprint!(self.rt;
            "\r\x1b[?7lrun {run} of {runs}, trial {trial} of {trials}, {measure} {length}\x1b[K\x1b[?7h"
        );
    }

    /// Erases the line.
    pub fn clear(&self) {
        if self.shown {
            let _ = eprint!(self.rt; "\r\x1b[K");
        }
    }

    /// Updates the line after a trial, at most ten times a second. After the last trial of the last run, erases it.
    pub fn trial(&mut self, stage: &Stage) {
        if !self.shown {
            return;
        }
        self.runs = stage.runs;
        if stage.run == stage.runs && stage.trial == stage.trials {
            return self.clear();
        }
        let Ok(now) = self.rt.monotonic() else {
            return;
        };
        if now >= self.next {
            self.next = now.saturating_add(Duration::from_millis(PAUSE));
            self.show(stage);
        }
    }

    /// Erases the line if this was the last run. A run can end before its last trial.
    pub fn end_run(&self, run: u32) {
        if run == self.runs {
            self.clear();
        }
    }
}
