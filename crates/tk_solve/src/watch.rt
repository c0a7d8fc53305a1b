//! Observers of a search.
ghost use Rattle.std.specs.Prelude.{◌≡◌, true};
ghost use Rattle.tk_solve.specs.Endings.{question};
ghost use Rattle.tk_solve.specs.Events.{Asked, Begun, Ended, Tried};
ghost use Rattle.tk_solve.specs.Watching.{IsUnobserved, WereShown};

use crate::outcome::RunReport;

/// The progress of a search.
#[derive(Clone, Copy)]
pub struct Progress {
    /// The run, counted from 1.
    pub run: u32,
    /// The number of runs.
    pub runs: u32,
    /// The trial of the run, counted from 1.
    pub trial: u32,
    /// The number of trials of the run.
    pub trials: u32,
    /// The length of the tour that the trial ended with.
    pub length: i64,
    /// The length of the best tour of the run up to then.
    pub best: i64,
}

/// An observer, which is notified of the progress and the best tour of a search, and can end it.
pub trait Watch {
    ghost use Rattle.tk_solve.specs.Events.{Event};

    /// The effect of an event on the observer: a relation of its states before and after it.
    ghost shows: { Self → Event → Self → Type 0 };

    /// Takes note of the name of the problem, before the first run.
    fn begin(&mut self, name: &[u8])
        ensures { shows self.old (Begun name.now) self.new };

    /// Takes note of a trial, and of the best tour of its run up to then.
    fn trial(&mut self, progress: &Progress, best: &[u32])
        ensures { shows self.old (Tried progress.now best.now) self.new };

    /// Takes note of a run that has ended; runs are counted from 1.
    fn end_run(&mut self, run: u32, report: &RunReport)
        ensures { shows self.old (Ended run report.now) self.new };

    /// Whether the search goes on. This is asked before each trial of a run but its first, and before each run but the
    /// first: if the answer is no, that trial and the later ones of its run, or that run and the later ones, are not
    /// made.
    fn goes_on(&mut self) -> bool
        ensures { shows self.old (Asked result) self.new };
}

/// Whether trial t of a run or run t, counted from 0, is made. The observer is asked, unless it is the first.
pub(crate) fn is_made<W: Watch>(t: u32, watch: &mut W) -> bool
    ensures asked { WereShown W.shows watch.old watch.new (question Asked t result) }
    ensures first { t ≡ 0 → result ≡ true }
{
    if t == 0 {
        return true;
    }
    watch.goes_on()
}

/// An observer that does nothing and never ends a search.
#[derive(Clone, Copy)]
pub struct NoObserver;

impl Watch for NoObserver {
    ghost shows = { IsUnobserved };

    fn begin(&mut self, _name: &[u8]) {}

    fn trial(&mut self, _progress: &Progress, _best: &[u32]) {}

    fn end_run(&mut self, _run: u32, _report: &RunReport) {}

    fn goes_on(&mut self) -> bool {
        true
    }
}
