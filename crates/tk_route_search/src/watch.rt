//! Observers of a search for routes.
ghost use Rattle.std.specs.Prelude.{◌≡◌, option_map, true};
ghost use Rattle.tk_lists.specs.Solution.{lists_of};
ghost use Rattle.tk_solve.specs.Endings.{question};
ghost use Rattle.tk_route_search.specs.Events.{Asked, Begun, Ended, Tried};
ghost use Rattle.tk_route_search.specs.Watching.{IsUnobserved, WereShown};

use crate::outcome::RouteRun;

/// The progress of a search for routes.
#[derive(Clone, Copy)]
pub struct RouteProgress {
    /// The run, counted from 1.
    pub run: u32,
    /// The number of runs.
    pub runs: u32,
    /// The trial of the run, counted from 1; 0 is the first descent.
    pub trial: u32,
    /// The number of trials of the run.
    pub trials: u32,
    /// The cost of the routes that the trial ended with.
    pub cost: i64,
    /// The cost of the best routes of the run up to then.
    pub best: i64,
}

/// An observer, which is notified of the progress and the best routes of a search, and can end it.
pub trait RouteWatch {
    ghost use Rattle.tk_route_search.specs.Events.{Event};

    /// The effect of an event on the observer: a relation of its states before and after it.
    ghost shows: { Self → Event → Self → Type 0 };

    /// Takes note of the name of the problem, before the first run.
    fn begin(&mut self, name: &[u8])
        ensures { shows self.old (Begun name.now) self.new };

    /// Takes note of the first descent of a run, or of a trial. `better` is the best routes of the run up to then, if
    /// the descent or the trial found them.
    fn trial(&mut self, progress: &RouteProgress, better: Option<&[Vec<u32>]>)
        ensures { shows self.old (Tried progress.now (option_map (λ r. lists_of r.now) better.entry)) self.new };

    /// Takes note of a run that has ended; runs are counted from 1.
    fn end_run(&mut self, run: u32, report: &RouteRun)
        ensures { shows self.old (Ended run report.now) self.new };

    /// Whether the search goes on. This is asked before each trial, and before each run but the first: if the answer is
    /// no, that trial and the later ones of its run, or that run and the later ones, are not made.
    fn goes_on(&mut self) -> bool
        ensures { shows self.old (Asked result) self.new };
}

/// Whether run j, counted from 0, is made. The observer is asked, unless it is the first.
pub(crate) fn is_made<W: RouteWatch>(j: u32, watch: &mut W) -> bool
    ensures asked { WereShown W.shows watch.old watch.new (question Asked j result) }
    ensures first { j ≡ 0 → result ≡ true }
{
    if j == 0 {
        return true;
    }
    watch.goes_on()
}

/// An observer that does nothing and never ends a search.
#[derive(Clone, Copy)]
pub struct NoObserver;

impl RouteWatch for NoObserver {
    ghost shows = { IsUnobserved };

    fn begin(&mut self, _name: &[u8]) {}

    fn trial(&mut self, _progress: &RouteProgress, _better: Option<&[Vec<u32>]>) {}

    fn end_run(&mut self, _run: u32, _report: &RouteRun) {}

    fn goes_on(&mut self) -> bool {
        true
    }
}
