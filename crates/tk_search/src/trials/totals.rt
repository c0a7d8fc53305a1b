//! The totals of a search, and the report of a trial.
ghost use Rattle.std.specs.Prelude.{◌≡◌, ◌<◌, ◌^◌};

use crate::trials::best::Best;
use tk_descent::Report;
use tk_tour::{JournalTour, TourStore, UndoStore};

/// What a trial of a search has done.
#[derive(Clone, Copy)]
pub struct TrialReport {
    /// Whether the trial began with a kick of the best tour.
    pub kicked: bool,
    /// Whether the result became the best tour.
    pub better: bool,
    /// The number of passes of the descent: 1 if it was not swept, and 0 if the trial did nothing.
    pub passes: u64,
    /// The report of the descent. If the trial did nothing, its lengths are that of the best tour, and its counters are
    /// 0.
    pub descent: Report,
}

/// What a search has done so far. Counters saturate: `swaps` and `undo_swaps` at 2^64 - 1, `copied` at twice that, and
/// the others at 2^128 - 1.
#[derive(Clone, Copy, PartialEq, Eq, Debug)]
pub struct Totals {
    /// The length of the starting tour.
    pub start: i64,
    /// The number of trials; those that did nothing are not counted.
    pub trials: u128,
    /// The number of trials that found a better tour.
    pub better: u128,
    /// The moves of all descents.
    pub moves: u128,
    /// By how much all descents together have shortened their tours.
    pub gained: u128,
    /// The gains that all descents computed.
    pub tests: u128,
    /// The swaps of two cities that the flips of kicks and descents took.
    pub swaps: u128,
    /// The swaps that undid these flips.
    pub undo_swaps: u128,
    /// How many cities were copied to the best tour, and from it.
    pub copied: u128,
    /// The passes of all descents.
    pub passes: u128,
}

impl Totals {
    ghost use Rattle.tk_search.specs.Totals.{AddsTrial, AreCountsOf};

    /// The totals of a search from a tour of this length, before the first trial.
    pub(crate) fn new(start: i64) -> Totals
        ensures start { result.start ≡ start }
        ensures none { (result.trials ≡ 0) × (result.better ≡ 0) × (result.moves ≡ 0) × (result.gained ≡ 0)
            × (result.tests ≡ 0) × (result.swaps ≡ 0) × (result.undo_swaps ≡ 0) × (result.copied ≡ 0)
            × (result.passes ≡ 0) }
    {
        Totals {
            start,
            trials: 0,
            better: 0,
            moves: 0,
            gained: 0,
            tests: 0,
            swaps: 0,
            undo_swaps: 0,
            copied: 0,
            passes: 0,
        }
    }

    /// The totals after one more trial, whose descent shortened its tour by `gained`. Swaps and copies are those that
    /// the tours have counted.
    pub(crate) fn with_trial<S: UndoStore>(
        self,
        report: &TrialReport,
        gained: u64,
        tour: &JournalTour<S>,
        best: &Best,
    ) -> Totals
        ensures adds { AddsTrial self result report.now gained }
        ensures counts { AreCountsOf result tour.now best.now }
        ensures small { (result.swaps < 2 ^ 64) × (result.copied < 2 ^ 65) }
    {
        let descent = &report.descent;
        let now = tour.tour();
        Totals {
            start: self.start,
            trials: self.trials.saturating_add(1),
            better: self.better.saturating_add(u128::from(report.better)),
            moves: self.moves.saturating_add(u128::from(descent.moves)),
            gained: self.gained.saturating_add(u128::from(gained)),
            tests: self.tests.saturating_add(u128::from(descent.tests)),
            swaps: u128::from(tour.swaps()),
            undo_swaps: u128::from(now.undo_swaps()),
            copied: u128::from(now.copied()) + u128::from(best.copied()),
            passes: self.passes.saturating_add(u128::from(report.passes)),
        }
    }
}
