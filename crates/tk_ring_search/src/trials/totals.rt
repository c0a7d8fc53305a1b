//! The totals of a search between routes, and the report of a trial.
ghost use Rattle.std.specs.Prelude.{◌≡◌, ◌≤◌, ◌<◌, ◌-◌, ◌^◌, ◌↔◌, IsTrue, true};
ghost use Rattle.tk_ring_search.specs.Totals.{AddsTrial, IsCountable};

use crate::trials::judging::Outcome;
use tk_descent::{Report, SweptReport};

/// What a trial has done.
#[derive(Clone, Copy)]
pub struct RingTrial {
    /// The number of kicks drawn.
    pub draws: u32,
    /// What became of the result.
    pub outcome: Outcome,
    /// The number of passes of the descent: 1 if it was not swept, and 0 if there was no kick.
    pub passes: u64,
    /// The report of the descent. If there was no kick, both lengths are that of the current ring, and the counters
    /// are 0.
    pub descent: Report,
}

/// What a search has done so far.
#[derive(Clone, Copy, PartialEq, Eq)]
pub struct RingTotals {
    /// The cost of the ring that the search began with.
    pub start: i64,
    /// The trials made.
    pub trials: u64,
    /// The trials with a kick. After the others no kick drawn left a ring that fits, or the ring has fewer than 8
    /// elements.
    pub kicks: u64,
    /// The kicks drawn.
    pub draws: u128,
    /// The trials that found a better ring.
    pub better: u64,
    /// The moves of all descents.
    pub moves: u128,
    /// The gains that all descents computed.
    pub tests: u128,
    /// The swaps of two elements that the flips of kicks and descents took. It saturates at 2^64 - 1.
    pub swaps: u64,
    /// The passes of all descents.
    pub passes: u128,
    /// How many elements the trials copied to the best ring, and from it.
    pub copied: u128,
}

/// A counter of 64 bits in 128 bits.
fn wide(count: u64) -> u128
    ensures value { result ≡ count }
    ensures limit { result < 2 ^ 64 }
{
    u128::from(count)
}

impl RingTotals {
    /// The totals after the first descent, from a ring of this cost.
    pub(crate) fn new(start: i64, report: &SweptReport) -> RingTotals
        ensures start { result.start ≡ start }
        ensures work { (result.moves ≡ report.now.descent.moves) × (result.tests ≡ report.now.descent.tests)
            × (result.swaps ≡ report.now.descent.swaps) × (result.passes ≡ report.now.passes) }
        ensures none { (result.trials ≡ 0) × (result.kicks ≡ 0) × (result.draws ≡ 0) × (result.better ≡ 0)
            × (result.copied ≡ 0) }
        ensures countable { IsCountable result }
    {
        let descent = &report.descent;
        RingTotals {
            start,
            trials: 0,
            kicks: 0,
            draws: 0,
            better: 0,
            moves: wide(descent.moves),
            tests: wide(descent.tests),
            swaps: descent.swaps,
            passes: wide(report.passes),
            copied: 0,
        }
    }

    /// Whether fewer trials than these have been made.
    pub(crate) fn has_left(&self, trials: u64) -> bool
        ensures left { IsTrue result ↔ (self.now.trials < trials) }
        ensures room { result ≡ true → self.now.trials < 2 ^ 64 - 1 }
    {
        self.trials < trials
    }

    /// The totals after one more trial, on a ring of n elements whose flips have taken `swaps` so far.
    pub(crate) fn with_trial(self, trial: &RingTrial, n: u32, swaps: u64) -> RingTotals
        requires left { self.trials < 2 ^ 64 - 1 }
        requires draws { trial.now.draws ≤ 1000 }
        requires countable { IsCountable self }
        ensures adds { AddsTrial n self result trial.now }
        ensures swaps { result.swaps ≡ swaps }
        ensures countable { IsCountable result }
    {
        let outcome = trial.outcome;
        RingTotals {
            start: self.start,
            trials: self.trials + 1,
            kicks: self.kicks + u64::from(outcome.is_kicked()),
            draws: self.draws + u128::from(trial.draws),
            better: self.better + u64::from(outcome.is_better()),
            moves: self.moves + wide(trial.descent.moves),
            tests: self.tests + wide(trial.descent.tests),
            swaps,
            passes: self.passes + wide(trial.passes),
            copied: self.copied + u128::from(if outcome.copies() { n } else { 0 }),
        }
    }
}
