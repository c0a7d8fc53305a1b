//! Laws of runs of trials. The functions do nothing; their contracts state the laws.
ghost use Rattle.tk_ring_search.specs.RingLaws as laws;

/// A law: after any number of trials, the best ring is not longer than the ring that the search began with.
pub fn best_is_no_longer_than_the_start()
    ensures { laws.BestIsNoLonger }
{}

/// A law: after any number of trials, the current ring and the best have the elements of the ring that the search began
/// with, and no vehicle carries more than its capacity.
pub fn rings_fit()
    ensures { laws.RingsFit }
{}

/// A law: if descents are swept, the current ring and the best are local optima after any number of trials.
pub fn swept_rings_are_optimal()
    ensures { laws.SweptRingsAreOptimal }
{}

/// A law: each trial is counted once, and there are at most as many as were planned.
pub fn each_trial_counts()
    ensures { laws.EachTrialCounts }
{}

/// A law: after any number of trials, the work of a search is within its bounds.
pub fn work_is_bounded()
    ensures { laws.WorkIsBounded }
{}

/// A law: two reports of one trial agree on its draws, passes, moves and tests.
pub fn reports_agree()
    ensures { laws.ReportsAgree }
{}
