//! Laws of runs of trials. The functions do nothing; their contracts state the laws.
ghost use Rattle.tk_search.specs.SearchLaws as laws;

/// A law: after any number of trials, the best tour is the first of the shortest among the start and the results.
pub fn best_is_first_of_the_shortest()
    ensures { laws.BestIsFirstShortest }
{}

/// A law: after any number of trials, the best tour is not longer than the start.
pub fn best_is_no_longer_than_the_start()
    ensures { laws.BestIsNoLonger }
{}

/// A law: if the start is a tour of all cities, so is the best tour after any number of trials.
pub fn best_is_a_tour()
    ensures { laws.BestIsTour }
{}

/// A law: after any number of trials, the work of a search is within its bounds.
pub fn work_is_bounded()
    ensures { laws.WorkIsBounded }
{}

/// A law: on fewer than 8 cities, one trial and any larger number of trials have the same result.
pub fn few_cities_make_one_trial()
    ensures { laws.FewCitiesMakeOneTrial }
{}

/// A law: on 8 cities or more, each trial is counted, up to the maximum of the counter.
pub fn each_trial_counts()
    ensures { laws.EachTrialCounts }
{}

/// A law: two reports of one trial agree on whether it began with a kick and on its passes, moves, tests and swaps,
/// unless a total has reached its maximum.
pub fn reports_agree()
    ensures { laws.ReportsAgree }
{}
