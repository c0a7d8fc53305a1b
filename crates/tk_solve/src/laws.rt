//! Laws of runs, as contracts of functions that do nothing.
ghost use Rattle.tk_solve.specs.RunLaws as laws;

/// A law: each tour that an observer of runs is shown is a tour of the cities, and its length is the one shown with it.
pub fn shown_tours_are_tours()
    ensures { laws.ShownToursAreTours }
{}

/// A law: if the observer of a search never ends it, all runs are made, and each makes all its trials.
pub fn unended_searches_are_whole()
    ensures { laws.UnendedSearchesAreWhole }
{}

/// A law: [`crate::NoObserver`] never ends a search.
pub fn no_observer_ends_no_search()
    ensures { laws.NoObserverEndsNoSearch }
{}
