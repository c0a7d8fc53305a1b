//! Laws of runs, as contracts of functions that do nothing.
ghost use Rattle.tk_route_search.specs.RunLaws as laws;

/// A law: if the observer of a search never ends it, all runs are made, and each makes all its trials.
pub fn unended_searches_are_whole()
    ensures { laws.UnendedSearchesAreWhole }
{}

/// A law: [`crate::NoObserver`] never ends a search.
pub fn no_observer_ends_no_search()
    ensures { laws.NoObserverEndsNoSearch }
{}
