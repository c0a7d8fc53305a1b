//! Searches: kicks, trials, and the same search on either store.
pub mod alike;
pub mod kicks;
pub mod worked;
