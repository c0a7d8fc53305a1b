//! The trials of a search between routes.

pub mod best;
pub mod descending;
pub mod judging;
pub mod keeping;
pub mod laws;
pub mod searching;
pub mod state;
pub mod terms;
pub mod totals;
