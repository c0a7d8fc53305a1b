//! The trials of a search.

pub mod any_state;
pub mod best;
pub mod descending;
pub mod keeping;
pub mod laws;
pub mod searching;
pub mod state;
pub mod totals;
