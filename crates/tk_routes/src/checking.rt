//! The check of the routes of a solution, and its verdict.
pub mod check;
pub mod verdict;
