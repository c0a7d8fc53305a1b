//! The search between routes of a CVRP, between reading and writing: a start, runs of trials, and the best routes.
#![tactic(auto)]

mod copied;
mod ladder;
mod laws;
mod options;
mod outcome;
mod routes;
mod search;
mod start;
mod watch;

pub use laws::{no_observer_ends_no_search, unended_searches_are_whole};
pub use options::{RouteStart, SearchOptions};
pub use outcome::RouteRun;
pub use routes::{SolvedRoutes, search_routes};
pub use watch::{NoObserver, RouteProgress, RouteWatch};
