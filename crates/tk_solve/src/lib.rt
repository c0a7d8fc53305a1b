//! The search of `solve`, between reading and writing: the runs of a search for a tour, and the routes of a CVRP.
#![tactic(auto)]

mod laws;
mod options;
mod outcome;
mod routes;
mod search;
mod starts;
mod tour;
mod watch;

pub use laws::{no_observer_ends_no_search, shown_tours_are_tours, unended_searches_are_whole};
pub use options::{RouteOptions, Start, TourOptions};
pub use outcome::RunReport;
pub use routes::solve_routes;
pub use tour::{SolvedTour, solve_tour};
pub use watch::{NoObserver, Progress, Watch};
