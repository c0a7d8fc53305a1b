//! What the engines find, as values, and the lines that are written from them.
#![tactic(auto)]

mod info;
mod info_of;
mod lines;
mod search;
mod tour;

pub use info::{Area, DistanceInfo, ProblemInfo, RoutingInfo};
pub use lines::between_lines::write_route_run_line;
pub use lines::info_lines::{put_coordinate, write_info};
pub use lines::route_line::write_route_verdict;
pub use lines::solve_lines::{write_run_line, write_search_lines};
pub use lines::tour_line::write_tour_outcome;
pub use search::{FoundBetween, FoundRoutes, FoundTour, SearchOutcome};
pub use tour::{TourOutcome, length_of};
