//! Routes by the savings algorithm, and the improvement of each by itself.
pub mod distance_matrix;
pub mod improving;
pub mod merging;
pub mod one_route;
pub mod route_report;
