//! The functions of the library for C, as functions of Rattle on texts, arrays and buffers of the caller. They write
//! the text that the program prints, or arrays of numbers. The crate `tourkit_c` exports them.
//!
//! A function requires nothing of its caller beyond the types of its parameters: it checks what the engines require. It
//! keeps nothing from one call to the next.
#![tactic(auto)]

mod answer;
mod arrays;
mod check;
mod contents;
mod explain;
mod hand_out;
mod info;
mod near_and_matrix;
mod plot;
mod points;
mod search;
mod searches;
mod solve;
mod solve_routes;
mod tables;
mod tours;
mod version;
mod weights;

pub use answer::Answer;
pub use arrays::{tourkit_check_cities, tourkit_distances, tourkit_near_cities};
pub use check::{tourkit_check, tourkit_checksol};
pub use contents::{tourkit_coordinates, tourkit_demands, tourkit_weights};
pub use explain::tourkit_explain;
pub use info::{Info, tourkit_info};
pub use near_and_matrix::{tourkit_matrix, tourkit_near};
pub use plot::{tourkit_page, tourkit_plot};
pub use points::{tourkit_check_points, tourkit_near_points};
pub use search::{SearchOptions, tourkit_search};
pub use solve::tourkit_solve;
pub use solve_routes::{RouteOptions, tourkit_solve_routes};
pub use tours::{tourkit_nearest_tour, tourkit_tour_cities};
pub use version::tourkit_version;
pub use weights::{tourkit_check_weights, tourkit_near_weights};
