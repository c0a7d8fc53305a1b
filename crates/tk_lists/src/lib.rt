//! Lists of cities and customers: tour texts and solution texts.
#![tactic(auto)]

mod laws;
mod route_head;
mod solution;
mod solution_handler;
mod solution_reader;
mod texts;
mod tour;

pub use laws::{
    decided_solutions_stay, decided_tours_stay, each_solution_text_has_an_answer,
    each_tour_text_has_an_answer,
};
pub use solution::read_solution;
pub use texts::{SolText, TourText};
pub use tour::read_tour;
