//! Problem texts: their sections, their headers, and the problem that they describe.
#![tactic(auto)]

mod display;
mod header_values;
mod headers;
mod laws;
mod parts;
mod placed_handler;
mod placed_problem;
mod placed_text;
mod problem_handler;
mod problem_text;
mod sections;

pub use laws::{
    decided_places_stay, decided_problems_stay, each_placed_text_has_an_answer,
    each_problem_text_has_an_answer, placed_problems_are_problems,
};
pub use placed_problem::{GivenPlaces, PlacedProblem, PlacesOrigin};
pub use placed_text::read_placed_problem;
pub use problem_text::read_problem;
