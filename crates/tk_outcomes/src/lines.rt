//! The lines with verdicts, those on a problem, and those that `solve` prints.
pub mod between_lines;
pub mod info_lines;
mod labelled;
pub mod route_line;
pub mod solve_lines;
pub mod tour_line;
