//! Output: sinks, pens that write a text piece by piece, and writers of matrices, tours and solutions, with proofs that
//! their texts can be read back.
#![tactic(auto)]

mod matrix;
mod output;
mod solution_writer;
mod tour_writer;

pub use matrix::{format_of, write_matrix};
pub use output::page::Page;
pub use output::pen::{Pen, WriteFault};
pub use output::sink::{Sink, ToWrite};
pub use solution_writer::write_solution;
pub use tour_writer::write_tour;
