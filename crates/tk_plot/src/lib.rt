//! The engine of the subcommand `plot`, for any source and sink.
//!
//! It reads all of its texts before it writes a byte. If it stops for a fault other than a write fault, it has written
//! nothing.
#![tactic(auto)]

mod plot;
mod plotted;

pub use plot::{plot_engine, plot_problem};
pub use plotted::Plotted;
pub use tk_picture::{NAME_LIMIT, NodeName, NodeNames, OutputFormat, Parts};
