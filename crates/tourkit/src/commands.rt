//! The subcommands, and the option `--completions`.
pub mod check;
pub mod checksol;
pub mod completions;
pub mod explain;
pub mod info;
pub mod matrix;
pub mod near;
pub mod plot;
pub mod plot_both;
pub mod solve;
pub mod solve_options;
pub mod solve_outcome;
