//! The command line of the program: its subcommands with their help, and the parser of its arguments.
#![tactic(auto)]

mod argument;
mod command;
mod completions;
mod parsing;
mod request;
mod search_options;
mod subcommand;
mod subcommands;
mod tips;

pub use completions::Shell;
pub use parsing::{NoRequest, parse};
pub use request::{DisplayOptions, PlotFiles, Request, STANDARD};
pub use search_options::SearchOptions;
