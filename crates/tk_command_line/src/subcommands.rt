//! The subcommands with their arguments.
pub mod check;
pub mod checksol;
pub mod explain;
pub mod info;
pub mod matrix;
pub mod near;
pub mod plot;
pub mod solve;

use crate::subcommand::Subcommand;

/// All subcommands, in the order of the help.
pub fn all() -> [Subcommand; 8] {
    [
        check::subcommand(),
        checksol::subcommand(),
        explain::subcommand(),
        info::subcommand(),
        matrix::subcommand(),
        near::subcommand(),
        plot::subcommand(),
        solve::subcommand(),
    ]
}

/// The subcommand with this name, if there is one.
pub fn named(name: &str) -> Option<Subcommand> {
    for subcommand in &all() {
        if subcommand.name == name {
            return Some(*subcommand);
        }
    }
    None
}
