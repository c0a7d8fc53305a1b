//! The engines of the subcommands.
pub mod between;
pub mod between_given;
pub mod check;
pub mod info;
pub mod matrix;
pub mod near;
pub mod route_check;
pub mod search;
pub mod search_given;
pub mod solve;
