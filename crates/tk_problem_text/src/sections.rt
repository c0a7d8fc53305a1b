//! Reads the sections of a problem, token by token.
pub mod begin;
pub mod coordinates;
pub mod demands;
pub mod depot;
pub mod explicit_weights;
pub mod nodes;
pub mod open_section;
pub mod within;
