//! Kicks of a ring.

pub mod drawing;
pub mod kick;
