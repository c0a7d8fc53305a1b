//! Distances in exact integer arithmetic: of coordinates that are whole numbers of a unit, and of others.

pub mod fine;
pub mod guess;
pub mod lines;
pub mod roots;
pub mod short;
pub mod units;
pub mod whole;
