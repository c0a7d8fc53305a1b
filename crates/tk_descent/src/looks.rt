//! A look at a city: it tries the offers of the city in order, up to the first with positive gain that is allowed.
pub mod listing;
pub mod looking;
pub mod segments;
pub mod sharing;
