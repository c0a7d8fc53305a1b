//! Kicks by the double bridge.

pub mod cuts;
pub mod kicking;
