//! The savings algorithm.

pub mod laws;
pub mod pair_list;
pub mod pairs;
pub mod paths;
pub mod savings;
