//! Nearest-neighbour tours.

pub mod by_tree;
pub mod laws;
pub mod of_table;
pub mod scan;
