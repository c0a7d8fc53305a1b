//! The public interface of distances and near lists, by `pub use`.
//!
//! Its rooms are crates of their own; this one is what callers use.
#![tactic(auto)]

pub use tk_distance::{
    BothAxes, Euclid, Metric, Planar, Planes, Sub, SwappedAxes, Table, Triangle, root, root_up,
};
pub use tk_near::{
    CityHint, Near, Unvisited, near_among, near_lists, near_lists_agree, near_scan, near_sweep,
    near_tree, near_tree_among,
};
