//! Near lists by scan, by sweep and by k-d tree, and the unvisited cities of such a tree, from which visited cities are
//! removed.
#![tactic(auto)]

mod candidates;
mod list_length;
mod near;
mod plane;
mod table;

pub use candidates::measure;
pub use list_length::ListLength;
pub use near::{Near, near_among, near_lists_agree, near_scan};
pub use plane::city_point::CityPoint;
pub use plane::sweep::{near_sweep, order_by_x};
pub use plane::tree::{near_tree, near_tree_among};
pub use plane::unvisited::{CityHint, Unvisited};
pub use table::near_lists;
