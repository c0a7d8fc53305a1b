//! Tour construction: nearest neighbour and savings.
#![tactic(auto)]

mod merges;
mod nearest_tours;

pub use merges::laws::{parts_are_connected, saving_pairs_agree, savings_lists_agree};
pub use merges::pairs::Pair;
pub use merges::savings::{savings_lists, savings_tour};
pub use nearest_tours::by_tree::nearest_tree;
pub use nearest_tours::laws::nearest_tours_agree;
pub use nearest_tours::of_table::nearest_tour;
pub use nearest_tours::scan::nearest;
