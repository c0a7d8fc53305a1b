//! Local search by 2-opt and Or-opt moves over near lists: gains of moves, the queue of waking cities, looks and
//! descents, for the TSP and under a rule.
#![tactic(auto)]

mod candidate_cache;
mod descent;
mod edge_cache;
mod gains;
pub mod laws;
mod looks;
mod making;
mod offer;
mod on_tour;
mod optimum;
mod probe;
mod rule;
mod sweep;
mod waking;

pub use descent::{Report, descend, descend_under};
pub use edge_cache::EdgeCache;
pub use gains::Gains;
pub use looks::looking::look;
pub use making::make;
pub use offer::{Found, Offer};
pub use optimum::{is_local_optimum, is_local_optimum_under};
pub use probe::Probe;
pub use rule::{Everything, Rule};
pub use sweep::{SweptReport, descend_swept, descend_swept_under};
pub use waking::Waking;
