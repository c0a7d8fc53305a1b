//! Rings of customers and copies of the depot, and the capacity of the vehicles.
#![tactic(auto)]

mod capacity;
mod descent;
pub mod laws;
mod loaded;
mod making;
mod reading;
mod stretch;
mod sums;
mod walk;

pub use capacity::Capacity;
pub use descent::descend_ring;
pub use loaded::LoadedRing;
pub use making::{ring_demands, ring_nodes, ring_of};
pub use reading::routes_of;
pub use stretch::Stretch;
