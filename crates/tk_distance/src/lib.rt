//! Exact distances of cities.
#![tactic(auto)]

mod euclid;
mod exact;
mod metric;
mod planes;
mod sub;
mod swapped_axes;
mod table;
mod triangle;

pub use euclid::Euclid;
pub use exact::roots::{root, root_up};
pub use metric::{BothAxes, Metric, Planar};
pub use planes::Planes;
pub use sub::Sub;
pub use swapped_axes::SwappedAxes;
pub use table::Table;
pub use triangle::Triangle;
