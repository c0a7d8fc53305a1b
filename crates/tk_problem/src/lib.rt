//! Problems: points in the plane, explicit weights and their order, and routing data.
#![tactic(auto)]

mod cell;
mod laws;
mod limits;
mod lower_weights;
mod point;
mod points;
mod problem;
mod routing;
mod unit;
mod weight_order;
mod weights;

pub use cell::Cell;
pub use laws::limits_are_these_numbers;
pub use limits::{
    CANDIDATE_LIMIT, CAPACITY_LIMIT, CITY_LIMIT, COORDINATE_LIMIT, DISTANCE_LIMIT, ENTRY_LIMIT,
    ROUTE_LIMIT, TABLE_LIMIT, TEXT_LIMIT,
};
pub use lower_weights::LowerWeights;
pub use point::{Point, SCALE, WholePoint};
pub use points::{Places, Points};
pub use problem::Problem;
pub use routing::Routing;
pub use unit::Unit;
pub use weight_order::WeightCursor;
pub use weights::{FORMATS, Format, PLANE_KINDS, PlaneKind, Weights};
