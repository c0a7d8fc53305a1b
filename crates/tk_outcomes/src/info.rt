//! What is known of a problem that was read.
ghost use Rattle.std.specs.Prelude.{◌≤◌, length};

use tk_problem::PlaneKind;

/// What is known of a problem that was read.
#[derive(Drop)]
pub struct ProblemInfo {
    /// The name; `Unnamed` if the text has none.
    pub name: Vec<u8>,
    /// The number of cities, or of nodes of a CVRP: the depot and the customers.
    pub dimension: u32,
    /// How the distances are given.
    pub distances: DistanceInfo,
    /// The routing data of a CVRP; `None` for a TSP.
    pub routing: Option<RoutingInfo>,
    ghost short: { length name.items ≤ 1024 },
}

/// How the distances of a problem are given.
#[derive(Clone, Copy)]
pub enum DistanceInfo {
    /// By coordinates, with this distance type.
    Plane(PlaneKind, Area),
    /// By explicit weights.
    Explicit,
}

/// The coordinates of a problem, in units of 10^-9: their bounds, and whether all are whole.
#[derive(Clone, Copy)]
pub struct Area {
    /// Whether all coordinates are whole numbers.
    pub whole: bool,
    /// The least x.
    pub left: i64,
    /// The greatest x.
    pub right: i64,
    /// The least y.
    pub bottom: i64,
    /// The greatest y.
    pub top: i64,
}

/// The routing data of a CVRP.
#[derive(Clone, Copy)]
pub struct RoutingInfo {
    /// The maximum load of a vehicle.
    pub capacity: u32,
    /// The node of the depot.
    pub depot: u32,
    /// The sum of the demands.
    pub demand: u64,
    /// A lower bound on the number of vehicles: the sum of the demands divided by the capacity, rounded up. Demands
    /// that cannot be packed into so many vehicles need more.
    pub vehicles: u64,
}
