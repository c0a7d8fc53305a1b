//! The report of an improvement of routes.

/// What an improvement of routes has done.
#[derive(Clone, Copy, PartialEq, Eq, Debug)]
pub struct RouteReport {
    /// The cost of the routes before the improvement.
    pub before: i64,
    /// The cost of the routes after the improvement.
    pub after: i64,
    /// The number of moves made.
    pub moves: u64,
    /// The number of gains computed.
    pub tests: u64,
    /// The number of swaps of two nodes that the flips took.
    pub swaps: u64,
}
