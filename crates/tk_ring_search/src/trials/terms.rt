//! The input of a search between routes.
use tk_distance::Metric;
use tk_near::Near;
use tk_rings::Capacity;

/// What a search between routes goes by.
#[derive(Clone, Copy)]
pub struct RingTerms<'a, M: Metric> {
    /// The distances between the elements of the ring.
    pub metric: &'a M,
    /// The candidates of each element.
    pub near: &'a Near,
    /// The demands, and the capacity of the vehicles.
    pub vehicles: Capacity<'a>,
    /// The maximum number of elements in the segment of an Or-opt move: 1 to 3.
    pub or_segment: u32,
    /// Whether each descent is swept: it makes passes, each with all elements awake, until one makes no move.
    pub sweep: bool,
    /// The number of trials after the first descent.
    pub trials: u64,
}
