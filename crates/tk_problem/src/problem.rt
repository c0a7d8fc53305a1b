//! Problems.
ghost use Rattle.std.specs.Prelude.{◌≤◌, length};
ghost use Rattle.tk_problem.specs.declared.limits.TheConstants.{CITY_LIMIT};
ghost use Rattle.tk_problem.specs.Shape.{WeightsFit, RoutingFits};

use crate::routing::Routing;
use crate::weights::Weights;

/// A TSP, or a CVRP if it has a routing, with 2 to 100,000 cities, which are numbered from 1.
#[derive(Drop)]
pub struct Problem {
    pub name: Vec<u8>,
    pub n: u32,
    pub weights: Weights,
    pub routing: Option<Routing>,
    ghost short: { length name.items ≤ 1024 },
    ghost low: { 2 ≤ n },
    ghost high: { n ≤ CITY_LIMIT },
    ghost weights_fit: { ∥ WeightsFit n weights ∥₁ },
    ghost routing_fits: { ∥ RoutingFits n routing ∥₁ },
}
