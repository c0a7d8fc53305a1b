//! Capacitated vehicle routing: instances, the check of solutions, routes by the savings algorithm, and their
//! improvement one by one.
#![tactic(auto)]

mod checking;
mod cvrp;
mod laws;
mod routes;
mod solving;

pub use checking::check::check_routes;
pub use checking::verdict::RouteVerdict;
pub use cvrp::Cvrp;
pub use laws::customers_are_the_other_nodes;
pub use routes::Routes;
pub use solving::improving::improve;
pub use solving::merging::savings;
pub use solving::route_report::RouteReport;
