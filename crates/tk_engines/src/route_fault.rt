//! Faults of routes.
use thiserror::Error;

/// Why the routes of a solution are not valid: what `RouteVerdict` reports, except for valid routes.
#[derive(Clone, Copy, Debug, PartialEq, Eq, Error)]
pub enum RouteFault {
    /// This route contains this number, which is not a customer.
    #[error("bad customer in route {0}: {1}")]
    BadCustomer(u64, u32),
    /// This customer also occurs at an earlier position.
    #[error("customer served twice: {0}")]
    ServedTwice(u32),
    /// This route has this load, which exceeds the capacity.
    #[error("over capacity in route {0}: {1}")]
    OverCapacity(u64, u64),
    /// This is the lowest customer that is on no route.
    #[error("customer not served: {0}")]
    NotServed(u32),
    /// The solution states the first cost, but its routes have the second.
    #[error("wrong cost: {0} read, {1} counted")]
    WrongCost(i64, i64),
}
