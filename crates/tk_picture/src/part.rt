//! The parts of the closed line of a route.

/// A part of the closed line of a route.
#[derive(Clone, Copy)]
pub(crate) enum Part {
    /// The whole line.
    Whole,
    /// The line between the customers.
    Customers,
    /// The line from the last customer to the depot and on to the first customer.
    Depot,
}
