//! The verdict on the routes of a solution.

/// Whether the routes of a solution are valid and have the cost that it states, or the first fault. Customers are
/// checked first, one by one in the order of the text; then the loads, then whether all customers are served, then the
/// cost. Routes are numbered from 1, and an empty one has load 0 and length 0.
#[derive(Clone, Copy, PartialEq, Eq, Debug)]
pub enum RouteVerdict {
    /// Each customer is served once, within the capacity, and the stated cost is correct. `routes` is the number of
    /// routes with a customer.
    Valid { routes: u64, cost: i64 },
    /// This route contains this number, which is not a customer.
    BadCustomer(u64, u32),
    /// This customer also occurs at an earlier position.
    ServedTwice(u32),
    /// This route has this load, which exceeds the capacity.
    OverCapacity(u64, u64),
    /// This is the lowest customer that is on no route.
    NotServed(u32),
    /// The solution states the first cost, but its routes have the second.
    WrongCost(i64, i64),
}
