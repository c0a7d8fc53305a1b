//! The subject of a picture.
use tk_routes::Cvrp;

/// The contents of a picture, apart from its cities.
#[derive(Clone, Copy)]
pub enum Subject<'a> {
    /// Nothing else.
    Cities,
    /// A tour of these cities, with this length.
    Tour {
        cities: &'a [u32],
        length: u64,
    },
    /// Routes of this problem, as lists of customers, with the number of routes that have a customer and their cost.
    Routes {
        cvrp: Cvrp<'a>,
        routes: &'a [Vec<u32>],
        count: u64,
        cost: u64,
    },
}
