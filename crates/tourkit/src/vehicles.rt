//! The vehicles that the routes of a solution need.
use std::fmt;
use tk_console::search::Search;
use tk_engines::SearchOutcome;

/// A solution with more routes than there are vehicles.
#[derive(Clone, Copy)]
pub struct MissingVehicles {
    routes: u64,
    vehicles: u32,
}

impl MissingVehicles {
    /// The best routes of a search, if they are more than the vehicles that its options state.
    pub fn of(search: &Search<'_, '_>, outcome: &SearchOutcome) -> Option<MissingVehicles> {
        let vehicles = search.vehicles()?;
        let routes = route_count(outcome);
        (routes > vehicles as u64).then_some(MissingVehicles { routes, vehicles })
    }
}

impl fmt::Display for MissingVehicles {
    fn fmt<W: fmt::Write>(&self, f: &mut fmt::Formatter<W>) -> fmt::Result {
        write!(
            f,
            "over vehicles: {} routes, {} vehicles",
            self.routes, self.vehicles
        )
    }
}

/// The number of routes that were found; 0 for a tour.
fn route_count(outcome: &SearchOutcome) -> u64 {
    match outcome {
        SearchOutcome::Tour(_) => 0,
        SearchOutcome::Routes(found) => found.routes.len() as u64,
        SearchOutcome::Between(found) => found.solved.routes.len() as u64,
    }
}
