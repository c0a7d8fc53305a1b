//! The outcome of a search.
ghost use Rattle.std.specs.Prelude.{◌≤◌, ◌≤ℤ◌, length, map, pos};
ghost use Rattle.std.specs.List.{concat};
ghost use Rattle.tk_problem.specs.declared.limits.TheConstants.{CITY_LIMIT, ENTRY_LIMIT, ROUTE_LIMIT};

use tk_route_search::SolvedRoutes;
use tk_routes::RouteReport;
use tk_solve::SolvedTour;

/// The outcome of a search for a tour.
#[derive(Drop)]
pub struct FoundTour {
    /// The name of the problem.
    pub name: Vec<u8>,
    /// The tour, and a report of each run.
    pub solved: SolvedTour,
    ghost positive: { pos 0 ≤ℤ solved.length },
    ghost few_bytes: { length name.items ≤ 1024 },
    ghost few_cities: { length solved.cities.items ≤ CITY_LIMIT },
    ghost few_runs: { length solved.runs.items ≤ 10000 },
}

/// The outcome of the improvement of savings routes, each by itself.
#[derive(Drop)]
pub struct FoundRoutes {
    /// The customers of each route.
    pub routes: Vec<Vec<u32>>,
    /// The report of the improvement.
    pub report: RouteReport,
    ghost positive: { pos 0 ≤ℤ report.after },
    ghost few_routes: { length routes.items ≤ ROUTE_LIMIT },
    ghost few_customers: { length (concat (map (λ r. r.items) routes.items)) ≤ ENTRY_LIMIT },
}

/// The outcome of a search between the routes of a CVRP.
#[derive(Drop)]
pub struct FoundBetween {
    /// The routes, and a report of each run.
    pub solved: SolvedRoutes,
    ghost positive: { pos 0 ≤ℤ solved.cost },
    ghost few_routes: { length solved.routes.items ≤ ROUTE_LIMIT },
    ghost few_customers: { length (concat (map (λ r. r.items) solved.routes.items)) ≤ ENTRY_LIMIT },
    ghost few_runs: { length solved.runs.items ≤ 10000 },
}

/// The outcome of a search.
#[derive(Drop)]
pub enum SearchOutcome {
    /// Of a TSP.
    Tour(FoundTour),
    /// Of a CVRP, by the improvement of each savings route by itself.
    Routes(FoundRoutes),
    /// Of a CVRP, by a search between its routes.
    Between(FoundBetween),
}
