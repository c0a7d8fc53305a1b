//! Results as JSON objects. The members are described in docs/OUTPUT.md.
use serde::Serialize;
use std::alloc::{AllocError, Global};
use tk_engines::{FoundRoutes, FoundTour, Key, RouteVerdict, RunReport, TourOutcome};

/// The verdict on a tour or a solution: its file if it is one of several, whether it has no fault, and its values or
/// those of its fault.
#[derive(Drop, Serialize)]
pub struct Judgement<'a, T> {
    #[serde(skip_serializing_if = "Option::is_none")]
    pub file: Option<&'a str>,
    pub valid: bool,
    #[serde(flatten)]
    pub values: T,
}

/// The values of a tour.
#[derive(Drop, Serialize)]
pub struct TourValues {
    cities: u32,
    length: u64,
}

/// The values of valid routes.
#[derive(Drop, Serialize)]
pub struct RouteValues {
    routes: u64,
    cost: i64,
}

/// A fault of a tour. The name of the variant is the member `fault`.
#[derive(Drop, Serialize)]
#[serde(tag = "fault")]
pub enum TourFaultObject {
    WrongCount { wanted: u32, read: u64 },
    OutOfRange { place: u32, city: u32 },
    RepeatedCity { place: u32, city: u32 },
}

/// A fault of a solution. The name of the variant is the member `fault`.
#[derive(Drop, Serialize)]
#[serde(tag = "fault")]
pub enum RouteFaultObject {
    BadCustomer { route: u64, customer: u32 },
    ServedTwice { customer: u32 },
    OverCapacity { route: u64, load: u64 },
    NotServed { customer: u32 },
    WrongCost { read: i64, counted: i64 },
}

/// The values or the fault of a list that should be a tour.
pub fn tour_object(outcome: TourOutcome) -> Result<TourValues, TourFaultObject> {
    Err(match outcome {
        TourOutcome::Tour { cities, length } => return Ok(TourValues { cities, length }),
        TourOutcome::WrongCount { wanted, read } => TourFaultObject::WrongCount { wanted, read },
        TourOutcome::OutOfRange { place, city } => TourFaultObject::OutOfRange { place, city },
        TourOutcome::RepeatedCity { place, city } => TourFaultObject::RepeatedCity { place, city },
    })
}

/// The values or the fault of a solution.
pub fn route_object(verdict: RouteVerdict) -> Result<RouteValues, RouteFaultObject> {
    Err(match verdict {
        RouteVerdict::Valid { routes, cost } => return Ok(RouteValues { routes, cost }),
        RouteVerdict::BadCustomer(route, customer) => {
            RouteFaultObject::BadCustomer { route, customer }
        }
        RouteVerdict::ServedTwice(customer) => RouteFaultObject::ServedTwice { customer },
        RouteVerdict::OverCapacity(route, load) => RouteFaultObject::OverCapacity { route, load },
        RouteVerdict::NotServed(customer) => RouteFaultObject::NotServed { customer },
        RouteVerdict::WrongCost(read, counted) => RouteFaultObject::WrongCost { read, counted },
    })
}

/// A run of a search.
#[derive(Clone, Copy, Serialize)]
pub struct RunObject {
    pub run: u64,
    pub start: i64,
    pub best: i64,
    /// The number of routes; none for a tour.
    #[serde(skip_serializing_if = "Option::is_none")]
    pub routes: Option<u32>,
    pub trials: u128,
    pub moves: u128,
    pub tests: u128,
    pub swaps: u128,
}

/// The outcome of a search for a tour.
#[derive(Drop, Serialize)]
pub struct TourSearchObject {
    ignored: Vec<&'static str>,
    runs: Vec<RunObject>,
    best: i64,
}

impl TourSearchObject {
    /// An object for what was found, and the keys that were not used.
    ///
    /// # Errors
    /// `AllocError` if memory runs out.
    pub fn of(
        alloc: Global,
        ignored: &[Key],
        found: &FoundTour,
    ) -> Result<TourSearchObject, AllocError> {
        Ok(TourSearchObject {
            ignored: words_of(alloc, ignored)?,
            runs: runs_of(alloc, &found.solved.runs)?,
            best: found.solved.length,
        })
    }
}

/// The outcome of the improvement of savings routes, each by itself.
#[derive(Drop, Serialize)]
pub struct RouteSearchObject {
    ignored: Vec<&'static str>,
    savings: i64,
    routes: u64,
    improved: i64,
    moves: u64,
    tests: u64,
    swaps: u64,
    best: i64,
    #[serde(skip_serializing_if = "Option::is_none")]
    vehicles: Option<u32>,
}

impl RouteSearchObject {
    /// An object for what was found, the keys that were not used, and the number of vehicles if that is stated.
    ///
    /// # Errors
    /// `AllocError` if memory runs out.
    pub fn of(
        alloc: Global,
        ignored: &[Key],
        found: &FoundRoutes,
        vehicles: Option<u32>,
    ) -> Result<RouteSearchObject, AllocError> {
        let report = &found.report;
        Ok(RouteSearchObject {
            ignored: words_of(alloc, ignored)?,
            savings: report.before,
            routes: found.routes.len() as u64,
            improved: report.after,
            moves: report.moves,
            tests: report.tests,
            swaps: report.swaps,
            best: report.after,
            vehicles,
        })
    }
}

/// An improvement of a run of a search for a tour.
#[derive(Clone, Copy, Serialize)]
pub struct TourImprovement {
    pub seconds: f64,
    pub run: u32,
    pub trial: u32,
    pub length: i64,
}

/// An improvement of a run of a search between routes.
#[derive(Clone, Copy, Serialize)]
pub struct RouteImprovement {
    pub seconds: f64,
    pub run: u32,
    pub trial: u32,
    pub cost: i64,
    pub routes: u64,
}

/// The names of keys.
///
/// # Errors
/// `AllocError` if memory runs out.
pub fn words_of(alloc: Global, keys: &[Key]) -> Result<Vec<&'static str>, AllocError> {
    let mut words = Vec::new(alloc);
    for key in keys {
        words.push(key.word())?;
    }
    Ok(words)
}

/// The objects of runs, which are numbered from 1.
fn runs_of(alloc: Global, reports: &[RunReport]) -> Result<Vec<RunObject>, AllocError> {
    let mut runs = Vec::new(alloc);
    for i in 0..reports.len() {
        runs.push(run_object(i as u64 + 1, &reports[i]))?;
    }
    Ok(runs)
}

/// The object of a run.
fn run_object(run: u64, report: &RunReport) -> RunObject {
    let totals = &report.totals;
    RunObject {
        run,
        start: totals.start,
        best: report.best,
        routes: None,
        trials: totals.trials,
        moves: totals.moves,
        tests: totals.tests,
        swaps: totals.swaps,
    }
}
