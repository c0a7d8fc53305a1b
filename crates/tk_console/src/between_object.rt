//! The outcome of a search between routes as a JSON object. The members are described in docs/OUTPUT.md.
use crate::objects::{RunObject, words_of};
use serde::Serialize;
use std::alloc::{AllocError, Global};
use tk_engines::{FoundBetween, Key, RouteRun};

/// The routes that each run begins with.
#[derive(Clone, Copy, Serialize)]
struct StartObject {
    cost: i64,
    routes: u32,
    candidates: Option<u32>,
}

/// The outcome of a search between routes.
#[derive(Drop, Serialize)]
pub struct BetweenObject {
    ignored: Vec<&'static str>,
    start: StartObject,
    runs: Vec<RunObject>,
    best: i64,
    routes: u64,
    #[serde(skip_serializing_if = "Option::is_none")]
    vehicles: Option<u32>,
}

impl BetweenObject {
    /// An object for what was found, the keys that were not used, and the number of vehicles if that is stated.
    ///
    /// # Errors
    /// `AllocError` if memory runs out.
    pub fn of(
        alloc: Global,
        ignored: &[Key],
        found: &FoundBetween,
        vehicles: Option<u32>,
    ) -> Result<BetweenObject, AllocError> {
        let solved = &found.solved;
        Ok(BetweenObject {
            ignored: words_of(alloc, ignored)?,
            start: StartObject {
                cost: solved.start,
                routes: solved.start_routes,
                candidates: solved.candidates,
            },
            runs: runs_of(alloc, &solved.runs)?,
            best: solved.cost,
            routes: solved.routes.len() as u64,
            vehicles,
        })
    }
}

/// The objects of runs, which are numbered from 1.
fn runs_of(alloc: Global, runs: &[RouteRun]) -> Result<Vec<RunObject>, AllocError> {
    let mut objects = Vec::new(alloc);
    for i in 0..runs.len() {
        objects.push(run_object(i as u64 + 1, &runs[i]))?;
    }
    Ok(objects)
}

/// The object of a run.
fn run_object(run: u64, report: &RouteRun) -> RunObject {
    let totals = &report.totals;
    RunObject {
        run,
        start: totals.start,
        best: report.best,
        routes: Some(report.routes),
        trials: totals.trials as u128,
        moves: totals.moves,
        tests: totals.tests,
        swaps: totals.swaps as u128,
    }
}
