//! The runs of a search for a tour.
ghost use Rattle.std.specs.Prelude.{◌≡◌, ◌≤◌, IfOk, option_map, pos};
ghost use Rattle.tk_distance.specs.Tables.{table_size, table_distance};
ghost use Rattle.tk_tour.specs.Printed.{IsPrintedForm};
ghost use Rattle.tk_tour.specs.Tour.{IsTour, tour_length};
ghost use Rattle.tk_solve.specs.Outcomes.{AreMade};
ghost use Rattle.tk_solve.specs.SolvedTours.{IsSolved, IsSound};
ghost use Rattle.tk_solve.specs.Starts.{IsCommonStart, IsGivenTour, task_of};
ghost use Rattle.tk_solve.specs.Watching.{WereShown};

use crate::options::TourOptions;
use crate::outcome::{Outcome, RunReport};
use crate::starts::{common_start, savings_start, start_of};
use crate::watch::{Watch, is_made};
use std::alloc::{AllocError, Global};
use tk_distance::{Metric, Table};
use tk_near::{Near, near_lists};
use tk_tour::{ArrayTour, length};

/// The result of a search for a tour.
#[derive(Drop)]
pub struct SolvedTour {
    /// The shortest of the best tours of the runs; the earliest one, if there are several. It is in canonical form:
    /// from city 1, towards the smaller of its neighbours.
    pub cities: Vec<u32>,
    /// Its length.
    pub length: i64,
    /// A report of each run that was made.
    pub runs: Vec<RunReport>,
}

/// The result after all runs.
fn solved(alloc: Global, table: &Table<'_>, outcome: Outcome) -> Result<SolvedTour, AllocError>
    requires tour { IsTour (table_size table.now) outcome.cities.items }
    requires cities { 2 ≤ table_size table.now }
    ensures runs { IfOk result (λ s. s.runs ≡ outcome.reports) }
    ensures printed { IfOk result (λ s. IsPrintedForm outcome.cities.items s.cities.items) }
    ensures length { IfOk result (λ s. s.length ≡ pos (tour_length (table_distance table.now) s.cities.items)) }
    ensures tour { IfOk result (λ s. IsTour (table_size table.now) s.cities.items) }
{
    let Ok(tour) = ArrayTour::from_list(alloc, &outcome.cities) else {
        return Err(AllocError);
    };
    let cities = tour.canonical(alloc)?;
    let length = length(table, &cities);
    Ok(SolvedTour {
        cities,
        length,
        runs: outcome.reports,
    })
}

/// Makes all runs, unless the observer ends the search. Each begins with the common start or, if there is none, with a
/// nearest-neighbour tour of its own.
fn run_all<W: Watch>(
    alloc: Global,
    table: &Table<'_>,
    near: &Near,
    common: Option<&[u32]>,
    options: &TourOptions<'_>,
    watch: &mut W,
) -> Result<Outcome, AllocError>
    requires some { 1 ≤ table_size table.now }
    requires size { near.now.size ≡ table_size table.now }
    requires start { IsCommonStart (task_of table.now options.now) near.now (option_map (λ c. c.now) common) }
    ensures { IfOk result
        (AreMade (task_of table.now options.now) near.now (WereShown W.shows watch.old watch.new)) }
{
    let mut outcome = Outcome::new(alloc);
    for j in 0..options.runs {
        if !is_made(j, watch) {
            break;
        }
        let start = start_of(alloc, table, common, j)?;
        outcome.add_run(alloc, table, near, start, options, j, watch)?;
    }
    Ok(outcome)
}

/// Searches for a short tour of the cities of a table: `runs` runs of `trials` trials each, or of one trial each if
/// there are fewer than 8 cities. `watch` is shown each trial, with the length of the tour that it ended with and the
/// best tour of its run up to then. It is also shown each run after its last trial, with its report. All this is shown
/// in order, and nothing else is.
///
/// `watch` can end the search: it is asked before each trial of a run but its first, and before each run but the first,
/// whether the search goes on. So there is always a tour.
///
/// # Errors
/// `AllocError` if memory runs out.
pub fn solve_tour<W: Watch>(
    alloc: Global,
    table: &Table<'_>,
    options: &TourOptions<'_>,
    watch: &mut W,
) -> Result<SolvedTour, AllocError>
    requires cities { 2 ≤ table_size table.now }
    requires given { IsGivenTour (table_size table.now) options.now.start }
    ensures solved { IfOk result
        (IsSolved (task_of table.now options.now) (WereShown W.shows watch.old watch.new)) }
    ensures sound { IfOk result (IsSound (task_of table.now options.now)) }
{
    let near = near_lists(alloc, table, options.candidates.min(table.size() - 1))?;
    let savings = savings_start(alloc, table, &near, options.start)?;
    let common = common_start(options.start, &savings);
    let outcome = run_all(alloc, table, &near, common, options, watch)?;
    solved(alloc, table, outcome)
}
