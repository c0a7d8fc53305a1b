//! Tours as arrays: the cities of a text, and nearest-neighbour tours.
ghost use Rattle.std.specs.Prelude.{◌≡◌, ◌≤◌, length, IfOk, IfErr};
ghost use Rattle.tk_text.specs.ProblemOf.{weights_are};
ghost use Rattle.tk_text.specs.Tour.{tour_texts};
ghost use Rattle.tk_metric.specs.Cities.{IsCity};
ghost use Rattle.tk_starts.specs.NearestTour.{IsNearestTour};
ghost use Rattle.tk_engines.specs.ReadProblems.{read_distance};
ghost use Rattle.tk_for_c.specs.Answers.{IsFaulty};
ghost use Rattle.tk_for_c.specs.Arrays.{IsArrayStatus, IsCountOf};
ghost use Rattle.tk_for_c.specs.Outcomes.{IsFailure, with_status};
ghost use Rattle.tk_for_c.specs.Texts.{TextSays};
ghost use Rattle.tk_for_c.specs.Tours.{IsCityCount, IsNearestRefused, IsNearestTourOf};

use crate::answer::{Answer, NO_MEMORY, NO_ROOM, REFUSED};
use crate::arrays::{problem_of, table_of};
use crate::contents::copied;
use std::alloc::Global;
use tk_starts::nearest_tour;
use tk_text::{FromRead, Problem, TourText, read_tour};

/// The cities of a tour text, or the result of the call if the text is rejected or memory runs out.
fn tour_of(alloc: Global, text: &[u8]) -> Result<TourText, Answer>
    ensures ok { IfOk result (λ tour. TextSays tour_texts text.now tour.cities.items) }
    ensures failure { IfErr result (IsFailure 0) }
    ensures refused { IfErr result (λ answer. answer.status ≡ 2 → IsFaulty tour_texts 1 text.now answer) }
{
    match read_tour(alloc, &mut FromRead::new(text)) {
        Ok(tour) => Ok(tour),
        Err(fault) => Err(Answer::of_text(1, &fault, 0)),
    }
}

/// Writes the nearest-neighbour tour of a problem from a city, if `out` has exactly n entries; otherwise the status is
/// 4. If the number is not a city, the status is 2.
fn nearest_written(alloc: Global, problem: &Problem, start: u32, out: &mut [u32]) -> Answer
    ensures given { result.status ≡ 0
        → IsNearestTour (read_distance (weights_are problem.now.weights)) problem.now.n start out.new }
    ensures room { result.status ≡ 4 → result ≡ with_status 4 problem.now.n }
    ensures status { IsArrayStatus (length out.old) result }
    ensures kept { 2 ≤ result.status → out.new ≡ out.old }
    ensures refused { result.status ≡ 2 → result ≡ with_status 2 0 }
    ensures outside { result.status ≡ 2 → IsCity problem.now.n start → ⊥ }
{
    if start < 1 || start > problem.n {
        return Answer::ended(REFUSED, 0);
    }
    if out.len() != problem.n as usize {
        return Answer::ended(NO_ROOM, problem.n as usize);
    }
    match nearest_tour(alloc, &table_of(problem), start) {
        Ok(tour) => copied(&tour, out),
        Err(_) => Answer::ended(NO_MEMORY, 0),
    }
}

/// Writes the numbers that a tour text lists, if `out` has exactly as many entries; otherwise the status is 4. In both
/// cases, `needed` is their number. They need not be a tour.
pub fn tourkit_tour_cities(alloc: Global, tour: &[u8], out: &mut [u32]) -> Answer
    ensures given { result.status ≡ 0 → TextSays tour_texts tour.now out.new }
    ensures room { result.status ≡ 4 → IsCityCount tour.now result }
    ensures status { IsArrayStatus (length out.old) result }
    ensures kept { 2 ≤ result.status → out.new ≡ out.old }
    ensures refused { result.status ≡ 2 → IsFaulty tour_texts 1 tour.now result }
{
    match tour_of(alloc, tour) {
        Ok(tour) => copied(&tour.cities, out),
        Err(answer) => answer,
    }
}

/// Writes the tour that goes from the city `start` to the nearest unvisited city again and again, if `out` has exactly
/// n entries; otherwise the status is 4. In both cases, `needed` is n. Of equally near cities, the tour takes the one
/// with the smallest number. If `start` is not a city of the problem, the status is 2.
pub fn tourkit_nearest_tour(alloc: Global, problem: &[u8], start: u32, out: &mut [u32]) -> Answer
    ensures given { result.status ≡ 0 → IsNearestTourOf start problem.now out.new }
    ensures room { result.status ≡ 4 → IsCountOf (λ p. p.n) problem.now result }
    ensures status { IsArrayStatus (length out.old) result }
    ensures kept { 2 ≤ result.status → out.new ≡ out.old }
    ensures refused { result.status ≡ 2 → IsNearestRefused start problem.now result }
{
    match problem_of(alloc, problem) {
        Ok(problem) => nearest_written(alloc, &problem, start, out),
        Err(answer) => answer,
    }
}
