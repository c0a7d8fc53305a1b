//! The contents of a problem as arrays of numbers: its coordinates, its explicit weights, its demands.
ghost use Rattle.std.specs.Prelude.{◌≡◌, ◌≢◌, ◌≤◌, Some, length, option_map};
ghost use Rattle.tk_text.specs.ProblemOf.{problem_is};
ghost use Rattle.tk_for_c.specs.Arrays.{IsArrayStatus};
ghost use Rattle.tk_for_c.specs.Contents.{AreArraysStatus, ArePlacesIn, ArePlacesOf, IsCounted, IsLack, IsListCount};
ghost use Rattle.tk_for_c.specs.Contents.{IsListOf, IsListRefused, demands_in, points_in, weights_in};
ghost use Rattle.tk_for_c.specs.Outcomes.{with_status};
ghost use Rattle.tk_for_c.specs.Points.{ArePlaces};

use crate::answer::{Answer, NO_ROOM};
use crate::arrays::problem_of;
use std::alloc::Global;
use tk_text::{Points, Problem, Weights};

/// Kind of a refusal: the problem is not a CVRP.
const WRONG_TYPE: u32 = 16;
/// Kind of a refusal: the problem has explicit weights instead of coordinates.
const NO_PLACES: u32 = 19;
/// Kind of a refusal: the problem has coordinates instead of explicit weights.
const NO_WEIGHTS: u32 = 28;

/// The points of the cities; `None` if there are explicit weights.
fn points_of(problem: &Problem) -> Option<&Points>
    ensures { option_map (λ points. points.now) result ≡ points_in (problem_is problem.now) }
{
    match &problem.weights {
        Weights::Points(_, points) => Some(points),
        Weights::Lower(_) => None,
    }
}

/// The explicit weights, as a lower triangle; `None` if there are coordinates.
fn weights_of(problem: &Problem) -> Option<&[u32]>
    ensures { option_map (λ weights. weights.now) result ≡ weights_in (problem_is problem.now) }
{
    match &problem.weights {
        Weights::Points(_, _) => None,
        Weights::Lower(weights) => Some(weights),
    }
}

/// The demands of the nodes; `None` for a TSP.
fn demands_of(problem: &Problem) -> Option<&[u32]>
    ensures { option_map (λ demands. demands.now) result ≡ demands_in (problem_is problem.now) }
{
    match &problem.routing {
        Some(routing) => Some(&routing.demand),
        None => None,
    }
}

/// Writes the coordinates of points to two arrays.
fn fill_places(points: &Points, xs: &mut [i64], ys: &mut [i64])
    requires xs { length xs.old ≡ length points.now }
    requires ys { length ys.old ≡ length points.now }
    ensures { ArePlaces xs.new ys.new points.now }
{
    for i in 0..points.len() {
        let place = points.get(i);
        xs[i] = place.x;
        ys[i] = place.y;
    }
}

/// Writes the coordinates of points, if both arrays have exactly as many entries; otherwise the status is 4. Without
/// points, it is 2.
fn places_written(points: Option<&Points>, xs: &mut [i64], ys: &mut [i64]) -> Answer
    ensures given { result.status ≡ 0 → ArePlacesIn (option_map (λ points. points.now) points.entry) xs.new ys.new }
    ensures room { result.status ≡ 4 → IsCounted (option_map (λ points. points.now) points.entry) result }
    ensures status { AreArraysStatus (length xs.old) (length ys.old) result }
    ensures kept_xs { 2 ≤ result.status → xs.new ≡ xs.old }
    ensures kept_ys { 2 ≤ result.status → ys.new ≡ ys.old }
    ensures lack { result.status ≡ 2 → IsLack (option_map (λ points. points.now) points.entry) 19 result }
{
    let Some(points) = points else {
        return Answer::refused(0, 0, NO_PLACES, 0);
    };
    let needed = points.len();
    if xs.len() != needed || ys.len() != needed {
        return Answer::ended(NO_ROOM, needed);
    }
    fill_places(points, xs, ys);
    Answer::ended(0, needed)
}

/// Writes a list of numbers, if `out` has exactly as many entries; otherwise the status is 4. Without a list, it is 2
/// with this kind.
fn list_written(list: Option<&[u32]>, kind: u32, out: &mut [u32]) -> Answer
    ensures given { result.status ≡ 0 → option_map (λ entries. entries.now) list.entry ≡ Some out.new }
    ensures room { result.status ≡ 4 → IsCounted (option_map (λ entries. entries.now) list.entry) result }
    ensures status { IsArrayStatus (length out.old) result }
    ensures kept { 2 ≤ result.status → out.new ≡ out.old }
    ensures lack { result.status ≡ 2 → IsLack (option_map (λ entries. entries.now) list.entry) kind result }
{
    match list {
        Some(entries) => copied(entries, out),
        None => Answer::refused(0, 0, kind, 0),
    }
}

/// Writes numbers, if `out` has exactly as many entries; otherwise the status is 4.
pub(crate) fn copied(numbers: &[u32], out: &mut [u32]) -> Answer
    ensures given { result.status ≡ 0 → out.new ≡ numbers.now }
    ensures room { result.status ≡ 4 → result ≡ with_status 4 (length numbers.now) }
    ensures status { IsArrayStatus (length out.old) result }
    ensures kept { 2 ≤ result.status → out.new ≡ out.old }
    ensures unrefused { result.status ≢ 2 }
{
    if out.len() != numbers.len() {
        return Answer::ended(NO_ROOM, numbers.len());
    }
    out.copy_from_slice(numbers);
    Answer::ended(0, numbers.len())
}

/// Writes the coordinates of n cities in units of 10^-9, if both arrays have exactly n entries; otherwise the status is
/// 4. In both cases, `needed` is n. The status is 2 with kind 19 if the problem has explicit weights.
pub fn tourkit_coordinates(alloc: Global, problem: &[u8], xs: &mut [i64], ys: &mut [i64]) -> Answer
    ensures given { result.status ≡ 0 → ArePlacesOf problem.now xs.new ys.new }
    ensures room { result.status ≡ 4 → IsListCount points_in problem.now result }
    ensures status { AreArraysStatus (length xs.old) (length ys.old) result }
    ensures kept_xs { 2 ≤ result.status → xs.new ≡ xs.old }
    ensures kept_ys { 2 ≤ result.status → ys.new ≡ ys.old }
    ensures refused { result.status ≡ 2 → IsListRefused points_in 19 problem.now result }
{
    match problem_of(alloc, problem) {
        Ok(problem) => places_written(points_of(&problem), xs, ys),
        Err(answer) => answer,
    }
}

/// Writes the explicit weights of n cities, the lower triangle row by row without its diagonal, if `out` has exactly
/// n (n - 1) / 2 entries; otherwise the status is 4. In both cases, `needed` is their number. The status is 2 with kind
/// 28 if the problem has coordinates.
pub fn tourkit_weights(alloc: Global, problem: &[u8], out: &mut [u32]) -> Answer
    ensures given { result.status ≡ 0 → IsListOf weights_in problem.now out.new }
    ensures room { result.status ≡ 4 → IsListCount weights_in problem.now result }
    ensures status { IsArrayStatus (length out.old) result }
    ensures kept { 2 ≤ result.status → out.new ≡ out.old }
    ensures refused { result.status ≡ 2 → IsListRefused weights_in 28 problem.now result }
{
    match problem_of(alloc, problem) {
        Ok(problem) => list_written(weights_of(&problem), NO_WEIGHTS, out),
        Err(answer) => answer,
    }
}

/// Writes the demands of the n nodes of a CVRP, if `out` has exactly n entries; otherwise the status is 4. In both
/// cases, `needed` is n. The status is 2 with kind 16 if the problem is not a CVRP.
pub fn tourkit_demands(alloc: Global, problem: &[u8], out: &mut [u32]) -> Answer
    ensures given { result.status ≡ 0 → IsListOf demands_in problem.now out.new }
    ensures room { result.status ≡ 4 → IsListCount demands_in problem.now result }
    ensures status { IsArrayStatus (length out.old) result }
    ensures kept { 2 ≤ result.status → out.new ≡ out.old }
    ensures refused { result.status ≡ 2 → IsListRefused demands_in 16 problem.now result }
{
    match problem_of(alloc, problem) {
        Ok(problem) => list_written(demands_of(&problem), WRONG_TYPE, out),
        Err(answer) => answer,
    }
}
