//! Arrays of numbers instead of texts: the distances and the near lists of a problem, and the check of a list as a
//! tour.
ghost use Rattle.std.specs.Prelude.{◌≡◌, ◌≢◌, ◌≤◌, ◌*◌, ◌-◌, min, length, IfOk, IfErr};
ghost use Rattle.tk_near.specs.ListLengths.{IsListLength};
ghost use Rattle.tk_text.specs.Problem.{problem_texts};
ghost use Rattle.tk_text.specs.ProblemOf.{problem_is, weights_are};
ghost use Rattle.tk_metric.specs.Tables.{table_distance, table_size};
ghost use Rattle.tk_engines.specs.ReadProblems.{read_distance};
ghost use Rattle.tk_for_c.specs.Answers.{IsFaulty};
ghost use Rattle.tk_for_c.specs.Arrays.{AreDistances, AreDistancesOf, AreNearIn, AreNearOf, HasVerdict, IsArrayStatus};
ghost use Rattle.tk_for_c.specs.Arrays.{IsCountOf, IsTourCheckOf};
ghost use Rattle.tk_for_c.specs.Outcomes.{IsFailure, with_status};
ghost use Rattle.tk_for_c.specs.Texts.{TextSays};

use crate::answer::{Answer, NO_ROOM, REFUSED};
use crate::tables::{fill_distances, near_in, verdict_in};
use std::alloc::Global;
use tk_metric::Table;
use tk_near::ListLength;
use tk_text::{FromRead, Problem, read_problem};

/// The problem of a text, or the result of the call if the text is rejected or memory runs out.
pub(crate) fn problem_of(alloc: Global, text: &[u8]) -> Result<Problem, Answer>
    ensures ok { IfOk result (λ p. TextSays problem_texts text.now (problem_is p)) }
    ensures failure { IfErr result (IsFailure 0) }
    ensures refused { IfErr result (λ answer. answer.status ≡ 2 → IsFaulty problem_texts 1 text.now answer) }
{
    match read_problem(alloc, &mut FromRead::new(text)) {
        Ok(problem) => Ok(problem),
        Err(fault) => Err(Answer::of_text(1, &fault, 0)),
    }
}

/// The distances of a problem.
pub(crate) fn table_of(problem: &Problem) -> Table<'_>
    ensures size { table_size result ≡ problem.now.n }
    ensures distances { table_distance result ≡ read_distance (weights_are problem.now.weights) }
{
    Table::of(problem)
}

/// Writes the distances of all pairs of cities of a problem, if `out` has exactly the right size.
fn distances_of(problem: &Problem, out: &mut [i64]) -> Answer
    ensures given { result.status ≡ 0
        → AreDistances problem.now.n (read_distance (weights_are problem.now.weights)) out.new }
    ensures room { result.status ≡ 4 → result ≡ with_status 4 (problem.now.n * problem.now.n) }
    ensures status { IsArrayStatus (length out.old) result }
    ensures kept { 2 ≤ result.status → out.new ≡ out.old }
    ensures unrefused { result.status ≢ 2 }
{
    let needed = problem.n as usize * problem.n as usize;
    if out.len() != needed {
        return Answer::ended(NO_ROOM, needed);
    }
    fill_distances(&table_of(problem), out);
    Answer::ended(0, needed)
}

/// Writes the near lists of a problem, if `out` has exactly the right size.
fn near_of(alloc: Global, problem: &Problem, candidates: ListLength, out: &mut [u32]) -> Answer
    ensures given { result.status ≡ 0
        → AreNearIn problem.now.n (read_distance (weights_are problem.now.weights)) candidates.cities out.new }
    ensures room { result.status ≡ 4
        → result ≡ with_status 4 (problem.now.n * min candidates.cities (problem.now.n - 1)) }
    ensures status { IsArrayStatus (length out.old) result }
    ensures kept { 2 ≤ result.status → out.new ≡ out.old }
    ensures unrefused { result.status ≢ 2 }
{
    near_in(alloc, &table_of(problem), candidates, out)
}

/// The result of checking a list as a tour of a problem's cities.
fn verdict_of(alloc: Global, problem: &Problem, cities: &[u32]) -> Answer
    ensures given { result.status ≤ 1
        → HasVerdict problem.now.n (read_distance (weights_are problem.now.weights)) cities.now result }
    ensures known { result.status ≤ 3 }
    ensures unrefused { result.status ≢ 2 }
    ensures unwritten { result.needed ≡ 0 }
    ensures memory { result.status ≡ 3 → result ≡ with_status 3 0 }
{
    verdict_in(alloc, &table_of(problem), cities)
}

/// Writes the distances of all pairs of n cities, row by row, if `out` has exactly n² entries; otherwise the status is
/// 4. In both cases, `needed` is n². Cities count from 1: the distance of a and b is at index (a - 1) n + (b - 1).
pub fn tourkit_distances(alloc: Global, problem: &[u8], out: &mut [i64]) -> Answer
    ensures given { result.status ≡ 0 → AreDistancesOf problem.now out.new }
    ensures room { result.status ≡ 4 → IsCountOf (λ p. p.n * p.n) problem.now result }
    ensures status { IsArrayStatus (length out.old) result }
    ensures kept { 2 ≤ result.status → out.new ≡ out.old }
    ensures problem { result.status ≡ 2 → IsFaulty problem_texts 1 problem.now result }
{
    match problem_of(alloc, problem) {
        Ok(problem) => distances_of(&problem, out),
        Err(answer) => answer,
    }
}

/// Writes the near lists of n cities one after another, min(k, n - 1) cities each, if `out` has exactly as many
/// entries; otherwise the status is 4. In both cases, `needed` is their number. k is 1 to 100; for any other k, the
/// status is 2.
pub fn tourkit_near_cities(alloc: Global, problem: &[u8], k: u32, out: &mut [u32]) -> Answer
    ensures given { result.status ≡ 0 → AreNearOf k problem.now out.new }
    ensures room { result.status ≡ 4 → IsCountOf (λ p. p.n * min k (p.n - 1)) problem.now result }
    ensures status { IsArrayStatus (length out.old) result }
    ensures kept { 2 ≤ result.status → out.new ≡ out.old }
    ensures refused { result.status ≡ 2 → IsListLength k → IsFaulty problem_texts 1 problem.now result }
    ensures outside { (IsListLength k → ⊥) → result ≡ with_status 2 0 }
{
    let Some(candidates) = ListLength::of(k) else {
        return Answer::ended(REFUSED, 0);
    };
    match problem_of(alloc, problem) {
        Ok(problem) => near_of(alloc, &problem, candidates, out),
        Err(answer) => answer,
    }
}

/// Checks an array as a tour of the cities of a problem. The status is 0 with the length of the tour in `length`, or 1
/// with the first fault in `kind` (20 wrong count, 21 out of range, 22 repeated city) and its position in `place`.
pub fn tourkit_check_cities(alloc: Global, problem: &[u8], cities: &[u32]) -> Answer
    ensures given { result.status ≤ 1 → IsTourCheckOf problem.now cities.now result }
    ensures known { result.status ≤ 3 }
    ensures problem { result.status ≡ 2 → IsFaulty problem_texts 1 problem.now result }
    ensures unwritten { result.needed ≡ 0 }
    ensures memory { result.status ≡ 3 → result ≡ with_status 3 0 }
{
    match problem_of(alloc, problem) {
        Ok(problem) => verdict_of(alloc, &problem, cities),
        Err(answer) => answer,
    }
}
