//! Cities with explicit weights in an array: the lower triangle row by row without its diagonal.
ghost use Rattle.std.specs.Prelude.{◌≡◌, ◌≢◌, ◌≤◌, ◌*◌, ◌-◌, true, false, All, length, min, IfSome, IfNone};
ghost use Rattle.tk_problem.specs.declared.limits.TheConstants.{DISTANCE_LIMIT};
ghost use Rattle.tk_near.specs.ListLengths.{IsListLength};
ghost use Rattle.tk_metric.specs.Tables.{table_distance, table_size};
ghost use Rattle.tk_metric.specs.Weights.{weight_between};
ghost use Rattle.tk_for_c.specs.Arrays.{AreNearIn, HasVerdict, IsArrayStatus};
ghost use Rattle.tk_for_c.specs.Outcomes.{with_status};
ghost use Rattle.tk_for_c.specs.Weights.{AreWeights};

use crate::answer::{Answer, REFUSED};
use crate::tables::{near_in, verdict_in};
use std::alloc::Global;
use tk_metric::{Table, Triangle};
use tk_near::ListLength;
use tk_text::{DISTANCE_LIMIT, TABLE_LIMIT};

/// Whether no weight is greater than 4,000,000,000.
fn are_small(weights: &[u32]) -> bool
    ensures yes { result ≡ true → All (λ w. w ≤ DISTANCE_LIMIT) weights.now }
    ensures no { result ≡ false → All (λ w. w ≤ DISTANCE_LIMIT) weights.now → ⊥ }
{
    for i in 0..weights.len() {
        if weights[i] > DISTANCE_LIMIT {
            return false;
        }
    }
    true
}

/// The distances of n cities with these weights; `None` unless n is 2 to 5,000, and the weights are n (n - 1) / 2
/// numbers within the limit.
fn table_of(n: u32, weights: &[u32]) -> Option<Table<'_>>
    ensures size { IfSome result (λ table. table_size table ≡ n) }
    ensures some { IfSome result (λ table. 2 ≤ table_size table) }
    ensures fits { IfSome result (λ _. AreWeights n weights.now) }
    ensures distances { IfSome result (λ table. table_distance table ≡ weight_between weights.now) }
    ensures none { IfNone result (AreWeights n weights.now → ⊥) }
{
    if n < 2 || n > TABLE_LIMIT {
        return None;
    }
    let nodes = n as usize;
    if weights.len() != nodes * (nodes - 1) / 2 || !are_small(weights) {
        return None;
    }
    Some(Table::Triangle(Triangle { n, weights }))
}

/// Like `tourkit_near_cities`, but for n cities, 2 to 5,000, with explicit weights of at most 4,000,000,000: the lower
/// triangle row by row without its diagonal, n (n - 1) / 2 numbers. For anything else, the status is 2.
pub fn tourkit_near_weights(
    alloc: Global,
    n: u32,
    weights: &[u32],
    k: u32,
    out: &mut [u32],
) -> Answer
    ensures given { result.status ≡ 0 → AreNearIn n (weight_between weights.now) k out.new }
    ensures room { result.status ≡ 4 → result ≡ with_status 4 (n * min k (n - 1)) }
    ensures status { IsArrayStatus (length out.old) result }
    ensures kept { 2 ≤ result.status → out.new ≡ out.old }
    ensures refused { result.status ≡ 2 → result ≡ with_status 2 0 }
    ensures justified { result.status ≡ 2 → IsListLength k → AreWeights n weights.now → ⊥ }
    ensures candidates { result.status ≢ 2 → IsListLength k }
    ensures weights { result.status ≢ 2 → AreWeights n weights.now }
{
    let Some(candidates) = ListLength::of(k) else {
        return Answer::ended(REFUSED, 0);
    };
    match table_of(n, weights) {
        Some(table) => near_in(alloc, &table, candidates, out),
        None => Answer::ended(REFUSED, 0),
    }
}

/// Like `tourkit_check_cities`, but for cities as in `tourkit_near_weights`.
pub fn tourkit_check_weights(alloc: Global, n: u32, weights: &[u32], cities: &[u32]) -> Answer
    ensures given { result.status ≤ 1 → HasVerdict n (weight_between weights.now) cities.now result }
    ensures known { result.status ≤ 3 }
    ensures refused { 2 ≤ result.status → result ≡ with_status result.status 0 }
    ensures justified { result.status ≡ 2 → AreWeights n weights.now → ⊥ }
    ensures weights { result.status ≢ 2 → AreWeights n weights.now }
{
    match table_of(n, weights) {
        Some(table) => verdict_in(alloc, &table, cities),
        None => Answer::ended(REFUSED, 0),
    }
}
