//! Distances, near lists, tours and checks as arrays of numbers.
ghost use Rattle.std.specs.Prelude.{◌≡◌, ◌≢◌, ◌≤◌, ◌*◌, ◌-◌, min, length};
ghost use Rattle.tk_for_c.specs.Answers.{IsFaulty};
ghost use Rattle.tk_for_c.specs.Arrays.{AreDistancesOf, AreNearIn, AreNearOf, HasVerdict, IsCountOf, IsTourCheckOf};
ghost use Rattle.tk_for_c.specs.Ends.{IsArrayEnd};
ghost use Rattle.tk_for_c.specs.Outcomes.{with_status};
ghost use Rattle.tk_for_c.specs.Points.{ArePointsNear, CanBePlaces, IsPointsCheck};
ghost use Rattle.tk_for_c.specs.Tours.{IsNearestRefused, IsNearestTourOf};
ghost use Rattle.tk_for_c.specs.Weights.{AreWeights};
ghost use Rattle.tk_metric.specs.Weights.{weight_between};
ghost use Rattle.tk_near.specs.ListLengths.{IsListLength};
ghost use Rattle.tk_text.specs.Problem.{problem_texts};

use std::alloc::Global;
use tk_for_c::Answer;

/// Writes the nearest-neighbour tour of a problem from a city.
#[unsafe(no_mangle)]
pub extern "C" fn tourkit_nearest_tour(
    alloc: Global,
    problem: &[u8],
    start: u32,
    out: &mut [u32],
    answer: &mut Answer,
)
    ensures { IsArrayEnd (IsNearestTourOf start problem.now out.new) (IsCountOf (λ p. p.n) problem.now)
        (IsNearestRefused start problem.now) out.old out.new answer.new }
{
    *answer = tk_for_c::tourkit_nearest_tour(alloc, problem, start, out);
}

/// Writes the distances of all pairs of cities of a problem.
#[unsafe(no_mangle)]
pub extern "C" fn tourkit_distances(
    alloc: Global,
    problem: &[u8],
    out: &mut [i64],
    answer: &mut Answer,
)
    ensures { IsArrayEnd (AreDistancesOf problem.now out.new) (IsCountOf (λ p. p.n * p.n) problem.now)
        (IsFaulty problem_texts 1 problem.now) out.old out.new answer.new }
{
    *answer = tk_for_c::tourkit_distances(alloc, problem, out);
}

/// Writes the near lists of a problem.
#[unsafe(no_mangle)]
pub extern "C" fn tourkit_near_cities(
    alloc: Global,
    problem: &[u8],
    k: u32,
    out: &mut [u32],
    answer: &mut Answer,
)
    ensures end { IsArrayEnd (AreNearOf k problem.now out.new) (IsCountOf (λ p. p.n * min k (p.n - 1)) problem.now)
        (λ a. IsListLength k → IsFaulty problem_texts 1 problem.now a) out.old out.new answer.new }
    ensures outside { (IsListLength k → ⊥) → answer.new ≡ with_status 2 0 }
{
    *answer = tk_for_c::tourkit_near_cities(alloc, problem, k, out);
}

/// Checks a list as a tour of a problem.
#[unsafe(no_mangle)]
pub extern "C" fn tourkit_check_cities(
    alloc: Global,
    problem: &[u8],
    cities: &[u32],
    answer: &mut Answer,
)
    ensures given { answer.new.status ≤ 1 → IsTourCheckOf problem.now cities.now answer.new }
    ensures known { answer.new.status ≤ 3 }
    ensures problem { answer.new.status ≡ 2 → IsFaulty problem_texts 1 problem.now answer.new }
    ensures unwritten { answer.new.needed ≡ 0 }
    ensures memory { answer.new.status ≡ 3 → answer.new ≡ with_status 3 0 }
{
    *answer = tk_for_c::tourkit_check_cities(alloc, problem, cities);
}

/// Writes the near lists of cities with these coordinates.
#[unsafe(no_mangle)]
pub extern "C" fn tourkit_near_points(
    alloc: Global,
    kind: u32,
    xs: &[i64],
    ys: &[i64],
    k: u32,
    out: &mut [u32],
    answer: &mut Answer,
)
    ensures end { IsArrayEnd (ArePointsNear kind xs.now ys.now k out.new)
        (λ a. a ≡ with_status 4 (length xs.now * min k (length xs.now - 1))) (λ a. a ≡ with_status 2 0)
        out.old out.new answer.new }
    ensures justified { answer.new.status ≡ 2 → IsListLength k → kind ≤ 4 → CanBePlaces xs.now ys.now → ⊥ }
    ensures candidates { answer.new.status ≢ 2 → IsListLength k }
    ensures kinds { answer.new.status ≢ 2 → kind ≤ 4 }
    ensures places { answer.new.status ≢ 2 → answer.new.status ≢ 3 → CanBePlaces xs.now ys.now }
{
    *answer = tk_for_c::tourkit_near_points(alloc, kind, xs, ys, k, out);
}

/// Checks a list as a tour of cities with these coordinates.
#[unsafe(no_mangle)]
pub extern "C" fn tourkit_check_points(
    alloc: Global,
    kind: u32,
    xs: &[i64],
    ys: &[i64],
    cities: &[u32],
    answer: &mut Answer,
)
    ensures given { answer.new.status ≤ 1 → IsPointsCheck kind xs.now ys.now cities.now answer.new }
    ensures known { answer.new.status ≤ 3 }
    ensures refused { 2 ≤ answer.new.status → answer.new ≡ with_status answer.new.status 0 }
    ensures justified { answer.new.status ≡ 2 → kind ≤ 4 → CanBePlaces xs.now ys.now → ⊥ }
    ensures kinds { answer.new.status ≢ 2 → kind ≤ 4 }
    ensures places { answer.new.status ≢ 2 → answer.new.status ≢ 3 → CanBePlaces xs.now ys.now }
{
    *answer = tk_for_c::tourkit_check_points(alloc, kind, xs, ys, cities);
}

/// Writes the near lists of cities with these explicit weights.
#[unsafe(no_mangle)]
pub extern "C" fn tourkit_near_weights(
    alloc: Global,
    n: u32,
    weights: &[u32],
    k: u32,
    out: &mut [u32],
    answer: &mut Answer,
)
    ensures end { IsArrayEnd (AreNearIn n (weight_between weights.now) k out.new)
        (λ a. a ≡ with_status 4 (n * min k (n - 1))) (λ a. a ≡ with_status 2 0) out.old out.new answer.new }
    ensures justified { answer.new.status ≡ 2 → IsListLength k → AreWeights n weights.now → ⊥ }
    ensures candidates { answer.new.status ≢ 2 → IsListLength k }
    ensures weights { answer.new.status ≢ 2 → AreWeights n weights.now }
{
    *answer = tk_for_c::tourkit_near_weights(alloc, n, weights, k, out);
}

/// Checks a list as a tour of cities with these explicit weights.
#[unsafe(no_mangle)]
pub extern "C" fn tourkit_check_weights(
    alloc: Global,
    n: u32,
    weights: &[u32],
    cities: &[u32],
    answer: &mut Answer,
)
    ensures given { answer.new.status ≤ 1 → HasVerdict n (weight_between weights.now) cities.now answer.new }
    ensures known { answer.new.status ≤ 3 }
    ensures refused { 2 ≤ answer.new.status → answer.new ≡ with_status answer.new.status 0 }
    ensures justified { answer.new.status ≡ 2 → AreWeights n weights.now → ⊥ }
    ensures weights { answer.new.status ≢ 2 → AreWeights n weights.now }
{
    *answer = tk_for_c::tourkit_check_weights(alloc, n, weights, cities);
}
