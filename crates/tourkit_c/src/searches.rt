//! Searches for texts.
ghost use Rattle.std.specs.Prelude.{◌≡◌, ◌≢◌, ◌≤◌};
ghost use Rattle.tk_for_c.specs.Ends.{IsTextEnd};
ghost use Rattle.tk_for_c.specs.Outcomes.{with_status};
ghost use Rattle.tk_for_c.specs.Searches.{HoldFiles, IsInRange};
ghost use Rattle.tk_for_c.specs.Solved.{AreParamsRefused, IsOptionsRefused, IsSearchedOf, IsSolveRefused, IsSolvedOf};
ghost use Rattle.tk_for_c.specs.SolvedRoutes.{AreSolvedOf, IsRoutesRefused, as_search};

use std::alloc::Global;
use tk_for_c::{Answer, RouteOptions, SearchOptions};

/// Searches for a short tour or for short routes, as parameters specify.
#[unsafe(no_mangle)]
pub extern "C" fn tourkit_solve(
    alloc: Global,
    parameters: &[u8],
    problem: &[u8],
    initial: &[u8],
    out: &mut [u8],
    file: &mut [u8],
    answer: &mut Answer,
)
    ensures end { IsTextEnd
        (HoldFiles (IsSolvedOf parameters.now problem.now initial.now) out.old out.new file.old file.new)
        (λ a. (a.text ≡ 1 → AreParamsRefused parameters.now a)
        × (a.text ≢ 1 → IsSolveRefused parameters.now problem.now initial.now a))
        out.old out.new answer.new }
    ensures kept { 2 ≤ answer.new.status → file.new ≡ file.old }
{
    *answer = tk_for_c::tourkit_solve(alloc, parameters, problem, initial, out, file);
}

/// Searches for a short tour, or for routes that are improved each by itself, with options.
#[unsafe(no_mangle)]
pub extern "C" fn tourkit_search(
    alloc: Global,
    problem: &[u8],
    initial: &[u8],
    options: &SearchOptions,
    out: &mut [u8],
    file: &mut [u8],
    answer: &mut Answer,
)
    ensures end { IsTextEnd
        (HoldFiles (IsSearchedOf options.now problem.now initial.now) out.old out.new file.old file.new)
        (λ a. IsInRange options.now → IsOptionsRefused options.now problem.now initial.now a)
        out.old out.new answer.new }
    ensures outside { (IsInRange options.now → ⊥) → answer.new ≡ with_status 2 0 }
    ensures kept { 2 ≤ answer.new.status → file.new ≡ file.old }
{
    *answer = tk_for_c::tourkit_search(alloc, problem, initial, options, out, file);
}

/// Searches between the routes of a CVRP.
#[unsafe(no_mangle)]
pub extern "C" fn tourkit_solve_routes(
    alloc: Global,
    problem: &[u8],
    initial: &[u8],
    options: &RouteOptions,
    out: &mut [u8],
    file: &mut [u8],
    answer: &mut Answer,
)
    ensures end { IsTextEnd
        (HoldFiles (AreSolvedOf options.now problem.now initial.now) out.old out.new file.old file.new)
        (λ a. IsInRange (as_search options.now) → IsRoutesRefused options.now problem.now initial.now a)
        out.old out.new answer.new }
    ensures outside { (IsInRange (as_search options.now) → ⊥) → answer.new ≡ with_status 2 0 }
    ensures kept { 2 ≤ answer.new.status → file.new ≡ file.old }
{
    *answer = tk_for_c::tourkit_solve_routes(alloc, problem, initial, options, out, file);
}
