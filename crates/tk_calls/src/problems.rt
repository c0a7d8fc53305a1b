//! The calls that need a problem.
use crate::host::Host;
use crate::instances::{ROUTING, SQUARE, TWO_GROUPS};
use crate::readers::problem_of;
use crate::{improving, lists, starts, turns};
use tk_text::Problem;

/// What is called with a problem.
enum Calls {
    NearLists,
    Tours,
    Lists,
    OneRoute,
    TwoRoutes,
    Descents,
}

/// The problems, and what is called with them.
static CALLS: [(&[u8], Calls); 6] = [
    (SQUARE, Calls::NearLists),
    (SQUARE, Calls::Tours),
    (ROUTING, Calls::Lists),
    (ROUTING, Calls::OneRoute),
    (TWO_GROUPS, Calls::TwoRoutes),
    (SQUARE, Calls::Descents),
];

/// Makes the calls with a problem.
fn call_with(host: &Host<'_>, problem: &Problem, calls: &Calls) {
    match calls {
        Calls::NearLists => lists::make_calls(host, problem),
        Calls::Tours => starts::make_tours(host, problem),
        Calls::Lists => starts::make_lists(host, problem),
        Calls::OneRoute => improving::improve_one(host, problem),
        Calls::TwoRoutes => improving::improve_two(host, problem),
        Calls::Descents => turns::make_descents(host, problem),
    }
}

/// Reads each problem, and makes the calls with it.
pub fn make_calls(host: &Host<'_>) {
    for (text, calls) in &CALLS {
        if let Some(problem) = problem_of(host, text) {
            call_with(host, &problem, calls);
        }
    }
}
