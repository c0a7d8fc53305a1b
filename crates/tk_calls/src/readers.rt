//! The readers of texts.
use crate::host::Host;
use crate::instances::{MAP, PARAMETERS, SOLUTION, SQUARE, TOUR};
use crate::{again, call};
use std::alloc::Global;
use tk_engines::{ParamFault, Params, read_params};
use tk_text::{
    FromRead, Problem, SolText, TextFault, read_placed_problem, read_problem, read_solution,
    read_tour,
};

/// Reads a problem.
fn read(alloc: Global, text: &[u8]) -> Result<Problem, TextFault> {
    read_problem(alloc, &mut FromRead::new(text))
}

/// A problem, whose size is printed.
pub fn problem_of(host: &Host<'_>, text: &[u8]) -> Option<Problem> {
    let problem = again!(host, "read_problem", read(host.alloc, text));
    if let Some(problem) = &problem {
        host.tell_number("read_problem", &problem.n, "nodes");
    }
    problem
}

/// Reads a problem with the places of its cities, and returns the number of its nodes.
fn read_placed(alloc: Global) -> Result<u32, TextFault> {
    let placed = read_placed_problem(alloc, &mut FromRead::new(MAP))?;
    Ok(placed.problem.n)
}

/// Reads a problem with the places of its cities.
fn call_for_places(host: &Host<'_>) {
    if let Some(nodes) = again!(host, "read_placed_problem", read_placed(host.alloc)) {
        host.tell_number("read_placed_problem", &nodes, "nodes");
    }
}

/// Reads a tour, and returns its cities.
fn read_cities(alloc: Global) -> Result<Vec<u32>, TextFault> {
    let tour = read_tour(alloc, &mut FromRead::new(TOUR))?;
    Ok(tour.cities)
}

/// Reads a tour.
fn call_for_tour(host: &Host<'_>) {
    call!(host, "read_tour", read_cities(host.alloc));
}

/// Reads a solution.
fn read_routes(alloc: Global) -> Result<SolText, TextFault> {
    read_solution(alloc, &mut FromRead::new(SOLUTION))
}

/// Prints the contents of a solution.
fn show_solution(host: &Host<'_>, solution: &SolText) {
    let SolText { routes, cost } = solution;
    println!(host; "read_solution: {routes:?}, cost {cost}");
}

/// Reads and prints a solution.
fn call_for_solution(host: &Host<'_>) {
    if let Some(solution) = again!(host, "read_solution", read_routes(host.alloc)) {
        show_solution(host, &solution);
    }
}

/// Reads parameters.
fn read_keys(alloc: Global) -> Result<Params, ParamFault> {
    read_params(alloc, &mut FromRead::new(PARAMETERS))
}

/// Prints some values of parameters.
fn show_params(host: &Host<'_>, params: &Params) {
    let (file, runs, ignored) = (
        params.problem_file(),
        params.search().runs,
        params.ignored(),
    );
    println!(host; "read_params: {file}, {runs} runs, {ignored:?} ignored");
}

/// Reads and prints parameters.
fn call_for_params(host: &Host<'_>) {
    if let Some(params) = again!(host, "read_params", read_keys(host.alloc)) {
        show_params(host, &params);
    }
}

/// Reads a text of each format.
pub fn make_calls(host: &Host<'_>) {
    let _ = problem_of(host, SQUARE);
    call_for_places(host);
    call_for_tour(host);
    call_for_solution(host);
    call_for_params(host);
}
