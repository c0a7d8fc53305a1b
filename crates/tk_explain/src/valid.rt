//! Summaries of files without a fault.
use tk_diagnosis::Sentence;
use tk_lists::{SolText, TourText};
use tk_params::Params;
use tk_problem::{Problem, Weights};

/// The contents of a file without a fault.
#[derive(Drop)]
pub enum Valid {
    Problem(Problem),
    Tour(TourText),
    Solution(SolText),
    Parameters(Params),
}

impl Valid {
    /// A summary of the contents, as a part of a sentence.
    pub fn sentence(&self) -> Sentence {
        match self {
            Valid::Problem(problem) => of_problem(problem),
            Valid::Tour(tour) => {
                Sentence::of("a tour file of {} cities").number(tour.cities.len() as u64)
            }
            Valid::Solution(solution) => of_solution(solution),
            Valid::Parameters(params) => {
                Sentence::of("a parameter file for the problem {}").word(
                    params.problem_file().as_bytes(),
                )
            }
        }
    }
}

/// A summary of a problem.
fn of_problem(problem: &Problem) -> Sentence {
    let text = match problem.routing {
        None => "a TSP of {} cities named {}, with {} distances",
        Some(_) => "a CVRP of {} nodes named {}, with {} distances and capacity {}",
    };
    let sentence = Sentence::of(text)
        .number(u64::from(problem.n))
        .word(&problem.name)
        .text(distances_of(&problem.weights));
    match &problem.routing {
        None => sentence,
        Some(routing) => sentence.number(u64::from(routing.capacity)),
    }
}

/// A summary of a solution.
fn of_solution(solution: &SolText) -> Sentence {
    Sentence::of("a solution file of {} routes with {} customers, cost {}")
        .number(solution.routes.len() as u64)
        .number(customers_of(solution) as u64)
        .integer(solution.cost)
}

/// A word for the distances that these weights give.
fn distances_of(weights: &Weights) -> &'static str {
    match weights {
        Weights::Points(kind, _) => kind.word(),
        Weights::Lower(_) => "explicit",
    }
}

/// The number of customers on the routes of a solution.
fn customers_of(solution: &SolText) -> usize {
    let mut customers: usize = 0;
    for route in &solution.routes {
        customers = customers.saturating_add(route.len());
    }
    customers
}
