//! Judges texts as solutions of a problem.
ghost use Rattle.std.specs.Prelude.{◌≡◌};
ghost use Rattle.tk_tour.specs.Tour.{IsTour};

use std::fs::File;
use tk_distance::Table;
use tk_lists::{read_solution, read_tour};
use tk_problem::Problem;
use tk_problem_text::read_problem;
use tk_routes::{Cvrp, RouteVerdict, check_routes};
use tk_tour::{Verdict, check, length};
use tk_words::{FromRead, Source, TextFault, TextKind};

/// What a text contains, as a solution of a problem.
#[derive(Clone, Copy)]
pub enum Judged {
    /// A tour of the problem's cities, of this length.
    Tour(i64),
    /// Valid routes, of this cost.
    Routes(i64),
    /// Something else.
    Neither,
    /// Unknown, since a file could not be opened, the problem could not be read, or memory ran out.
    Unknown,
}

impl Judged {
    /// The length of the tour, or the cost of the routes.
    pub fn length(self) -> Option<i64> {
        match self {
            Judged::Tour(length) => Some(length),
            Judged::Routes(cost) => Some(cost),
            Judged::Neither | Judged::Unknown => None,
        }
    }
}

/// Judges a text as a solution of the problem in a file.
pub fn judge<S: Source>(rt: &HostRuntime, problem: &str, claim: &mut S) -> Judged {
    let Ok(file) = File::open(rt, problem) else {
        return Judged::Unknown;
    };
    let Ok(problem) = read_problem(rt.alloc(), &mut FromRead::new(file)) else {
        return Judged::Unknown;
    };
    match Cvrp::of(&problem) {
        Some(cvrp) => judge_routes(rt, &cvrp, claim),
        None => judge_tour(rt, &problem, claim),
    }
}

/// Judges a text as routes of a CVRP.
fn judge_routes<S: Source>(rt: &HostRuntime, cvrp: &Cvrp<'_>, claim: &mut S) -> Judged {
    let solution = match read_solution(rt.alloc(), claim) {
        Ok(solution) => solution,
        Err(fault) => return unread(&fault),
    };
    match check_routes(rt.alloc(), cvrp, &solution) {
        Ok(RouteVerdict::Valid { cost, .. }) => Judged::Routes(cost),
        Ok(_) => Judged::Neither,
        Err(_) => Judged::Unknown,
    }
}

/// Judges a text as a tour of a TSP.
fn judge_tour<S: Source>(rt: &HostRuntime, problem: &Problem, claim: &mut S) -> Judged {
    let tour = match read_tour(rt.alloc(), claim) {
        Ok(tour) => tour,
        Err(fault) => return unread(&fault),
    };
    match check(rt.alloc(), problem.n, &tour.cities) {
        Ok(Verdict::Tour) => Judged::Tour(length_of(problem, &tour.cities)),
        Ok(_) => Judged::Neither,
        Err(_) => Judged::Unknown,
    }
}

/// The length of a tour of a problem's cities.
fn length_of(problem: &Problem, cities: &[u32]) -> i64
    requires tour { IsTour problem.now.n cities.now }
{
    length(&Table::of(problem), cities)
}

/// The verdict on a text that could not be read: unknown if memory ran out.
fn unread(fault: &TextFault) -> Judged {
    match fault.kind {
        TextKind::NoMemory => Judged::Unknown,
        _ => Judged::Neither,
    }
}
