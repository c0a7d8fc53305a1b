//! The contents of problems, and whether two problems have the same contents.

use tk_text::{Places, PlaneKind, Problem, Routing, Weights};

/// The contents of a problem.
#[derive(Drop)]
pub struct Reported<'a> {
    pub name: &'a [u8],
    pub n: u32,
    pub weights: ReportedWeights<'a>,
    /// A capacity, demands and a depot.
    pub routing: Option<(u32, &'a [u32], u32)>,
}

/// Points with a type of plane distances, or the weights below the diagonal.
#[derive(Drop)]
pub enum ReportedWeights<'a> {
    Points(PlaneKind, Places<'a>),
    Lower(&'a [u32]),
}

/// The contents of this problem.
pub fn reported_by(problem: &Problem) -> Reported<'_> {
    Reported {
        name: problem.name.as_slice(),
        n: problem.n,
        weights: reported_weights(&problem.weights),
        routing: reported_routing(&problem.routing),
    }
}

fn reported_weights(weights: &Weights) -> ReportedWeights<'_> {
    match weights {
        Weights::Points(kind, points) => ReportedWeights::Points(*kind, points.places()),
        Weights::Lower(lower) => ReportedWeights::Lower(lower.as_slice()),
    }
}

fn reported_routing(routing: &Option<Routing>) -> Option<(u32, &[u32], u32)> {
    match routing {
        Some(routing) => Some((routing.capacity, routing.demand.as_slice(), routing.depot)),
        None => None,
    }
}

/// Whether both have the same contents.
pub fn is_same_problem(left: &Reported<'_>, right: &Reported<'_>) -> bool {
    left.name == right.name
        && left.n == right.n
        && is_same_routing(&left.routing, &right.routing)
        && are_same_weights(&left.weights, &right.weights)
}

fn is_same_routing(left: &Option<(u32, &[u32], u32)>, right: &Option<(u32, &[u32], u32)>) -> bool {
    match left {
        None => right.is_none(),
        Some((capacity, demand, depot)) => match right {
            None => false,
            Some(right) => right.0 == *capacity && right.1 == *demand && right.2 == *depot,
        },
    }
}

fn are_same_weights(left: &ReportedWeights<'_>, right: &ReportedWeights<'_>) -> bool {
    match left {
        ReportedWeights::Points(left_kind, left) => match right {
            ReportedWeights::Points(right_kind, right) => {
                left_kind == right_kind && are_same_places(*left, *right)
            }
            ReportedWeights::Lower(_) => false,
        },
        ReportedWeights::Lower(left) => match right {
            ReportedWeights::Points(_, _) => false,
            ReportedWeights::Lower(right) => *left == *right,
        },
    }
}

fn are_same_places(left: Places<'_>, right: Places<'_>) -> bool {
    if left.len() != right.len() {
        return false;
    }
    for index in 0..left.len() {
        if left.get(index) != right.get(index) {
            return false;
        }
    }
    true
}
