//! The result of drawing.
use tk_routes::RouteVerdict;
use tk_tour::Verdict;

/// What was drawn: only the cities, or a tour or routes, with the verdict on them. If these have a fault, nothing is
/// drawn.
#[derive(Clone, Copy, Debug, PartialEq, Eq)]
pub enum Plotted {
    Cities,
    Tour(Verdict),
    Routes(RouteVerdict),
}
