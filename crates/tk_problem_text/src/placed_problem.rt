//! Problems whose cities have places for pictures.
ghost use Rattle.std.specs.Prelude.{◌≡◌, IfSome, length};
ghost use Rattle.std.proofs.Props.{props};

use tk_problem::{Points, Problem};

/// The section of a problem text that places its cities.
#[derive(Clone, Copy, Debug, PartialEq, Eq)]
pub enum PlacesOrigin {
    /// DISPLAY_DATA_SECTION.
    DisplayData,
    /// NODE_COORD_SECTION.
    NodeCoordinates,
}

/// The places of the cities of a problem with explicit weights, which pictures show.
#[derive(Drop)]
pub struct GivenPlaces {
    pub origin: PlacesOrigin,
    pub points: Points,
}

/// A problem and, if its weights are explicit and its text places its cities, their places.
#[derive(Drop)]
pub struct PlacedProblem {
    pub problem: Problem,
    pub places: Option<GivenPlaces>,
    ghost fit: { IfSome places (λ given. length given.points ≡ problem.n) } by { Prim.hlevel props },
}
