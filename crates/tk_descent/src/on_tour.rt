//! Access to a tour, with the facts that a look needs.
ghost use Rattle.std.specs.Prelude.{◌≡◌, ◌≤◌, All, length};
ghost use Rattle.tk_problem.specs.declared.limits.TheConstants.{CITY_LIMIT};
ghost use Rattle.tk_distance.specs.Cities.{IsCity};
ghost use Rattle.tk_tour.specs.Neighbourhood.{IsNeighbourhood};
ghost use Rattle.tk_tour.specs.Tour.{next_city, prev_city};

use tk_tour::{Neighbourhood, TourStore};

/// The number of cities of the tour.
#[inline]
pub(crate) fn size<S: TourStore>(tour: &S) -> u32
    ensures count { result ≡ length (S.cities tour.now) }
    ensures limits { (2 ≤ result) × (result ≤ CITY_LIMIT) }
{
    tour.size()
}

/// The city after c.
#[inline]
pub(crate) fn next<S: TourStore>(tour: &S, c: u32) -> u32
    requires city { IsCity (length (S.cities tour.now)) c }
    ensures value { result ≡ next_city (S.cities tour.now) c }
    ensures city { IsCity (length (S.cities tour.now)) result }
{
    tour.next(c)
}

/// The city before c.
#[inline]
pub(crate) fn prev<S: TourStore>(tour: &S, c: u32) -> u32
    requires city { IsCity (length (S.cities tour.now)) c }
    ensures value { result ≡ prev_city (S.cities tour.now) c }
    ensures city { IsCity (length (S.cities tour.now)) result }
{
    tour.prev(c)
}

/// The three cities after c, and the three before it.
#[inline]
pub(crate) fn neighbourhood<S: TourStore>(tour: &S, c: u32) -> Neighbourhood
    requires city { IsCity (length (S.cities tour.now)) c }
    ensures neighbourhood { IsNeighbourhood (S.cities tour.now) c result }
    ensures after { All (IsCity (length (S.cities tour.now))) result.after }
    ensures before { All (IsCity (length (S.cities tour.now))) result.before }
{
    tour.neighbourhood(c)
}

/// The cities after and before c.
#[inline]
pub(crate) fn neighbours<S: TourStore>(tour: &S, c: u32) -> (u32, u32)
    requires city { IsCity (length (S.cities tour.now)) c }
    ensures after { result.0 ≡ next_city (S.cities tour.now) c }
    ensures before { result.1 ≡ prev_city (S.cities tour.now) c }
    ensures cities { IsCity (length (S.cities tour.now)) result.0 × IsCity (length (S.cities tour.now)) result.1 }
{
    tour.neighbours(c)
}
