//! The two sides of a cut at two edges, of which a flip reverses the shorter one.
ghost use Rattle.std.specs.Prelude.{◌≡◌, ◌≤◌, ◌<◌, ◌*◌, ℕ, List, length, slice_index};
ghost use Rattle.tk_problem.specs.declared.limits.TheConstants.{CITY_LIMIT};
ghost use Rattle.tk_distance.specs.Cities.{IsCity};
ghost use Rattle.tk_tour.specs.Moves.{AreForward, BeginsInside, CanFlip, TurnsShorterSide};
ghost use Rattle.tk_tour.specs.Places.{PathLength};
ghost use Rattle.tk_tour.specs.Tour.{IsSizedTour, next_city};

/// A tour that knows the position of each city; its model is the list of its cities.
pub trait Positions {
    /// The cities in their order.
    ghost cities: { Self → List ℕ };

    /// The number of cities.
    fn city_count(&self) -> u32
        ensures { result ≡ length (cities self.now) };

    /// The city after c.
    fn city_after(&self, c: u32) -> u32
        requires { IsCity (length (cities self.now)) c }
        ensures { result ≡ next_city (cities self.now) c };

    /// The position of city c, counted from 0.
    fn place_of(&self, c: u32) -> u32
        requires { IsCity (length (cities self.now)) c }
        ensures within { result < length (cities self.now) }
        ensures city { slice_index (cities self.now) result ≡ c };

    ghost is_tour: { (s : Self) → IsSizedTour (cities s) };
}

// The number of positions from one up to another, both included, on a cycle of n positions.
#[inline]
fn path_length(n: u32, from: u32, to: u32) -> u32
    requires size { n ≤ CITY_LIMIT }
    requires from_in { from < n }
    requires to_in { to < n }
    ensures length { PathLength n result from to }
    ensures fits { result ≤ n }
{
    if from <= to {
        to - from + 1
    } else {
        to + n - from + 1
    }
}

// Like `shorter_side`, if b comes after a and d after c: the positions from b to c, or those from d to a if there are
// fewer.
fn side_ahead<S: Positions>(tour: &S, a: u32, b: u32, c: u32, d: u32) -> (u32, u32)
    requires { AreForward (S.cities tour.now) a b c d }
    ensures side { TurnsShorterSide (S.cities tour.now) result.0 result.1 a b c d }
    ensures inner { 2 * result.1 ≡ length (S.cities tour.now) → slice_index (S.cities tour.now) result.0 ≡ b }
{
    let n = tour.city_count();
    let start = tour.place_of(b);
    let inner = path_length(n, start, tour.place_of(c));
    if inner <= n - inner {
        return (start, inner);
    }
    (tour.place_of(d), n - inner)
}

/// The positions that a flip of the edges a-b and c-d reverses: the first, counted from 0, and their number. They are
/// those of the shorter side, or of the inner side if both are equally long, and may continue from the end of the list
/// to its beginning. The inner side is the path from b to c without a.
pub fn shorter_side<S: Positions>(tour: &S, a: u32, b: u32, c: u32, d: u32) -> (u32, u32)
    requires { CanFlip (S.cities tour.now) a b c d }
    ensures side { TurnsShorterSide (S.cities tour.now) result.0 result.1 a b c d }
    ensures inner { 2 * result.1 ≡ length (S.cities tour.now) → BeginsInside (S.cities tour.now) result.0 a b c }
{
    if tour.city_after(a) == b && tour.city_after(c) == d {
        side_ahead(tour, a, b, c, d)
    } else {
        side_ahead(tour, d, c, b, a)
    }
}
