//! Distances in the plane.
ghost use Rattle.std.specs.Prelude.{◌≡◌, ℕ, ◌≤◌, ◌<◌, ◌<ℤ◌, ◌↔◌, ◌-◌, All, length, pos};
ghost use Rattle.tk_problem.specs.declared.limits.TheConstants.{CITY_LIMIT, DISTANCE_LIMIT};
ghost use Rattle.tk_problem.specs.Places.{IsNearOrigin};
ghost use Rattle.tk_problem.specs.PlacesOf.{places_of};

use crate::euclid::Euclid;
use crate::exact::fine::{fine_between, floor_distance, is_fine_nearer};
use crate::exact::whole::{is_whole_nearer, whole_between};
use crate::metric::{BothAxes, Metric, Planar};
use tk_problem::{Places, PlaneKind, Point, Points};

/// The distances of a plane type among the points of a list, whose cities are numbered from 1 in its order. They are
/// computed in exact arithmetic (G. Reinelt, "TSPLIB 95", section 2, "The distance functions").
#[derive(Clone, Copy)]
pub struct Planes<'a> {
    pub kind: PlaneKind,
    pub places: Places<'a>,
    ghost near: { All IsNearOrigin (places_of places) },
    ghost few: { length (places_of places) ≤ CITY_LIMIT },
}

impl<'a> Planes<'a> {
    ghost use Rattle.std.specs.Prelude.{IfSome, None};
    ghost use Rattle.tk_problem.specs.declared.points.Places.TheVariants.{Whole};
    ghost use Rattle.tk_problem.specs.declared.weights.PlaneKind.TheVariants.{Euc2d};
    ghost use Rattle.tk_distance.specs.PlaneOf.{AreWhole};

    /// The distances among at most 100,000 points.
    pub fn new(kind: PlaneKind, points: &'a Points) -> Planes<'a>
        requires few { length points.now ≤ CITY_LIMIT }
        ensures kind { result.kind ≡ kind }
        ensures places { places_of result.places ≡ points.now }
    {
        Planes {
            kind,
            places: points.places(),
        }
    }

    /// The same distances as an [`Euclid`], which need not dispatch on the type and the representation; `None` unless
    /// they are EUC_2D and all coordinates are stored as multiples of a unit.
    pub fn euclid(&self) -> Option<Euclid<'a>>
        ensures some { IfSome result (λ e. (self.now.kind ≡ Euc2d) × (self.now.places ≡ Whole e.unit e.places)) }
        ensures none { result ≡ None → self.now.kind ≡ Euc2d → AreWhole self.now.places → ⊥ }
    {
        match (self.kind, self.places) {
            (PlaneKind::Euc2d, Places::Whole(unit, places)) => Some(Euclid { unit, places }),
            _ => None,
        }
    }
}

impl Metric for Planes<'_> {
    ghost use Rattle.std.specs.Int.RustNames.{unsigned_abs};
    ghost use Rattle.tk_distance.specs.Cities.{IsCity};
    ghost use Rattle.tk_distance.specs.PlaneOf.{city_place, city_distance, IsCityDistance};
    ghost use Rattle.tk_distance.specs.Laws.Planes.{distance_of-swap, distance_of-same, city_distance-limit};

    ghost size_of = { λ m. length (places_of m.places) };

    ghost distance = { λ m. city_distance m.kind (places_of m.places) };

    ghost size_limit = { λ m. m.few };

    ghost symmetric = { λ m a b. distance_of-swap m.kind (city_place (places_of m.places) a)
        (city_place (places_of m.places) b) };

    ghost diagonal = { λ m a. distance_of-same m.kind (city_place (places_of m.places) a) };

    ghost distance_limit = { λ m. city_distance-limit m.kind (places_of m.places) m.near };

    #[inline]
    fn size(&self) -> u32 {
        self.places.len() as u32
    }

    #[inline]
    fn dist(&self, a: u32, b: u32) -> i64
        requires a { IsCity (length (places_of self.now.places)) a }
        requires b { IsCity (length (places_of self.now.places)) b }
        ensures value { result ≡ pos (city_distance self.now.kind (places_of self.now.places) a b) }
        ensures exact { IsCityDistance self.now.kind (places_of self.now.places) a b (unsigned_abs result) }
    {
        let (a, b) = (a as usize - 1, b as usize - 1);
        match self.places {
            Places::Whole(unit, places) => whole_between(
                self.kind, unit, places[a], places[b],
            ) as i64,
            Places::Fine(places) => fine_between(self.kind, places[a], places[b]) as i64,
        }
    }

    #[inline]
    fn is_nearer(&self, a: u32, b: u32, limit: i64) -> bool {
        if limit <= 0 {
            return false; // the limits of most gain tests
        }
        let (a, b) = (a as usize - 1, b as usize - 1);
        let bound = bound_of(limit);
        match self.places {
            Places::Whole(unit, places) => {
                is_whole_nearer(self.kind, unit, places[a], places[b], bound)
            }
            Places::Fine(places) => is_fine_nearer(self.kind, places[a], places[b], bound),
        }
    }
}

/// A bound that is greater than the same distances as a limit, from 0 to 4·10^9 + 1.
#[inline]
pub fn bound_of(limit: i64) -> u64
    ensures value { (d : ℕ) → d ≤ DISTANCE_LIMIT → ((d < result) ↔ (pos d <ℤ limit)) }
    ensures bound { result ≤ 4000000001 }
{
    limit.max(0).min(4_000_000_001) as u64
}

impl Planar for Planes<'_> {
    ghost use Rattle.tk_distance.specs.PlaneDistance.{distance_at};
    ghost use Rattle.tk_distance.specs.PlaneOf.{city_place};
    ghost use Rattle.tk_distance.specs.Laws.Planes.{city_gap-limit, floor-rises, floor-bounds};

    ghost place_of = { λ m c. city_place (places_of m.places) c };

    ghost floor = { λ m dx. distance_at m.kind dx 0 };

    ghost wide = { λ m. city_gap-limit (places_of m.places) m.near };

    ghost floor_rises = { λ m s t below _. floor-rises m.kind s t below };

    ghost floor_bounds = { λ m a b. floor-bounds m.kind (city_place (places_of m.places) a)
        (city_place (places_of m.places) b) };

    #[inline]
    fn place(&self, c: u32) -> Point {
        self.places.get(c as usize - 1)
    }

    #[inline]
    fn floor_x(&self, dx: u64) -> i64 {
        floor_distance(self.kind, dx) as i64
    }
}

impl BothAxes for Planes<'_> {
    ghost use Rattle.tk_distance.specs.PlaneOf.{city_place};
    ghost use Rattle.tk_distance.specs.Laws.Planes.{city_gap_y-limit, floor-bounds_y};

    ghost tall = { λ m. city_gap_y-limit (places_of m.places) m.near };

    ghost floor_bounds_y = { λ m a b. floor-bounds_y m.kind (city_place (places_of m.places) a)
        (city_place (places_of m.places) b) };
}
