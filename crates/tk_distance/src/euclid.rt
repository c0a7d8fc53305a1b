//! EUC_2D distances of points in whole numbers of a unit, the most frequent distances.
ghost use Rattle.std.specs.Prelude.{◌≤◌, ◌*◌, All, length};
ghost use Rattle.tk_problem.specs.declared.limits.TheConstants.{CITY_LIMIT};
ghost use Rattle.tk_problem.specs.Places.{IsNearOrigin};
ghost use Rattle.tk_problem.specs.PlacesOf.{places_of};
ghost use Rattle.tk_problem.specs.declared.points.Places.TheVariants.{Whole};

use crate::exact::units::rounded_length;
use crate::exact::whole::{is_whole_nearer, whole_between};
use crate::metric::{BothAxes, Metric, Planar};
use crate::planes::bound_of;
use tk_problem::{PlaneKind, Point, Unit, WholePoint};

/// The EUC_2D distances among points in whole numbers of a unit. They are those of [`Planes`](crate::Planes), without a
/// dispatch on the type and on the representation of the coordinates for each distance.
#[derive(Clone, Copy)]
pub struct Euclid<'a> {
    pub unit: Unit,
    pub places: &'a [WholePoint],
    ghost near: { All IsNearOrigin (places_of (Whole unit places)) },
    ghost few: { length (places_of (Whole unit places)) ≤ CITY_LIMIT },
}

impl Metric for Euclid<'_> {
    ghost use Rattle.tk_problem.specs.declared.weights.PlaneKind.TheVariants.{Euc2d};
    ghost use Rattle.tk_distance.specs.PlaneOf.{city_place, city_distance};
    ghost use Rattle.tk_distance.specs.Laws.Planes.{distance_of-swap, distance_of-same, city_distance-limit};

    ghost size_of = { λ m. length (places_of (Whole m.unit m.places)) };

    ghost distance = { λ m. city_distance Euc2d (places_of (Whole m.unit m.places)) };

    ghost size_limit = { λ m. m.few };

    ghost symmetric = { λ m a b. distance_of-swap Euc2d (city_place (places_of (Whole m.unit m.places)) a)
        (city_place (places_of (Whole m.unit m.places)) b) };

    ghost diagonal = { λ m a. distance_of-same Euc2d (city_place (places_of (Whole m.unit m.places)) a) };

    ghost distance_limit = { λ m. city_distance-limit Euc2d (places_of (Whole m.unit m.places)) m.near };

    #[inline]
    fn size(&self) -> u32 {
        self.places.len() as u32
    }

    #[inline(always)]
    fn dist(&self, a: u32, b: u32) -> i64 {
        let (a, b) = (a as usize - 1, b as usize - 1);
        whole_between(PlaneKind::Euc2d, self.unit, self.places[a], self.places[b]) as i64
    }

    #[inline(always)]
    fn is_nearer(&self, a: u32, b: u32, limit: i64) -> bool {
        if limit <= 0 {
            return false; // the limits of most gain tests
        }
        let (a, b) = (a as usize - 1, b as usize - 1);
        is_whole_nearer(
            PlaneKind::Euc2d,
            self.unit,
            self.places[a],
            self.places[b],
            bound_of(limit),
        )
    }
}

impl Planar for Euclid<'_> {
    ghost use Rattle.tk_problem.specs.declared.weights.PlaneKind.TheVariants.{Euc2d};
    ghost use Rattle.tk_problem.specs.Units.{step_of};
    ghost use Rattle.tk_distance.specs.PlaneDistance.{distance_at};
    ghost use Rattle.tk_distance.specs.WholeCities.{whole_city_place, whole_gap-limit, whole_floor, whole_floor-rises};

    ghost place_of = { λ m c. whole_city_place m.places.now c };

    ghost floor = { λ m dx. distance_at Euc2d (dx * step_of m.unit) 0 };

    ghost wide = { λ m. whole_gap-limit m.places.now };

    ghost floor_rises = { λ m s t below _. whole_floor-rises m.unit s t below };

    ghost floor_bounds = { λ m. whole_floor m.unit m.places };

    /// The coordinates of a city, in whole numbers of the unit.
    #[inline(always)]
    fn place(&self, c: u32) -> Point {
        let place = self.places[c as usize - 1];
        Point {
            x: place.x as i64,
            y: place.y as i64,
        }
    }

    #[inline(always)]
    fn floor_x(&self, dx: u64) -> i64 {
        rounded_length(self.unit, dx) as i64
    }
}

impl BothAxes for Euclid<'_> {
    ghost use Rattle.tk_distance.specs.WholeCities.{whole_gap_y-limit, whole_floor_y};

    ghost tall = { λ m. whole_gap_y-limit m.places.now };

    ghost floor_bounds_y = { λ m. whole_floor_y m.unit m.places };
}
