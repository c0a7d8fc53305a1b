//! Distances among some of the cities, from copies of their points.
ghost use Rattle.std.specs.Prelude.{◌≡◌, ◌≤◌, ◌*◌, ℕ, All, IfOk, length, map};
ghost use Rattle.tk_problem.specs.declared.limits.TheConstants.{CITY_LIMIT};
ghost use Rattle.tk_problem.specs.PlacesOf.{places_of};
ghost use Rattle.tk_problem.specs.Units.{place_in};
ghost use Rattle.tk_problem.specs.declared.points.Places.TheVariants.{Whole};
ghost use Rattle.tk_distance.specs.Cities.{IsCity, city_at};
ghost use Rattle.tk_distance.specs.PlaneOf.{city_place};

use std::alloc::{AllocError, Global};
use tk_distance::{BothAxes, Euclid, Metric, Planar};
use tk_problem::{Point, WholePoint};

/// The distances of [`Sub`](tk_distance::Sub) among some cities of a plane, numbered from 1 in the order of a list,
/// from copies of their points, which are read without the list.
#[derive(Clone, Copy)]
pub(crate) struct Copied<'a> {
    pub(crate) plane: Euclid<'a>,
    pub(crate) cities: &'a [u32],
    copy: Euclid<'a>,
    ghost few: { length cities.now ≤ CITY_LIMIT },
    ghost known: { All (IsCity (length plane.places.now)) cities.now },
    ghost size: { length copy.places.now ≡ length cities.now },
    ghost same: { (c : ℕ) → IsCity (length cities.now) c
        → city_place (places_of (Whole copy.unit copy.places)) c
        ≡ city_place (places_of (Whole plane.unit plane.places)) (city_at cities.now c) },
}

/// The points of some cities of a plane.
///
/// # Errors
/// `AllocError` if memory runs out.
pub(crate) fn copied_points(
    alloc: Global,
    plane: &Euclid<'_>,
    cities: &[u32],
) -> Result<Vec<WholePoint>, AllocError>
    requires known { All (IsCity (length plane.now.places.now)) cities.now }
    ensures { IfOk result (λ points. map (place_in plane.now.unit) points.items
        ≡ map (city_place (places_of (Whole plane.now.unit plane.now.places))) cities.now) }
{
    let mut points = Vec::with_capacity(alloc, cities.len())?;
    for city in cities {
        points.push(plane.places[*city as usize - 1])?;
    }
    Ok(points)
}

impl<'a> Copied<'a> {
    /// The distances among at most 100,000 cities of a plane, given their points.
    pub(crate) fn new(plane: Euclid<'a>, cities: &'a [u32], points: &'a [WholePoint]) -> Copied<'a>
        requires few { length cities.now ≤ CITY_LIMIT }
        requires known { All (IsCity (length plane.places.now)) cities.now }
        requires points { map (place_in plane.unit) points.now
            ≡ map (city_place (places_of (Whole plane.unit plane.places))) cities.now }
        ensures plane { result.plane ≡ plane.entry }
        ensures cities { result.cities.now ≡ cities.now }
    {
        let copy = Euclid {
            unit: plane.unit,
            places: points,
        };
        Copied {
            plane,
            cities,
            copy,
        }
    }
}

impl Metric for Copied<'_> {
    ghost use Rattle.std.specs.Prelude.{length};
    ghost use Rattle.tk_problem.specs.PlacesOf.{places_of};
    ghost use Rattle.tk_problem.specs.declared.points.Places.TheVariants.{Whole};
    ghost use Rattle.tk_problem.specs.declared.weights.PlaneKind.TheVariants.{Euc2d};
    ghost use Rattle.tk_distance.specs.Cities.{city_at};
    ghost use Rattle.tk_distance.specs.PlaneOf.{city_place, city_distance};
    ghost use Rattle.tk_distance.specs.Laws.Planes.{distance_of-swap, distance_of-same, city_distance-limit};

    ghost size_of = { λ m. length m.cities.now };

    ghost distance = { λ m a b. city_distance Euc2d (places_of (Whole m.plane.unit m.plane.places))
        (city_at m.cities.now a) (city_at m.cities.now b) };

    ghost size_limit = { λ m. m.few };

    ghost symmetric = { λ m a b. distance_of-swap Euc2d
        (city_place (places_of (Whole m.plane.unit m.plane.places)) (city_at m.cities.now a))
        (city_place (places_of (Whole m.plane.unit m.plane.places)) (city_at m.cities.now b)) };

    ghost diagonal = { λ m a. distance_of-same Euc2d
        (city_place (places_of (Whole m.plane.unit m.plane.places)) (city_at m.cities.now a)) };

    ghost distance_limit = { λ m a b. city_distance-limit Euc2d
        (places_of (Whole m.plane.unit m.plane.places)) m.plane.near
        (city_at m.cities.now a) (city_at m.cities.now b) };

    #[inline]
    fn size(&self) -> u32 {
        self.cities.len() as u32
    }

    #[inline(always)]
    fn dist(&self, a: u32, b: u32) -> i64 {
        self.copy.dist(a, b)
    }

    #[inline(always)]
    fn is_nearer(&self, a: u32, b: u32, limit: i64) -> bool {
        self.copy.is_nearer(a, b, limit)
    }
}

impl Planar for Copied<'_> {
    ghost use Rattle.tk_problem.specs.declared.weights.PlaneKind.TheVariants.{Euc2d};
    ghost use Rattle.tk_problem.specs.Units.{step_of};
    ghost use Rattle.tk_distance.specs.Cities.{city_at};
    ghost use Rattle.tk_distance.specs.PlaneDistance.{distance_at};
    ghost use Rattle.tk_distance.specs.WholeCities.{whole_city_place, whole_gap-limit, whole_floor, whole_floor-rises};

    ghost place_of = { λ m c. whole_city_place m.plane.places.now (city_at m.cities.now c) };

    ghost floor = { λ m dx. distance_at Euc2d (dx * step_of m.plane.unit) 0 };

    ghost wide = { λ m a b. whole_gap-limit m.plane.places.now (city_at m.cities.now a) (city_at m.cities.now b) };

    ghost floor_rises = { λ m s t below _. whole_floor-rises m.plane.unit s t below };

    ghost floor_bounds = { λ m a b. whole_floor m.plane.unit m.plane.places
        (city_at m.cities.now a) (city_at m.cities.now b) };

    #[inline]
    fn place(&self, c: u32) -> Point {
        self.plane.place(self.cities[c as usize - 1])
    }

    #[inline(always)]
    fn floor_x(&self, dx: u64) -> i64 {
        self.plane.floor_x(dx)
    }
}

impl BothAxes for Copied<'_> {
    ghost use Rattle.tk_distance.specs.Cities.{city_at};
    ghost use Rattle.tk_distance.specs.WholeCities.{whole_gap_y-limit, whole_floor_y};

    ghost tall = { λ m a b. whole_gap_y-limit m.plane.places.now
        (city_at m.cities.now a) (city_at m.cities.now b) };

    ghost floor_bounds_y = { λ m a b. whole_floor_y m.plane.unit m.plane.places
        (city_at m.cities.now a) (city_at m.cities.now b) };
}
