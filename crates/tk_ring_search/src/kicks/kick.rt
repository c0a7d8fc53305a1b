//! A kick of a ring: a double bridge of three short parts.
ghost use Rattle.std.specs.Prelude.{◌≡◌, ◌≤◌, ◌+◌, ◌-◌, All, length};
ghost use Rattle.tk_distance.specs.Cities.{IsCity, city_at};
ghost use Rattle.tk_tour.specs.Counters.{saturated};
ghost use Rattle.tk_tour.specs.Reversal.{begun_at};
ghost use Rattle.tk_tour.specs.Tour.{SameCycle};
ghost use Rattle.tk_rings.specs.Capacities.{IsFitting};
ghost use Rattle.tk_rings.specs.LoadedRings.{cities_in, demands_in};
ghost use Rattle.tk_search.specs.Cuts.{kick_swaps};
ghost use Rattle.tk_ring_search.specs.Kicks.{IsKick, drawn_kick, ends_of, is_within, kicked};

use rand::RngExt;
use rand_core::Rng;
use tk_rings::{Capacity, LoadedRing};
use tk_search::Cuts;
use tk_tour::{TourStore, UndoStore};

/// The maximum number of elements in each of the three parts that a kick moves.
const PART: u32 = 10;

/// A double bridge of a ring of n elements, read from a position on: the three cuts leave three parts of at most 10
/// elements, and the rest.
#[derive(Clone, Copy, PartialEq, Eq)]
pub struct Kick {
    /// The position of the first element of the first part: 1 to n.
    pub first: u32,
    /// The cuts of the ring as it is read from there.
    pub cuts: Cuts,
}

impl Kick {
    /// Draws the position, and then the lengths of the three parts. At least one element is left for the fourth part.
    pub fn draw<R: Rng>(rng: &mut R, n: u32) -> Kick
        requires { 8 ≤ n }
        ensures kick { IsKick n result }
        ensures drawn { (result, R.stream rng.new) ≡ drawn_kick n (R.stream rng.old) }
    {
        let most = PART.min((n - 1) / 3);
        let first = rng.random_range(1..=n);
        let b = rng.random_range(1..=most);
        let c = rng.random_range(1..=most);
        let d = rng.random_range(1..=most);
        let cuts = Cuts {
            p: b,
            q: b + c,
            r: b + c + d,
        };
        Kick { first, cuts }
    }

    /// The element at position k of the ring, as it is read from the first part on.
    fn at<S: TourStore>(&self, ring: &S, k: u32) -> u32
        requires first { IsCity (length (S.cities ring.now)) self.now.first }
        requires place { IsCity (length (S.cities ring.now)) k }
        ensures value { result ≡ city_at (begun_at (self.now.first - 1) (S.cities ring.now)) k }
        ensures city { IsCity (length (S.cities ring.now)) result }
    {
        let n = ring.size();
        let place = self.first - 1 + k;
        ring.at(if place <= n { place } else { place - n })
    }

    /// The first and the last element of each part.
    pub fn ends<S: TourStore>(&self, ring: &S) -> [u32; 8]
        requires { IsKick (length (S.cities ring.now)) self.now }
        ensures value { result ≡ ends_of self.now (S.cities ring.now) }
        ensures cities { All (IsCity (length (S.cities ring.now))) result }
    {
        let Cuts { p, q, r } = self.cuts;
        [
            self.at(ring, 1),
            self.at(ring, p),
            self.at(ring, p + 1),
            self.at(ring, q),
            self.at(ring, q + 1),
            self.at(ring, r),
            self.at(ring, r + 1),
            self.at(ring, ring.size()),
        ]
    }

    /// Whether a ring that fits also does after the kick. It joins the loads of the four paths and makes no move.
    pub fn fits<S: UndoStore>(&self, ring: &LoadedRing<'_, S>, vehicles: &Capacity<'_>) -> bool
        requires suits { demands_in ring.now ≡ vehicles.now.demands.now }
        requires kick { IsKick (length (cities_in ring.now)) self.now }
        requires fits { IsFitting vehicles.now.capacity vehicles.now.demands.now (cities_in ring.now) }
        ensures { result ≡ is_within vehicles.now.capacity vehicles.now.demands.now
            (kicked self.now (cities_in ring.now)) }
    {
        let limit = vehicles.capacity;
        let [a1, an, b1, bn, c1, cn, d1, dn] = self.ends(ring);
        let a = vehicles.stretch(ring, a1, an, true);
        let b = vehicles.stretch(ring, b1, bn, true);
        let c = vehicles.stretch(ring, c1, cn, true);
        let d = vehicles.stretch(ring, d1, dn, true);
        a.join(d, limit)
            .join(c, limit)
            .join(b, limit)
            .is_closed(limit)
    }

    /// Makes the kick by four flips: swaps the second and the fourth of the four parts.
    pub fn make<S: TourStore>(&self, ring: &mut S)
        requires { IsKick (length (S.cities ring.old)) self.now }
        ensures kicked { SameCycle (S.cities ring.new) (kicked self.now (S.cities ring.old)) }
        ensures kept { S.FlipsOnly ring.old ring.new }
        ensures size { length (S.cities ring.new) ≡ length (S.cities ring.old) }
        ensures flips { S.flip_count ring.new ≡ saturated (S.flip_count ring.old + 4) }
        ensures rises { S.swap_count ring.old ≤ S.swap_count ring.new }
        ensures swaps { S.swap_count ring.new
            ≡ saturated (S.swap_count ring.old + kick_swaps (length (S.cities ring.old)) self.now.cuts) }
        ensures few { kick_swaps (length (S.cities ring.old)) self.now.cuts ≤ 30 }
    {
        let [a1, an, b1, bn, c1, cn, d1, dn] = self.ends(ring);
        let _ = ring.flip(an, b1, dn, a1);
        let _ = ring.flip(an, dn, d1, cn);
        let _ = ring.flip(dn, cn, c1, bn);
        let _ = ring.flip(cn, bn, b1, a1);
    }
}
