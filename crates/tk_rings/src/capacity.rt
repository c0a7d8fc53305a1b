//! The capacity of the vehicles, as a rule of the moves on a ring.
ghost use Rattle.std.specs.Prelude.{◌≡◌, ◌+◌, ◌≤◌, ◌^◌, ◌*◌, true, length, nat_le};
ghost use Rattle.tk_distance.specs.Cities.{IsCity};
ghost use Rattle.tk_tour.specs.Tour.{next_city};
ghost use Rattle.tk_descent.specs.Machine.{IsOfferOn};
ghost use Rattle.tk_descent.specs.Offers.{EndsIn};
ghost use Rattle.tk_descent.specs.declared.offer.Offer.TheVariants.{Or, Two};
ghost use Rattle.tk_rings.specs.Capacities.{IsFitting, is_allowed};
ghost use Rattle.tk_rings.specs.LoadedRings.{cities_in, demands_in};
ghost use Rattle.tk_rings.specs.Loads.{AreLoadsOf, HasLoads, WasClosed};
ghost use Rattle.tk_rings.specs.Rings.{is_closed, join};
ghost use Rattle.tk_rings.specs.Walking.{AreEndsIn};
ghost use Rattle.tk_rings.specs.declared.stretch.Stretch.{Stretch};

use crate::loaded::LoadedRing;
use crate::stretch::Stretch;
use crate::walk::Walk;
use tk_descent::{Offer, Rule};
use tk_tour::{TourStore, UndoStore};

/// The demands of the customers, and the capacity of the vehicles. The elements 1, 2, .. of a ring are the customers;
/// the others are copies of the depot.
#[derive(Clone, Copy)]
pub struct Capacity<'a> {
    /// The demand of each customer.
    pub demands: &'a [u32],
    /// The maximum load of a vehicle.
    pub capacity: u64,
}

impl<'a> Capacity<'a> {
    /// The stretch of a walk, on a ring that fits, by its load before the first copy of the depot.
    fn completed<S: UndoStore>(
        &self,
        tour: &LoadedRing<'_, S>,
        walk: Walk,
        head: u64,
        parted: bool,
    ) -> Stretch
        requires ends { AreEndsIn (length (cities_in tour.now)) walk }
        requires light { head ≤ 2 ^ 32 * 100000 }
        ensures value { (s : Stretch) → HasLoads self.now.capacity (demands_in tour.now) (cities_in tour.now) walk s
            → s.fits ≡ true → s.head ≡ head → s.parted ≡ parted → result ≡ s }
        ensures light { (result.head ≤ 2 ^ 32 * 100000) × (result.tail ≤ 2 ^ 32 * 100000) }
    {
        if !parted {
            return Stretch {
                parted,
                head,
                tail: head,
                fits: true,
            };
        }
        let (tail, _) = tour.ahead(walk.back());
        Stretch {
            parted,
            head,
            tail,
            fits: true,
        }
    }

    /// The loads of a path of a ring that fits: the path from one element to another, forward or backward.
    pub fn stretch<S: UndoStore>(
        &self,
        tour: &LoadedRing<'_, S>,
        from: u32,
        to: u32,
        forward: bool,
    ) -> Stretch
        requires fits { IsFitting self.now.capacity (demands_in tour.now) (cities_in tour.now) }
        requires from { IsCity (length (cities_in tour.now)) from }
        requires to { IsCity (length (cities_in tour.now)) to }
        ensures loads { AreLoadsOf self.now.capacity (demands_in tour.now) (cities_in tour.now) from to forward result }
        ensures light { (result.head ≤ 2 ^ 32 * 100000) × (result.tail ≤ 2 ^ 32 * 100000) }
    {
        let walk = Walk { from, to, forward };
        let (head, parted) = tour.ahead(walk);
        self.completed(tour, walk, head, parted)
    }

    /// Whether the loads of two walks before their first copies of the depot are at most `room` together.
    fn fits_between<S: UndoStore>(
        &self,
        tour: &LoadedRing<'_, S>,
        room: u64,
        one: Walk,
        two: Walk,
    ) -> bool
        requires one { AreEndsIn (length (cities_in tour.now)) one }
        requires two { AreEndsIn (length (cities_in tour.now)) two }
        ensures { (s t : Stretch) → HasLoads self.now.capacity (demands_in tour.now) (cities_in tour.now) one s
            → HasLoads self.now.capacity (demands_in tour.now) (cities_in tour.now) two t
            → result ≡ nat_le (s.head + t.head) room }
    {
        let (first, _) = tour.ahead(one);
        if first > room {
            return false;
        }
        let (second, _) = tour.ahead(two);
        second <= room - first
    }

    /// Whether a segment may be put between two other paths, `ahead` and `rest`. It is now between `rest` and `ahead`,
    /// perhaps the other way round.
    ///
    /// A segment without a copy of the depot makes one route heavier, the one between `ahead` and `rest`. If it has a
    /// copy, the ends of two routes meet where it was; these routes are mostly too heavy for one, so that is tested
    /// first.
    fn allows_segment<S: UndoStore>(
        &self,
        tour: &LoadedRing<'_, S>,
        segment: Walk,
        ahead: Walk,
        rest: Walk,
    ) -> bool
        requires segment { AreEndsIn (length (cities_in tour.now)) segment }
        requires ahead { AreEndsIn (length (cities_in tour.now)) ahead }
        requires rest { AreEndsIn (length (cities_in tour.now)) rest }
        ensures { (s a r : Stretch) → HasLoads self.now.capacity (demands_in tour.now) (cities_in tour.now) segment s
            → HasLoads self.now.capacity (demands_in tour.now) (cities_in tour.now) ahead a
            → HasLoads self.now.capacity (demands_in tour.now) (cities_in tour.now) rest r
            → WasClosed self.now.capacity s a r
            → result ≡ is_closed self.now.capacity (join self.now.capacity (join self.now.capacity a s) r) }
    {
        let limit = self.capacity;
        let (load, parted) = tour.ahead(segment);
        if !parted {
            return load <= limit && self.fits_between(tour, limit - load, ahead.back(), rest);
        }
        let (behind, rest_parted) = tour.ahead(rest.back());
        if behind > limit {
            return false;
        }
        let (before, ahead_parted) = tour.ahead(ahead);
        if before > limit - behind {
            return false;
        }
        let middle = self.completed(tour, segment, load, parted);
        let front = self.completed(tour, ahead, before, ahead_parted);
        let end = self.completed(tour, rest.back(), behind, rest_parted);
        front
            .join(middle, limit)
            .join(end.turned(), limit)
            .is_closed(limit)
    }

    /// Whether a 2-opt offer may be made: the ends of two routes are exchanged, or a part of one route is turned round.
    fn allows_two<S: UndoStore>(
        &self,
        tour: &LoadedRing<'_, S>,
        a: u32,
        b: u32,
        c: u32,
        d: u32,
    ) -> bool
        requires fits { IsFitting self.now.capacity (demands_in tour.now) (cities_in tour.now) }
        requires on_tour { IsOfferOn 3 (Two a b c d) (cities_in tour.now) }
        requires cities { EndsIn (length (cities_in tour.now)) (Two a b c d) }
        ensures { result ≡ is_allowed self.now.capacity (demands_in tour.now) (cities_in tour.now) (Two a b c d) }
    {
        let forward = tour.next(a) == b;
        let turned = Walk {
            from: b,
            to: c,
            forward,
        };
        let kept = Walk {
            from: d,
            to: a,
            forward,
        };
        self.fits_between(tour, self.capacity, kept.back(), turned.back())
            && self.fits_between(tour, self.capacity, turned, kept)
    }

    /// Whether an Or-offer may be made whose segment runs forward.
    fn allows_forward<S: UndoStore>(
        &self,
        tour: &LoadedRing<'_, S>,
        a: u32,
        x: u32,
        e: u32,
        b: u32,
        y: u32,
        w: u32,
    ) -> bool
        requires fits { IsFitting self.now.capacity (demands_in tour.now) (cities_in tour.now) }
        requires on_tour { IsOfferOn 3 (Or a x e b y w) (cities_in tour.now) }
        requires cities { EndsIn (length (cities_in tour.now)) (Or a x e b y w) }
        requires forward { next_city (cities_in tour.now) a ≡ x }
        ensures { result ≡ is_allowed self.now.capacity (demands_in tour.now) (cities_in tour.now) (Or a x e b y w) }
    {
        let segment = Walk {
            from: x,
            to: e,
            forward: true,
        };
        if tour.next(y) == w {
            let ahead = Walk {
                from: b,
                to: y,
                forward: true,
            };
            let rest = Walk {
                from: w,
                to: a,
                forward: true,
            };
            self.allows_segment(tour, segment, ahead, rest)
        } else {
            let ahead = Walk {
                from: b,
                to: w,
                forward: true,
            };
            let rest = Walk {
                from: y,
                to: a,
                forward: true,
            };
            self.allows_segment(tour, segment.back(), ahead, rest)
        }
    }
}

impl<'a, 'b, S: UndoStore> Rule<LoadedRing<'b, S>> for Capacity<'a> {
    ghost use Rattle.std.proofs.Common.{◌∙◌};
    ghost use Rattle.tk_rings.specs.Capacities.{is_exact};

    ghost Suits = { λ r t. demands_in t ≡ r.demands.now };

    ghost Fits = { λ r. IsFitting r.capacity r.demands.now };

    ghost allowed = { λ r. is_allowed r.capacity r.demands.now };

    fn allows(&self, tour: &LoadedRing<'b, S>, offer: &Offer) -> bool {
        match *offer {
            Offer::Two { a, b, c, d } => self.allows_two(tour, a, b, c, d),
            Offer::Or { a, x, e, b, y, w } => {
                if tour.next(a) == x {
                    self.allows_forward(tour, a, x, e, b, y, w)
                } else {
                    self.allows_forward(tour, b, e, x, a, w, y)
                }
            }
        }
    }

    ghost suits_more = { λ r s t h k. k.demands ∙ h };

    ghost exact = { λ r. is_exact r.capacity r.demands.now };
}
