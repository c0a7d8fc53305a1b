//! Gains of moves. A descent learns distances only through them.
ghost use Rattle.std.specs.Prelude.{◌≡◌, ℕ, ◌+◌, ◌-◌, ◌*◌, ◌^◌, ◌≤◌, All, IfSome, length};
ghost use Rattle.tk_problem.specs.declared.limits.TheConstants.{DISTANCE_LIMIT};
ghost use Rattle.tk_distance.specs.Cities.{IsCity};
ghost use Rattle.tk_tour.specs.Counters.{saturated};
ghost use Rattle.tk_descent.specs.Offers.{gain, offers_at, Searched, EndsIn};
ghost use Rattle.tk_descent.specs.Machine.{IsOfferOn};
ghost use Rattle.tk_descent.specs.declared.offer.Offer.TheVariants.{Two, Or};
ghost use Rattle.tk_descent.specs.Ruled.{Each, IsOnTour};

use crate::looks::listing::offers_with;
use crate::offer::{Found, Offer};
use crate::rule::Rule;
use tk_near::Near;
use tk_tour::TourStore;

/// Computes gains of moves from a table of distances, and counts them.
pub trait Gains {
    /// The number of cities.
    ghost size_of: { Self → ℕ };

    /// The distances between cities.
    ghost distance: { Self → ℕ → ℕ → ℕ };

    /// The number of tests: offers whose gain was tested.
    ghost test_count: { Self → ℕ };

    /// The number of tests: offers whose gain was tested. It saturates at 2^64 - 1.
    fn tests(&self) -> u64
        ensures { result ≡ test_count self.now };

    /// The gain of replacing the edges a-b and c-d by a-c and b-d.
    fn gain2(&mut self, a: u32, b: u32, c: u32, d: u32) -> i64
        requires { EndsIn (size_of self.old) (Two a b c d) }
        ensures value { result ≡ gain (distance self.old) (Two a b c d) }
        ensures count { test_count self.new ≡ saturated (test_count self.old + 1) }
        ensures same { (distance self.new ≡ distance self.old) × (size_of self.new ≡ size_of self.old) };

    /// The gain of replacing the edges a-x, e-b and y-w by a-b, x-y and e-w.
    fn gain3(&mut self, a: u32, x: u32, e: u32, b: u32, y: u32, w: u32) -> i64
        requires { EndsIn (size_of self.old) (Or a x e b y w) }
        ensures value { result ≡ gain (distance self.old) (Or a x e b y w) }
        ensures count { test_count self.new ≡ saturated (test_count self.old + 1) }
        ensures same { (distance self.new ≡ distance self.old) × (size_of self.new ≡ size_of self.old) };

    /// The gain of an offer.
    fn gain(&mut self, offer: &Offer) -> i64
        requires { EndsIn (size_of self.old) offer.now }
        ensures value { result ≡ gain (distance self.old) offer.now }
        ensures count { test_count self.new ≡ saturated (test_count self.old + 1) }
        ensures same { (distance self.new ≡ distance self.old) × (size_of self.new ≡ size_of self.old) }
    {
        match *offer {
            Offer::Two { a, b, c, d } => self.gain2(a, b, c, d),
            Offer::Or { a, x, e, b, y, w } => self.gain3(a, x, e, b, y, w),
        }
    }

    /// The first of these offers with positive gain that the rule allows, and its gain. It tests the offers up to that
    /// one.
    fn find_in<S: TourStore, R: Rule<S>>(
        &mut self,
        tour: &S,
        rule: &R,
        offers: &[Offer],
    ) -> Option<Found>
        requires ends { All (EndsIn (size_of self.old)) offers.now }
        requires suits { R.Suits rule.now tour.now }
        requires tour { R.Fits rule.now (S.cities tour.now) }
        requires on_tour { All (IsOnTour (S.cities tour.now)) offers.now }
        ensures searched { Searched (distance self.old) (R.allowed rule.now (S.cities tour.now)) offers.now
            result (test_count self.old) (test_count self.new) }
        ensures same { (distance self.new ≡ distance self.old) × (size_of self.new ≡ size_of self.old) }
    {
        let _counted = self.tests(); // the count at the start, for the proof
        for offer in offers {
            let gain = self.gain(offer);
            if gain > 0 && rule.allows(tour, offer) {
                return Some(Found {
                    offer: *offer,
                    gain,
                });
            }
        }
        None
    }

    /// Looks at a city: its first offer with positive gain that the rule allows, and its gain. It tests the offers up
    /// to that one.
    fn find_offer<S: TourStore, R: Rule<S>>(
        &mut self,
        tour: &S,
        rule: &R,
        near: &Near,
        or_segment: u32,
        city: u32,
    ) -> Option<Found>
        requires fits { (size_of self.old ≡ length (S.cities tour.now)) × (near.now.size ≡ length (S.cities tour.now)) }
        requires city { IsCity (length (S.cities tour.now)) city }
        requires most { (1 ≤ or_segment) × (or_segment ≤ 3) }
        requires suits { R.Suits rule.now tour.now }
        requires tour { R.Fits rule.now (S.cities tour.now) }
        ensures searched { Searched (distance self.old) (R.allowed rule.now (S.cities tour.now))
            (offers_at (S.cities tour.now) or_segment near.now city)
            result (test_count self.old) (test_count self.new) }
        ensures on_cycle { IfSome result (λ f. IsOfferOn or_segment f.offer (S.cities tour.now)
            × EndsIn (length (S.cities tour.now)) f.offer) }
        ensures bound { test_count self.new ≤ test_count self.old + 4 * or_segment * near.now.width }
        ensures same { (distance self.new ≡ distance self.old) × (size_of self.new ≡ size_of self.old) }
    {
        let _counted = self.tests(); // the count at the start, for the proof
        for near_city in near.of(city) {
            let offers = offers_with(tour, or_segment, city, *near_city);
            if let Some(found) = self.find_in(tour, rule, offers.as_slice()) {
                return Some(found);
            }
        }
        None
    }

    ghost symmetric: { (g : Self) (a b : ℕ) → distance g a b ≡ distance g b a };

    ghost diagonal: { (g : Self) (a : ℕ) → distance g a a ≡ 0 };

    ghost distance_limit: { (g : Self) (a b : ℕ) → distance g a b ≤ DISTANCE_LIMIT };

    ghost count_limit: { (g : Self) → test_count g ≤ 2 ^ 64 - 1 };
}
