//! The offers of a city with another city, in order.
ghost use Rattle.std.specs.Prelude.{◌≡◌, ◌+◌, ◌<◌, ◌≤◌, [], ◌∷◌, ◌++◌, length};
ghost use Rattle.tk_distance.specs.Cities.{IsCity};
ghost use Rattle.tk_tour.specs.Tour.{next_city, prev_city};
ghost use Rattle.tk_descent.specs.Offers.{offers_with, or_offer, segments};

use crate::looks::segments::{segment_count, segments_of};
use crate::offer::{Offer, Segment};
use crate::on_tour::{next, prev, size};
use std::marker::Model;
use tk_tour::TourStore;

/// A list of at most twelve offers.
#[derive(Drop)]
pub(crate) struct OfferList {
    slots: [Offer; 12],
    len: usize,
}

impl Model for OfferList {
    ghost use Rattle.std.specs.Prelude.{◌≤◌, List, take};
    ghost use Rattle.tk_descent.specs.declared.offer.Offer.{Offer};

    ghost Value = { List Offer };

    ghost view = { λ l. take l.len l.slots };

    ghost invariant = { λ l. l.len ≤ 12 };
}

impl OfferList {
    /// A list of one offer.
    fn of(first: Offer) -> OfferList
        ensures { result ≡ first ∷ [] }
    {
        OfferList {
            slots: [first; 12],
            len: 1,
        }
    }

    /// Appends an offer.
    fn push(&mut self, offer: Offer)
        requires { length self.old < 12 }
        ensures { self.new ≡ self.old ++ offer ∷ [] }
    {
        self.slots[self.len] = offer;
        self.len += 1;
    }

    /// Appends the Or-opt offer of a segment from x between y and w, unless one of these lies in the segment.
    fn push_or(&mut self, x: u32, y: u32, segment: &Segment, w: u32)
        requires { length self.old < 12 }
        ensures offers { self.new ≡ self.old ++ or_offer x y segment.now w }
        ensures limit { length self.new ≤ length self.old + 1 }
    {
        if !segment.covers(x, y) && !segment.covers(x, w) {
            self.push(segment.offer(x, y, w));
        }
    }

    /// The offers.
    pub(crate) fn as_slice(&self) -> &[Offer]
        ensures { result.now ≡ self.now }
    {
        &self.slots[..self.len]
    }
}

/// The offers of x with y.
pub(crate) fn offers_with<S: TourStore>(tour: &S, or_segment: u32, x: u32, y: u32) -> OfferList
    requires x { IsCity (length (S.cities tour.now)) x }
    requires y { IsCity (length (S.cities tour.now)) y }
    ensures { result ≡ offers_with (next_city (S.cities tour.now)) (prev_city (S.cities tour.now))
        (segments (next_city (S.cities tour.now)) (prev_city (S.cities tour.now))
        (length (S.cities tour.now)) or_segment x) x y }
{
    let (x_after, x_before) = (next(tour, x), prev(tour, x));
    let (y_after, y_before) = (next(tour, y), prev(tour, y));
    let mut offers = OfferList::of(Offer::Two {
        a: x,
        b: x_after,
        c: y,
        d: y_after,
    });
    offers.push(Offer::Two {
        a: x,
        b: x_before,
        c: y,
        d: y_before,
    });
    let all = segments_of(tour, x);
    for segment in &all[..segment_count(size(tour), or_segment)] {
        offers.push_or(x, y, segment, y_after);
        offers.push_or(x, y, segment, y_before);
    }
    offers
}
