//! The segments that begin at a city.
ghost use Rattle.std.specs.Prelude.{◌≡◌, ◌≤◌, All, length};
ghost use Rattle.tk_distance.specs.Cities.{IsCity};
ghost use Rattle.tk_tour.specs.Tour.{next_city, prev_city};
ghost use Rattle.tk_descent.specs.Offers.{IsSegmentIn, all_segments, covers, segment_count};
ghost use Rattle.tk_descent.specs.declared.offer.Offer.TheVariants.{Or};

use crate::offer::{Offer, Segment};
use crate::on_tour::neighbourhood;
use tk_tour::TourStore;

impl Segment {
    /// Whether c is one of the cities of the segment from x.
    #[inline(always)]
    pub(crate) fn covers(&self, x: u32, c: u32) -> bool
        ensures { result ≡ covers x self.now c }
    {
        c == x || c == self.middle || c == self.last
    }

    /// The offer to move the segment, which begins at x, to between y and w.
    #[inline(always)]
    pub(crate) fn offer(&self, x: u32, y: u32, w: u32) -> Offer
        ensures { result ≡ Or self.now.before x self.now.last self.now.after y w }
    {
        Offer::Or {
            a: self.before,
            x,
            e: self.last,
            b: self.after,
            y,
            w,
        }
    }
}

/// The number of segments that can be moved on n cities, of the five that begin at a city.
pub(crate) fn segment_count(n: u32, or_segment: u32) -> usize
    ensures value { result ≡ segment_count n or_segment }
    ensures limit { result ≤ 5 }
{
    if n >= 5 && or_segment >= 3 {
        5
    } else if n >= 4 && or_segment >= 2 {
        3
    } else if n >= 3 {
        1
    } else {
        0
    }
}

/// The segments that begin at x: one city, then two cities forwards and backwards, then three forwards and backwards.
#[inline]
pub(crate) fn segments_of<S: TourStore>(tour: &S, x: u32) -> [Segment; 5]
    requires { IsCity (length (S.cities tour.now)) x }
    ensures value { result ≡ all_segments (next_city (S.cities tour.now)) (prev_city (S.cities tour.now)) x }
    ensures inside { All (IsSegmentIn (length (S.cities tour.now))) result }
{
    let neighbourhood = neighbourhood(tour, x);
    let [after, after_2, after_3] = neighbourhood.after;
    let [before, before_2, before_3] = neighbourhood.before;
    [
        Segment {
            before,
            middle: x,
            last: x,
            after,
        },
        Segment {
            before,
            middle: x,
            last: after,
            after: after_2,
        },
        Segment {
            before: after,
            middle: x,
            last: before,
            after: before_2,
        },
        Segment {
            before,
            middle: after,
            last: after_2,
            after: after_3,
        },
        Segment {
            before: after,
            middle: before,
            last: before_2,
            after: before_3,
        },
    ]
}
