//! Descents: local search with a queue of waking cities.
ghost use Rattle.std.specs.Prelude.{◌≡◌, pos, ◌+◌, ◌*◌, ◌≤◌, length};
ghost use Rattle.tk_tour.specs.Tour.{tour_length};
ghost use Rattle.tk_descent.specs.Offers.{ends, EndsIn};
ghost use Rattle.tk_descent.specs.Awake.{woken_each};
ghost use Rattle.tk_descent.specs.Descents.{IsDescent, DescentUnder, AreOfSize, saved, stand};

use crate::gains::Gains;
use crate::making::make;
use crate::offer::Offer;
use crate::on_tour::size;
use crate::rule::{Everything, Rule};
use crate::waking::Waking;
use tk_near::Near;
use tk_tour::TourStore;

/// The lengths of a descent and its counters.
#[derive(Clone, Copy)]
pub struct Report {
    /// The length of the tour before it.
    pub before: i64,
    /// The length of the tour after it.
    pub after: i64,
    /// The number of moves.
    pub moves: u64,
    /// The number of looks at a city.
    pub looks: u64,
    /// The number of tests: offers whose gain was tested.
    pub tests: u64,
    /// The number of swaps of two cities that the flips took.
    pub swaps: u64,
}

/// Wakes the ends of a move, in order.
fn wake_ends(waking: &mut Waking, offer: &Offer)
    requires { EndsIn waking.old.size offer.now }
    ensures queue { waking.new.queue ≡ woken_each waking.old.queue (ends offer.now) }
    ensures size { waking.new.size ≡ waking.old.size }
{
    match *offer {
        Offer::Two { a, b, c, d } => {
            waking.wake(a);
            waking.wake(b);
            waking.wake(c);
            waking.wake(d);
        }
        Offer::Or { a, x, e, b, y, w } => {
            waking.wake(x);
            waking.wake(a);
            waking.wake(e);
            waking.wake(b);
            waking.wake(y);
            waking.wake(w);
        }
    }
}

/// A descent under a rule: looks at the waking cities in turn, first in, first out. A look finds the first offer with
/// positive gain that the rule allows. Its move is then made, and the ends of the move are woken. The descent ends when
/// no city is awake.
///
/// `or_segment` is the maximum number of cities in the segment of an Or-opt move, and `before` the length of the tour.
pub fn descend_under<S: TourStore, G: Gains, R: Rule<S>>(
    tour: &mut S,
    gains: &mut G,
    rule: &R,
    near: &Near,
    waking: &mut Waking,
    or_segment: u32,
    before: i64,
) -> Report
    requires fits { AreOfSize (length (S.cities tour.old)) (G.size_of gains.old) near.now.size waking.old.size }
    requires most { (1 ≤ or_segment) × (or_segment ≤ 3) }
    requires before { before ≡ pos (tour_length (G.distance gains.old) (S.cities tour.old)) }
    requires suits { R.Suits rule.now tour.old }
    requires tour { R.Fits rule.now (S.cities tour.old) }
    ensures descent { DescentUnder (R.Fits rule.now) (R.allowed rule.now)
        (record { distance = G.distance gains.old; near = near.now; or_segment = or_segment })
        (stand S.TourStore tour.old waking.old (G.test_count gains.old))
        (stand S.TourStore tour.new waking.new (G.test_count gains.new)) result }
    ensures headline { result.tests
        ≤ 4 * or_segment * near.now.width * (length (S.cities tour.old) + 6 * saved result) }
    ensures flips_only { S.FlipsOnly tour.old tour.new }
    ensures stored { length near.now.entries ≡ length (S.cities tour.old) * near.now.width }
    ensures table { (G.distance gains.new ≡ G.distance gains.old) × (G.size_of gains.new ≡ G.size_of gains.old) }
    ensures sizes { (length (S.cities tour.new) ≡ length (S.cities tour.old)) × (waking.new.size ≡ waking.old.size) }
{
    let (tests, swaps) = (gains.tests(), tour.swaps());
    let (_cities, _awake, _candidates) = (size(tour), waking.len(), near.width());
    let mut after = before;
    let mut moves = 0;
    let mut looks = 0;
    while let Some(x) = waking.take() {
        looks += 1;
        if let Some(found) = gains.find_offer(tour, rule, near, or_segment, x) {
            make(tour, &found.offer);
            wake_ends(waking, &found.offer);
            after -= found.gain;
            moves += 1;
        }
    }
    Report {
        before,
        after,
        moves,
        looks,
        tests: gains.tests() - tests,
        swaps: tour.swaps() - swaps,
    }
}

/// A descent of the TSP: looks at the waking cities in turn, first in, first out. A look finds the first offer with
/// positive gain. Its move is then made, and the ends of the move are woken. The descent ends when no city is awake.
///
/// `or_segment` is the maximum number of cities in the segment of an Or-opt move, and `before` the length of the tour.
#[inline]
pub fn descend<S: TourStore, G: Gains>(
    tour: &mut S,
    gains: &mut G,
    near: &Near,
    waking: &mut Waking,
    or_segment: u32,
    before: i64,
) -> Report
    requires fits { AreOfSize (length (S.cities tour.old)) (G.size_of gains.old) near.now.size waking.old.size }
    requires most { (1 ≤ or_segment) × (or_segment ≤ 3) }
    requires before { before ≡ pos (tour_length (G.distance gains.old) (S.cities tour.old)) }
    ensures descent { IsDescent S.TourStore G.Gains near.now or_segment
        (tour.old, waking.old, gains.old) (tour.new, waking.new, gains.new) result }
    ensures headline { result.tests
        ≤ 4 * or_segment * near.now.width * (length (S.cities tour.old) + 6 * saved result) }
    ensures flips_only { S.FlipsOnly tour.old tour.new }
    ensures stored { length near.now.entries ≡ length (S.cities tour.old) * near.now.width }
    ensures table { (G.distance gains.new ≡ G.distance gains.old) × (G.size_of gains.new ≡ G.size_of gains.old) }
    ensures sizes { (length (S.cities tour.new) ≡ length (S.cities tour.old)) × (waking.new.size ≡ waking.old.size) }
{
    descend_under(tour, gains, &Everything, near, waking, or_segment, before)
}
