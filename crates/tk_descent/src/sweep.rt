//! Swept descents, which end with a local optimum.
ghost use Rattle.std.specs.Prelude.{◌≡◌, pos, ◌*◌, ◌≤◌, [], length};
ghost use Rattle.tk_tour.specs.Tour.{tour_length};
ghost use Rattle.tk_descent.specs.Descents.{IsSweeping, SweepingUnder, AreOfSize, stand};

use crate::descent::{Report, descend_under};
use crate::gains::Gains;
use crate::on_tour::size;
use crate::rule::{Everything, Rule};
use crate::waking::Waking;
use tk_near::Near;
use tk_tour::TourStore;

/// The counters of a swept descent.
#[derive(Clone, Copy)]
pub struct SweptReport {
    /// All passes, counted as one descent. The numbers of looks and tests saturate at 2^64 - 1.
    pub descent: Report,
    /// The number of passes.
    pub passes: u64,
}

/// Puts all cities to sleep.
fn put_to_sleep(waking: &mut Waking)
    ensures queue { waking.new.queue ≡ [] }
    ensures size { waking.new.size ≡ waking.old.size }
{
    while let Some(_city) = waking.take() {}
}

/// A swept descent under a rule: passes, each of which wakes all cities and descends, until one makes no move. Then no
/// city has an offer with positive gain that the rule allows. It does not matter which cities are awake at the start.
///
/// `or_segment` is the maximum number of cities in the segment of an Or-opt move, and `before` the length of the tour.
pub fn descend_swept_under<S: TourStore, G: Gains, R: Rule<S>>(
    tour: &mut S,
    gains: &mut G,
    rule: &R,
    near: &Near,
    waking: &mut Waking,
    or_segment: u32,
    before: i64,
) -> SweptReport
    requires fits { AreOfSize (length (S.cities tour.old)) (G.size_of gains.old) near.now.size waking.old.size }
    requires most { (1 ≤ or_segment) × (or_segment ≤ 3) }
    requires before { before ≡ pos (tour_length (G.distance gains.old) (S.cities tour.old)) }
    requires suits { R.Suits rule.now tour.old }
    requires tour { R.Fits rule.now (S.cities tour.old) }
    ensures sweeping { SweepingUnder (R.Fits rule.now) (R.allowed rule.now)
        (record { distance = G.distance gains.old; near = near.now; or_segment = or_segment })
        (stand S.TourStore tour.old waking.old (G.test_count gains.old))
        (stand S.TourStore tour.new waking.new (G.test_count gains.new)) result }
    ensures flips_only { S.FlipsOnly tour.old tour.new }
    ensures stored { length near.now.entries ≡ length (S.cities tour.old) * near.now.width }
    ensures table { (G.distance gains.new ≡ G.distance gains.old) × (G.size_of gains.new ≡ G.size_of gains.old) }
    ensures sizes { (length (S.cities tour.new) ≡ length (S.cities tour.old)) × (waking.new.size ≡ waking.old.size) }
{
    let (tests, swaps) = (gains.tests(), tour.swaps());
    let (_cities, _candidates) = (size(tour), near.width());
    put_to_sleep(waking);
    let mut after = before;
    let mut passes = 0u64;
    let mut looks = 0u64;
    let mut moves = 0u64;
    'sweeping: loop {
        waking.wake_all();
        let pass = descend_under(tour, gains, rule, near, waking, or_segment, after);
        after = pass.after;
        passes += 1;
        looks = looks.saturating_add(pass.looks);
        moves += pass.moves;
        if pass.moves == 0 {
            return SweptReport {
                descent: Report {
                    before,
                    after,
                    moves,
                    looks,
                    tests: gains.tests() - tests,
                    swaps: tour.swaps() - swaps,
                },
                passes,
            };
        }
    }
}

/// A swept descent of the TSP: passes, each of which wakes all cities and descends, until one makes no move. Then no
/// city has an offer with positive gain. It does not matter which cities are awake at the start.
///
/// `or_segment` is the maximum number of cities in the segment of an Or-opt move, and `before` the length of the tour.
#[inline]
pub fn descend_swept<S: TourStore, G: Gains>(
    tour: &mut S,
    gains: &mut G,
    near: &Near,
    waking: &mut Waking,
    or_segment: u32,
    before: i64,
) -> SweptReport
    requires fits { AreOfSize (length (S.cities tour.old)) (G.size_of gains.old) near.now.size waking.old.size }
    requires most { (1 ≤ or_segment) × (or_segment ≤ 3) }
    requires before { before ≡ pos (tour_length (G.distance gains.old) (S.cities tour.old)) }
    ensures sweeping { IsSweeping S.TourStore G.Gains near.now or_segment
        (tour.old, waking.old, gains.old) (tour.new, waking.new, gains.new) result }
    ensures flips_only { S.FlipsOnly tour.old tour.new }
    ensures stored { length near.now.entries ≡ length (S.cities tour.old) * near.now.width }
    ensures table { (G.distance gains.new ≡ G.distance gains.old) × (G.size_of gains.new ≡ G.size_of gains.old) }
    ensures sizes { (length (S.cities tour.new) ≡ length (S.cities tour.old)) × (waking.new.size ≡ waking.old.size) }
{
    descend_swept_under(tour, gains, &Everything, near, waking, or_segment, before)
}
