//! A tour in segments equals a tour in an array, flip by flip.
ghost use Rattle.std.specs.Prelude.{◌<◌};

use crate::given::{expect, expect_two_cities, first_cities, journal_of, tour_of};
use crate::tours::worked::flip_after;
use std::alloc::Global;
use std::process::Abort;
use tk_segments::SegmentTour;
use tk_tour::{ArrayTour, Flip, JournalTour, TourStore, UndoStore};

/// The next pseudorandom number below a limit.
fn draw_below(state: &mut u64, limit: u32) -> u32
    requires { 0 < limit }
    ensures { result < limit }
{
    *state = state
        .wrapping_mul(6_364_136_223_846_793_005)
        .wrapping_add(1_442_695_040_888_963_407);
    (*state >> 33) as u32 % limit
}

/// A shuffled list of n cities.
fn shuffled(rt: &impl Abort, alloc: Global, n: u32, state: &mut u64) -> Vec<u32> {
    let mut cities = first_cities(rt, alloc, n);
    for k in 0..cities.len() {
        let j = draw_below(state, cities.len().min(100_000) as u32);
        cities.swap(k, j as usize);
    }
    cities
}

/// Flips the tour between a and c, and the cities before them.
fn flip_before<S: TourStore>(rt: &impl Abort, tour: &mut S, a: u32, c: u32) -> Flip {
    expect_two_cities(rt, tour.size(), a, c);
    let (b, d) = (tour.prev(a), tour.prev(c));
    tour.flip(a, b, c, d)
}

/// Flips the tour between a and c, and the cities after or before them.
fn flip_at<S: TourStore>(rt: &impl Abort, tour: &mut S, a: u32, c: u32, ahead: bool) -> Flip {
    if ahead {
        return flip_after(rt, tour, a, c);
    }
    flip_before(rt, tour, a, c)
}

/// Checks that both tours have the same cities in the same order.
fn expect_same_order<S: TourStore, T: TourStore>(rt: &impl Abort, one: &S, other: &T) {
    let n = one.size();
    expect(rt, other.size() == n);
    for k in 1..=n {
        expect(rt, one.at(k) == other.at(k));
        expect(rt, one.position(k) == other.position(k));
        expect(rt, one.next(k) == other.next(k));
        expect(rt, one.prev(k) == other.prev(k));
        expect(rt, one.neighbourhood(k) == other.neighbourhood(k));
    }
}

/// Checks that both tours count the same flips, and the same swaps for making and for undoing them.
fn expect_same_counts<S: UndoStore, T: UndoStore>(rt: &impl Abort, one: &S, other: &T) {
    expect(rt, one.flips() == other.flips());
    expect(rt, one.swaps() == other.swaps());
    expect(rt, one.undo_swaps() == other.undo_swaps());
}

/// Checks that both tours have the same order and the same counters, and that swaps pay for the positions written.
pub fn expect_alike(rt: &impl Abort, array: &ArrayTour, segments: &SegmentTour) {
    expect_same_order(rt, array, segments);
    expect_same_counts(rt, array, segments);
    let paid = segments.swaps().saturating_add(segments.undo_swaps());
    expect(rt, segments.writes() / 2 <= paid);
}

/// Two random cities. In half of the cases, the second one is at most a quarter of the tour after the first.
fn draw_cities(rt: &impl Abort, tour: &ArrayTour, state: &mut u64) -> (u32, u32) {
    let n = tour.size();
    let k = draw_below(state, n);
    let a = tour.at(k + 1);
    let reach = if draw_below(state, 2) == 0 {
        n
    } else {
        n / 4 + 1
    };
    let c = tour.at((k + draw_below(state, reach)) % n + 1);
    expect(rt, a <= n);
    expect(rt, c <= n);
    (a, c)
}

/// Makes flips in both tours, checks that they agree, and returns how often the array of the segments was rewritten.
fn flip_both(
    rt: &impl Abort,
    array: &mut ArrayTour,
    segments: &mut SegmentTour,
    flips: u32,
    state: &mut u64,
) -> u32 {
    let mut count = 0;
    let mut written = 0u32;
    for _ in 0..flips {
        let (a, c) = draw_cities(rt, array, state);
        if a != c {
            let ahead = draw_below(state, 2) == 0;
            let flip = flip_at(rt, array, a, c, ahead);
            expect(rt, flip == flip_at(rt, segments, a, c, ahead));
            expect_alike(rt, array, segments);
            if segments.segments() < count {
                written = written.saturating_add(1);
            }
            count = segments.segments();
        }
    }
    written
}

/// A tour in the order of the list, in as few segments as the limit for swaps allows.
pub fn segments_of(rt: &impl Abort, alloc: Global, cities: &[u32], short: u32) -> SegmentTour {
    expect(rt, 1 <= short);
    expect(rt, short <= 3000);
    let least = (short as usize + 1) / 2;
    let most = cities.len() / least + 3;
    expect(rt, cities.len() <= 3000);
    expect(rt, most <= 3003);
    expect(rt, cities.len() <= (most - 2) * least);
    SegmentTour::with_limits(alloc, cities, short, most as u32).expect(rt, "a tour")
}

/// Like `segments_of`, or with the default limits if `short` is 0.
fn segments_by(rt: &impl Abort, alloc: Global, cities: &[u32], short: u32) -> SegmentTour {
    if short == 0 {
        return SegmentTour::from_list(alloc, cities).expect(rt, "a tour");
    }
    segments_of(rt, alloc, cities, short)
}

/// Like `flip_both`, for the cities of a list in their order.
fn flips_from(
    rt: &impl Abort,
    alloc: Global,
    cities: &[u32],
    short: u32,
    flips: u32,
    state: &mut u64,
) -> u32 {
    let mut array = tour_of(rt, alloc, cities);
    let mut segments = segments_by(rt, alloc, cities, short);
    flip_both(rt, &mut array, &mut segments, flips, state)
}

/// Like `flip_both`, for n shuffled cities.
fn flips_by_limit(rt: &impl Abort, alloc: Global, n: u32, short: u32, flips: u32) -> u32 {
    let mut state = n as u64 + 3000 * short as u64;
    let cities = shuffled(rt, alloc, n, &mut state);
    flips_from(rt, alloc, &cities, short, flips, &mut state)
}

/// Like `flips_by_limit`, for each of these limits for swaps.
fn flips_by_limits(rt: &impl Abort, alloc: Global, n: u32, limits: &[u32], flips: u32) -> u32 {
    let mut written = 0u32;
    for short in limits {
        written = written.saturating_add(flips_by_limit(rt, alloc, n, *short, flips));
    }
    written
}

#[test]
fn as_in_an_array(rt: HostRuntime) {
    let mut written = 0u32;
    for n in 2..40 {
        let more = flips_by_limits(&rt, rt.alloc(), n, &[1, 2, 3, 4, 5], 60);
        written = written.saturating_add(more);
    }
    for n in &[100, 117, 144, 171, 198] {
        let more = flips_by_limits(&rt, rt.alloc(), *n, &[1, 3, 20], 300);
        written = written.saturating_add(more);
    }
    expect(&rt, written > 100);
}

#[test]
fn as_in_an_array_with_usual_limits(rt: HostRuntime) {
    for n in &[2, 3, 151, 400, 3000] {
        let _ = flips_by_limit(&rt, rt.alloc(), *n, 0, 200);
    }
}

/// The cities of a tour in their order.
fn cities_of<S: UndoStore>(rt: &impl Abort, alloc: Global, tour: &S) -> Vec<u32> {
    let mut cities = vec![in alloc; 0u32; tour.size() as usize].expect(rt, "memory for a list");
    tour.write_order(&mut cities);
    cities
}

/// Whether the cities of a tour are these, in this order.
fn has_order<S: UndoStore>(rt: &impl Abort, alloc: Global, tour: &S, want: &[u32]) -> bool {
    let cities = cities_of(rt, alloc, tour);
    cities.as_slice() == want
}

/// A tour in the order of the list, in at most `most` segments, with a journal. Each flip reverses segments.
fn journal_of_segments(
    rt: &impl Abort,
    alloc: Global,
    cities: &[u32],
    most: u32,
    slots: u32,
) -> JournalTour<SegmentTour> {
    expect(rt, 3 <= most);
    expect(rt, most <= 160);
    expect(rt, cities.len() <= most as usize - 2);
    let segments = SegmentTour::with_limits(alloc, cities, 1, most).expect(rt, "a tour");
    journal_of(rt, alloc, segments, slots)
}

/// Makes three flips, one of which does not fit into a journal of two.
fn lose_flips(rt: &impl Abort, tour: &mut JournalTour<SegmentTour>) {
    let _ = flip_after(rt, tour, 6, 4);
    let _ = flip_after(rt, tour, 3, 2);
    let _ = flip_after(rt, tour, 8, 5);
    expect(rt, tour.lost());
    expect(rt, !tour.rewind());
    expect(rt, tour.tour().segments() > 1);
}

/// Restores the order of a tour in which flips were lost.
fn restore(rt: &impl Abort, tour: &mut JournalTour<SegmentTour>, start: &ArrayTour) {
    expect(rt, tour.size() == start.size());
    tour.restore(start);
    expect(rt, tour.tour().copied() == 8);
    expect(rt, tour.tour().segments() == 1);
}

/// Makes and undoes one more flip.
fn undo_one(rt: &impl Abort, tour: &mut JournalTour<SegmentTour>) {
    let swaps = tour.swaps();
    let _ = flip_after(rt, tour, 6, 4);
    expect(rt, tour.rewind());
    expect(
        rt,
        tour.swaps().checked_sub(swaps) == Some(tour.tour().undo_swaps()),
    );
}

static START: [u32; 8] = [6, 2, 8, 4, 1, 7, 3, 5];

/// Loses flips, and then takes the order of another tour.
fn expect_taken(
    rt: &impl Abort,
    alloc: Global,
    tour: &mut JournalTour<SegmentTour>,
    start: &ArrayTour,
) {
    lose_flips(rt, tour);
    expect(rt, !has_order(rt, alloc, tour.tour(), start.order()));
    restore(rt, tour, start);
    expect(rt, has_order(rt, alloc, tour.tour(), start.order()));
    undo_one(rt, tour);
    expect(rt, has_order(rt, alloc, tour.tour(), start.order()));
}

#[test]
fn takes_an_order_where_flips_were_lost(rt: HostRuntime) {
    let mut tour = journal_of_segments(&rt, rt.alloc(), &START, 10, 2);
    expect_taken(
        &rt,
        rt.alloc(),
        &mut tour,
        &tour_of(&rt, rt.alloc(), &START),
    );
}

/// Makes some flips between random cities.
fn flip_some<S: TourStore>(rt: &impl Abort, tour: &mut S, flips: u32, state: &mut u64) {
    let n = tour.size();
    expect(rt, 1 <= n);
    expect(rt, n <= 100_000);
    for _ in 0..flips {
        let (a, c) = (draw_below(state, n) + 1, draw_below(state, n) + 1);
        if a != c {
            let ahead = draw_below(state, 2) == 0;
            let _ = flip_at(rt, tour, a, c, ahead);
        }
    }
}

/// Makes flips, and checks that a rewind restores the order of the cities, and leaves no more segments than this.
fn expect_rewound(
    rt: &impl Abort,
    alloc: Global,
    tour: &mut JournalTour<SegmentTour>,
    cities: &[u32],
    count: usize,
    flips: u32,
    state: &mut u64,
) {
    flip_some(rt, tour, flips, state);
    expect(rt, tour.rewind());
    expect(rt, tour.tour().segments() <= count);
    expect(rt, has_order(rt, alloc, tour.tour(), cities));
}

/// Like `expect_rewound`, for several numbers of flips.
fn expect_undone(
    rt: &impl Abort,
    alloc: Global,
    tour: &mut JournalTour<SegmentTour>,
    state: &mut u64,
) {
    let count = tour.tour().segments();
    let before = cities_of(rt, alloc, tour.tour());
    for flips in 0..30 {
        expect_rewound(rt, alloc, tour, &before, count, flips % 7, state);
    }
}

/// Like `expect_undone`, after flips that are kept.
fn expect_undone_after(
    rt: &impl Abort,
    alloc: Global,
    tour: &mut JournalTour<SegmentTour>,
    state: &mut u64,
) {
    for kept in &[0, 1, 3] {
        flip_some(rt, tour, *kept, state);
        tour.settle();
        expect_undone(rt, alloc, tour, state);
    }
}

/// Like `expect_undone_after`, for n cities in a random order.
fn expect_undone_of(rt: &impl Abort, alloc: Global, n: u32) {
    let mut state = n as u64;
    let cities = shuffled(rt, alloc, n, &mut state);
    let mut tour = journal_of_segments(rt, alloc, &cities, 160, 100);
    expect_undone_after(rt, alloc, &mut tour, &mut state);
}

#[test]
fn undone_flips_leave_no_more_segments(rt: HostRuntime) {
    for n in &[9, 40, 150] {
        expect_undone_of(&rt, rt.alloc(), *n);
    }
}
