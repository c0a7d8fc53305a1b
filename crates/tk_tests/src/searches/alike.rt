//! A search takes the same course on a tour in an array and on a tour in segments.
ghost use Rattle.std.specs.Prelude.{◌≡◌, IfOk, pos, length};
ghost use Rattle.tk_tour.specs.JournalTours.{cities_of};
ghost use Rattle.tk_tour.specs.Tour.{tour_length};

use crate::descents::descend_awake;
use crate::given::{expect, first_cities, journal_of, near_of, tour_of};
use crate::places::{drawn_places, planes_of};
use crate::tours::segments::{expect_alike, segments_of};
use rand_core::SeedableRng;
use rand_pcg::Pcg32;
use std::alloc::{AllocError, Global};
use std::process::Abort;
use tk_build::{Cuts, kick};
use tk_descent::{Probe, Report};
use tk_metric::{Metric, Near};
use tk_segments::SegmentTour;
use tk_text::PlaneKind;
use tk_tour::{ArrayTour, JournalTour, TourStore, UndoStore, length};

/// The current length of a tour.
fn length_now<S: UndoStore, M: Metric>(
    alloc: Global,
    tour: &JournalTour<S>,
    metric: &M,
) -> Result<i64, AllocError>
    requires { M.size_of metric.now ≡ length (cities_of tour.now) }
    ensures { IfOk result (λ l. l ≡ pos (tour_length (M.distance metric.now) (cities_of tour.now))) }
{
    let mut cities = vec![in alloc; 0u32; tour.size() as usize]?;
    tour.tour().write_order(&mut cities);
    Ok(length(metric, &cities))
}

/// Makes a descent of a tour from its current order, with all cities awake.
fn descend_now<S: UndoStore, M: Metric>(
    rt: &impl Abort,
    alloc: Global,
    tour: &mut JournalTour<S>,
    metric: &M,
    near: &Near,
) -> Report
    requires metric { M.size_of metric.now ≡ length (cities_of tour.old) }
    requires near { near.now.size ≡ length (cities_of tour.old) }
{
    let before = length_now(alloc, tour, metric).expect(rt, "memory for a list");
    descend_awake(rt, alloc, tour, &mut Probe::new(metric), near, 3, before)
}

/// Makes a trial, as a search does, and returns the shortest length after it.
fn make_trial<S: UndoStore, M: Metric>(
    rt: &impl Abort,
    alloc: Global,
    tour: &mut JournalTour<S>,
    metric: &M,
    near: &Near,
    shortest: i64,
    rng: &mut Pcg32,
) -> i64 {
    let n = tour.size();
    expect(rt, 8 <= n);
    expect(rt, metric.size() == n);
    expect(rt, near.size() == n);
    kick(tour, Cuts::draw(rng, n));
    let report = descend_now(rt, alloc, tour, metric, near);
    if report.after < shortest {
        tour.settle();
        return report.after;
    }
    expect(rt, tour.rewind());
    shortest
}

/// Checks that trials of both tours agree, with the same random numbers.
fn expect_same_trials<M: Metric>(
    rt: &impl Abort,
    alloc: Global,
    array: &mut JournalTour<ArrayTour>,
    segments: &mut JournalTour<SegmentTour>,
    metric: &M,
    near: &Near,
    trials: u32,
    seed: u64,
) {
    let (mut rng, mut other_rng) = (Pcg32::seed_from_u64(seed), Pcg32::seed_from_u64(seed));
    let (mut shortest, mut other) = (i64::MAX, i64::MAX);
    for _ in 0..trials {
        shortest = make_trial(rt, alloc, array, metric, near, shortest, &mut rng);
        other = make_trial(rt, alloc, segments, metric, near, other, &mut other_rng);
        expect(rt, shortest == other);
        expect_alike(rt, array.tour(), segments.tour());
    }
}

/// A tour in an array, with a journal.
fn in_array(rt: &impl Abort, alloc: Global, cities: &[u32]) -> JournalTour<ArrayTour> {
    journal_of(rt, alloc, tour_of(rt, alloc, cities), 100_000)
}

/// A tour in as few segments as the limit for swaps allows, with a journal.
fn in_segments(
    rt: &impl Abort,
    alloc: Global,
    cities: &[u32],
    short: u32,
) -> JournalTour<SegmentTour> {
    journal_of(rt, alloc, segments_of(rt, alloc, cities, short), 100_000)
}

/// Checks that trials of both tours from one start agree.
fn expect_same_from<M: Metric>(
    rt: &impl Abort,
    alloc: Global,
    metric: &M,
    near: &Near,
    short: u32,
    trials: u32,
    seed: u64,
) {
    let cities = first_cities(rt, alloc, metric.size());
    let mut array = in_array(rt, alloc, &cities);
    let mut segments = in_segments(rt, alloc, &cities, short);
    expect_same_trials(
        rt,
        alloc,
        &mut array,
        &mut segments,
        metric,
        near,
        trials,
        seed,
    );
}

/// Like `expect_same_from`, with five candidates for each city.
fn expect_same_over<M: Metric>(
    rt: &impl Abort,
    alloc: Global,
    metric: &M,
    short: u32,
    trials: u32,
    seed: u64,
) {
    let near = near_of(rt, alloc, metric, 5);
    expect_same_from(rt, alloc, metric, &near, short, trials, seed);
}

/// Checks that trials of both tours agree for n random points.
fn expect_same_search(rt: &impl Abort, alloc: Global, n: u32, short: u32, trials: u32) {
    let seed = u64::from(n) * 3000 + u64::from(short);
    let points = drawn_places(rt, alloc, n, &mut Pcg32::seed_from_u64(seed));
    let metric = planes_of(rt, PlaneKind::Euc2d, &points);
    expect_same_over(rt, alloc, &metric, short, trials, seed);
}

#[test]
fn same_trials_in_both_stores(rt: HostRuntime) {
    for n in 8..40 {
        for short in 1..5 {
            expect_same_search(&rt, rt.alloc(), n, short, 8);
        }
    }
    expect_same_search(&rt, rt.alloc(), 300, 20, 10);
}
