//! Worked examples of descents, and each call once at concrete types.
ghost use Rattle.std.specs.Prelude.{◌≡◌, ◌≤◌, pos, length};
ghost use Rattle.tk_descent.specs.EdgeCache.{AreTrueOf};
ghost use Rattle.tk_tour.specs.ArrayTours.{order_of};
ghost use Rattle.tk_tour.specs.JournalTours.{cities_of};
ghost use Rattle.tk_tour.specs.Tour.{tour_length};

use crate::given::{
    all_awake, expect, expect_printed, expect_report, journal_of, near_of, none_awake, one_awake,
    tour_of, triangle,
};
use std::alloc::{AllocError, Global};
use std::process::Abort;
use tk_descent::{
    EdgeCache, Gains, Probe, Report, descend, descend_swept, is_local_optimum, look, make,
};
use tk_metric::{Metric, Near};
use tk_tour::{ArrayTour, JournalTour, TourStore, length};

/// Gains that wrap others, with the look that is the default of `Gains`.
#[derive(Drop)]
struct Plain<G>(G);

impl<G: Gains> Gains for Plain<G> {
    ghost size_of = { λ p. G.size_of p.0 };

    ghost distance = { λ p. G.distance p.0 };

    ghost test_count = { λ p. G.test_count p.0 };

    fn tests(&self) -> u64 {
        self.0.tests()
    }

    fn gain2(&mut self, a: u32, b: u32, c: u32, d: u32) -> i64 {
        self.0.gain2(a, b, c, d)
    }

    fn gain3(&mut self, a: u32, x: u32, e: u32, b: u32, y: u32, w: u32) -> i64 {
        self.0.gain3(a, x, e, b, y, w)
    }

    ghost symmetric = { λ p. G.symmetric p.0 };

    ghost diagonal = { λ p. G.diagonal p.0 };

    ghost distance_limit = { λ p. G.distance_limit p.0 };

    ghost count_limit = { λ p. G.count_limit p.0 };
}

/// The length of a tour of the cities of a metric.
fn length_of<M: Metric>(metric: &M, tour: &ArrayTour) -> i64
    requires { M.size_of metric.now ≡ length (order_of tour.now) }
    ensures { result ≡ pos (tour_length (M.distance metric.now) (order_of tour.now)) }
{
    length(metric, tour.order())
}

/// Makes a descent of a tour with all cities awake.
pub fn descend_awake<S: TourStore, G: Gains>(
    rt: &impl Abort,
    alloc: Global,
    tour: &mut S,
    gains: &mut G,
    near: &Near,
    or_segment: u32,
    before: i64,
) -> Report
    requires gains { G.size_of gains.old ≡ length (S.cities tour.old) }
    requires near { near.now.size ≡ length (S.cities tour.old) }
    requires most { (1 ≤ or_segment) × (or_segment ≤ 3) }
    requires before { before ≡ pos (tour_length (G.distance gains.old) (S.cities tour.old)) }
    ensures table { G.distance gains.new ≡ G.distance gains.old }
    ensures size { length (S.cities tour.new) ≡ length (S.cities tour.old) }
{
    let mut waking = all_awake(rt, alloc, tour.size());
    descend(tour, gains, near, &mut waking, or_segment, before)
}

/// Makes a swept descent of a tour, and checks that it takes this many passes. Only city 2 is awake before it, and no
/// city after it.
fn descend_in_passes<S: TourStore, G: Gains>(
    rt: &impl Abort,
    alloc: Global,
    tour: &mut S,
    gains: &mut G,
    near: &Near,
    or_segment: u32,
    before: i64,
    passes: u64,
) -> Report
    requires gains { G.size_of gains.old ≡ length (S.cities tour.old) }
    requires near { near.now.size ≡ length (S.cities tour.old) }
    requires most { (1 ≤ or_segment) × (or_segment ≤ 3) }
    requires before { before ≡ pos (tour_length (G.distance gains.old) (S.cities tour.old)) }
    ensures size { length (S.cities tour.new) ≡ length (S.cities tour.old) }
{
    let mut waking = one_awake(rt, alloc, tour.size());
    let swept = descend_swept(tour, gains, near, &mut waking, or_segment, before);
    expect(rt, swept.passes == passes);
    expect(rt, waking.take().is_none());
    swept.descent
}

/// Which cities are awake before a descent: all of them, for a swept descent of this many passes only city 2, or none.
#[derive(Clone, Copy)]
enum Awake {
    All,
    Two(u64),
    None,
}

/// Makes a descent of the tour with these cities awake.
fn descend_by<S: TourStore, G: Gains>(
    rt: &impl Abort,
    alloc: Global,
    tour: &mut S,
    gains: &mut G,
    near: &Near,
    or_segment: u32,
    before: i64,
    awake: Awake,
) -> Report
    requires gains { G.size_of gains.old ≡ length (S.cities tour.old) }
    requires near { near.now.size ≡ length (S.cities tour.old) }
    requires most { (1 ≤ or_segment) × (or_segment ≤ 3) }
    requires before { before ≡ pos (tour_length (G.distance gains.old) (S.cities tour.old)) }
    ensures size { length (S.cities tour.new) ≡ length (S.cities tour.old) }
{
    match awake {
        Awake::All => descend_awake(rt, alloc, tour, gains, near, or_segment, before),
        Awake::Two(passes) => {
            descend_in_passes(rt, alloc, tour, gains, near, or_segment, before, passes)
        }
        Awake::None => {
            let mut waking = none_awake(rt, alloc, tour.size());
            descend(tour, gains, near, &mut waking, or_segment, before)
        }
    }
}

/// The length of the near lists, and the maximum length of the segments that are moved; the cities that are awake. Then
/// the lengths before and after; the moves, looks, tests and swaps; and the canonical form of the tour after it.
type Row<'a> = ((u32, u32), Awake, [i64; 2], [u64; 4], &'a [u32]);

/// Checks that a descent of the tour has the results of the row, and ends in a local optimum unless no city is awake.
fn expect_results<M: Metric>(
    rt: &impl Abort,
    alloc: Global,
    metric: &M,
    tour: &mut ArrayTour,
    near: &Near,
    row: &Row<'_>,
)
    requires metric { M.size_of metric.now ≡ length (order_of tour.old) }
    requires near { near.now.size ≡ length (order_of tour.old) }
{
    let or_segment = row.0.1;
    expect(rt, 1 <= or_segment);
    expect(rt, or_segment <= 3);
    let before = length_of(metric, tour);
    let mut gains = Probe::new(metric);
    let report = descend_by(rt, alloc, tour, &mut gains, near, or_segment, before, row.1);
    expect_report(rt, &report, row.2, row.3);
    let is_optimum = is_local_optimum(tour, metric, near, or_segment);
    expect(rt, is_optimum == !matches!(row.1, Awake::None));
}

/// Like `expect_results`, for a tour of the cities in this order.
fn expect_descent<M: Metric>(
    rt: &impl Abort,
    alloc: Global,
    metric: &M,
    cities: &[u32],
    row: &Row<'_>,
) {
    let near = near_of(rt, alloc, metric, row.0.0);
    let mut tour = tour_of(rt, alloc, cities);
    expect(rt, tour.size() == metric.size());
    expect_results(rt, alloc, metric, &mut tour, &near, row);
    expect_printed(rt, alloc, &tour, row.4);
}

fn expect_descents<M: Metric>(
    rt: &impl Abort,
    alloc: Global,
    metric: &M,
    cities: &[u32],
    rows: &[Row<'_>],
) {
    for row in rows {
        expect_descent(rt, alloc, metric, cities, row);
    }
}

/// (0,0) (10,10) (10,0) (0,10), EUC_2D
const SQUARE: &[u32] = &[14, 10, 10, 10, 10, 14];

/// UPPER_ROW 5 1 1 6 9 5 7 8 9 1
const UNEVEN: &[u32] = &[5, 1, 9, 1, 5, 8, 6, 7, 9, 1];

/// The distances of cities, the order of the cities, and the results of descents from it.
type Descents<'a> = (&'a [u32], &'a [u32], &'a [Row<'a>]);

const DESCENTS: &[Descents<'static>] = &[
    (
        &[5],
        &[1, 2],
        &[((1, 3), Awake::All, [10, 10], [0, 2, 4, 0], &[1, 2])],
    ),
    // (0,0) (3,0) (0,4), EUC_2D
    (
        &[3, 4, 5],
        &[1, 2, 3],
        &[
            ((2, 3), Awake::All, [12, 12], [0, 3, 18, 0], &[1, 2, 3]),
            ((2, 3), Awake::Two(1), [12, 12], [0, 3, 18, 0], &[1, 2, 3]),
        ],
    ),
    // a crossing
    (
        SQUARE,
        &[1, 2, 3, 4],
        &[
            ((3, 3), Awake::All, [48, 40], [1, 5, 57, 1], &[1, 3, 2, 4]),
            ((3, 2), Awake::All, [48, 40], [1, 5, 57, 1], &[1, 3, 2, 4]),
            ((3, 1), Awake::All, [48, 40], [1, 5, 41, 1], &[1, 3, 2, 4]),
            (
                (3, 3),
                Awake::Two(2),
                [48, 40],
                [1, 9, 113, 1],
                &[1, 3, 2, 4],
            ),
            ((3, 3), Awake::None, [48, 48], [0, 0, 0, 0], &[1, 2, 3, 4]),
        ],
    ),
    // UPPER_ROW 1 2 3 4 5 6: all tours are equally long
    (
        &[1, 2, 4, 3, 5, 6],
        &[1, 2, 3, 4],
        &[((3, 3), Awake::All, [14, 14], [0, 4, 56, 0], &[1, 2, 3, 4])],
    ),
    // UPPER_ROW 10 1 10 10 1 100 10 10 10 10: a segment moves
    (
        &[10, 1, 1, 10, 100, 10, 10, 10, 10, 10],
        &[1, 2, 3, 4, 5],
        &[
            (
                (1, 3),
                Awake::All,
                [41, 32],
                [1, 6, 31, 2],
                &[1, 3, 2, 5, 4],
            ),
            (
                (1, 2),
                Awake::All,
                [41, 32],
                [1, 6, 26, 2],
                &[1, 3, 2, 5, 4],
            ),
            (
                (1, 1),
                Awake::All,
                [41, 32],
                [1, 6, 19, 2],
                &[1, 3, 2, 5, 4],
            ),
            (
                (1, 3),
                Awake::Two(2),
                [41, 32],
                [1, 11, 59, 2],
                &[1, 3, 2, 5, 4],
            ),
        ],
    ),
    // longer segments
    (
        UNEVEN,
        &[1, 2, 3, 4, 5],
        &[
            (
                (2, 1),
                Awake::All,
                [29, 21],
                [2, 7, 37, 2],
                &[1, 2, 4, 5, 3],
            ),
            (
                (2, 2),
                Awake::All,
                [29, 19],
                [3, 9, 71, 4],
                &[1, 3, 2, 5, 4],
            ),
            (
                (2, 3),
                Awake::All,
                [29, 19],
                [3, 9, 83, 4],
                &[1, 3, 2, 5, 4],
            ),
            (
                (2, 1),
                Awake::Two(2),
                [29, 21],
                [2, 12, 71, 2],
                &[1, 2, 4, 5, 3],
            ),
            (
                (2, 2),
                Awake::Two(2),
                [29, 19],
                [3, 14, 123, 4],
                &[1, 3, 2, 5, 4],
            ),
        ],
    ),
];

#[test]
fn known_descents(rt: HostRuntime) {
    for (weights, cities, rows) in DESCENTS {
        expect(&rt, cities.len() <= 16);
        let metric = triangle(&rt, cities.len() as u32, weights);
        expect_descents(&rt, rt.alloc(), &metric, cities, rows);
    }
}

/// Checks a descent of a tour with a journal, by gains with the default look.
fn expect_plain_descent<M: Metric>(
    rt: &impl Abort,
    alloc: Global,
    metric: &M,
    tour: &mut JournalTour<ArrayTour>,
    near: &Near,
)
    requires metric { M.size_of metric.now ≡ length (cities_of tour.old) }
    requires near { near.now.size ≡ length (cities_of tour.old) }
{
    let before = length_of(metric, tour.tour());
    let mut gains = Plain(Probe::new(metric));
    let report = descend_awake(rt, alloc, tour, &mut gains, near, 2, before);
    expect_report(rt, &report, [29, 19], [3, 9, 71, 4]);
}

/// Like `expect_plain_descent`, for five cities in their order.
fn expect_by_plain_gains<M: Metric>(rt: &impl Abort, alloc: Global, metric: &M) {
    let near = near_of(rt, alloc, metric, 2);
    let tour = tour_of(rt, alloc, &[1, 2, 3, 4, 5]);
    let mut tour = journal_of(rt, alloc, tour, 9);
    expect(rt, tour.size() == metric.size());
    expect_plain_descent(rt, alloc, metric, &mut tour, &near);
    expect_printed(rt, alloc, tour.tour(), &[1, 3, 2, 5, 4]);
}

#[test]
fn journal_by_plain_gains(rt: HostRuntime) {
    expect_by_plain_gains(&rt, rt.alloc(), &triangle(&rt, 5, UNEVEN));
}

/// Makes a descent with a cache of edge lengths, and returns the cache after it.
fn descend_with<M: Metric>(
    rt: &impl Abort,
    alloc: Global,
    metric: &M,
    tour: &mut ArrayTour,
    near: &Near,
    steps: EdgeCache,
) -> EdgeCache
    requires metric { M.size_of metric.now ≡ length (order_of tour.old) }
    requires near { near.now.size ≡ length (order_of tour.old) }
    requires steps { AreTrueOf (M.distance metric.now) steps }
    ensures { AreTrueOf (M.distance metric.now) result }
{
    let before = length_of(metric, tour);
    let mut gains = Probe::with_cache(metric, steps);
    let report = descend_awake(rt, alloc, tour, &mut gains, near, 2, before);
    expect_report(rt, &report, [29, 19], [3, 9, 71, 4]);
    gains.into_cache()
}

/// Like `descend_with`, for five cities in their order.
fn steps_after<M: Metric>(
    rt: &impl Abort,
    alloc: Global,
    metric: &M,
    near: &Near,
    steps: EdgeCache,
) -> EdgeCache
    requires near { near.now.size ≡ M.size_of metric.now }
    requires steps { AreTrueOf (M.distance metric.now) steps }
    ensures { AreTrueOf (M.distance metric.now) result }
{
    let mut tour = tour_of(rt, alloc, &[1, 2, 3, 4, 5]);
    expect(rt, tour.size() == metric.size());
    descend_with(rt, alloc, metric, &mut tour, near, steps)
}

/// Makes descents with the same cache, with the cache that is taken from it, and with the empty one that is left.
fn descend_remembering<M: Metric>(
    rt: &impl Abort,
    alloc: Global,
    metric: &M,
    near: &Near,
    steps: EdgeCache,
)
    requires near { near.now.size ≡ M.size_of metric.now }
    requires steps { AreTrueOf (M.distance metric.now) steps }
{
    let steps = steps_after(rt, alloc, metric, near, steps);
    let mut steps = steps_after(rt, alloc, metric, near, steps);
    let _taken = steps_after(rt, alloc, metric, near, steps.take());
    let _none = steps_after(rt, alloc, metric, near, steps);
}

#[test]
fn remembers_steps(rt: HostRuntime) -> Result<(), AllocError> {
    let metric = triangle(&rt, 5, UNEVEN);
    let steps = EdgeCache::new(rt.alloc(), 5, 2)?;
    let near = near_of(&rt, rt.alloc(), &metric, 2);
    descend_remembering(&rt, rt.alloc(), &metric, &near, steps);
    Ok(())
}

/// Checks that the first look at city 1 finds an offer, and that the look after its move finds none.
fn expect_offer_and_none<S: TourStore, G: Gains>(
    rt: &impl Abort,
    tour: &mut S,
    gains: &mut G,
    near: &Near,
)
    requires some { 1 ≤ length (S.cities tour.old) }
    requires gains { G.size_of gains.old ≡ length (S.cities tour.old) }
    requires near { near.now.size ≡ length (S.cities tour.old) }
{
    let Some(offer) = look(tour, gains, near, 3, 1) else {
        rt.panic("no offer")
    };
    expect(rt, gains.tests() == 1);
    make(tour, &offer);
    expect(rt, look(tour, gains, near, 3, 1).is_none());
    expect(rt, gains.tests() == 15);
}

fn expect_one_offer<M: Metric>(rt: &impl Abort, alloc: Global, metric: &M) {
    let near = near_of(rt, alloc, metric, 3);
    let mut tour = tour_of(rt, alloc, &[1, 2, 3, 4]);
    expect(rt, tour.size() == metric.size());
    expect_offer_and_none(rt, &mut tour, &mut Probe::new(metric), &near);
    expect_printed(rt, alloc, &tour, &[1, 3, 2, 4]);
}

#[test]
fn looks_and_makes(rt: HostRuntime) {
    expect_one_offer(&rt, rt.alloc(), &triangle(&rt, 4, SQUARE));
}

/// Checks the gains of four cities.
fn expect_gains<G: Gains>(rt: &impl Abort, gains: &mut G)
    requires { G.size_of gains.old ≡ 4 }
{
    expect(rt, gains.gain2(1, 2, 3, 4) == 8);
    expect(rt, gains.gain2(1, 3, 2, 4) == -8);
    expect(rt, gains.gain3(1, 2, 2, 3, 4, 1) == 0);
    expect(rt, gains.tests() == 3);
}

#[test]
fn gains_of_the_square(rt: HostRuntime) {
    expect_gains(&rt, &mut Probe::new(&triangle(&rt, 4, SQUARE)));
}
