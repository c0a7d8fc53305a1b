//! Examples of searches. The numbers are those of another program, which was written from the rules of the search.
ghost use Rattle.std.specs.Prelude.{◌≡◌};

use crate::given::{expect, expect_list, expect_report, near_of, tour_of, triangle};
use crate::places::{WHOLE, places, planes_of};
use rand_core::SeedableRng;
use rand_pcg::Pcg32;
use std::alloc::Global;
use std::process::Abort;
use tk_build::{Search, SearchRules, Totals, TrialReport};
use tk_metric::{Metric, Near};
use tk_text::PlaneKind;
use tk_tour::TourStore;

// A search that starts from a list.
fn begin<'a, M: Metric>(
    rt: &impl Abort,
    alloc: Global,
    metric: &'a M,
    near: &'a Near,
    start: &[u32],
    rules: SearchRules,
) -> Search<'a, M>
    requires { near.now.size ≡ M.size_of metric.now }
{
    let start = tour_of(rt, alloc, start);
    expect(rt, start.size() == metric.size());
    expect(rt, 1 <= rules.or_segment);
    expect(rt, rules.or_segment <= 3);
    Search::new(alloc, metric, near, start, rules).expect(rt, "memory for a search")
}

// Checks the lengths before and after a trial, and its moves, looks, tests, swaps and passes.
fn expect_trial(rt: &impl Abort, report: &TrialReport, lengths: [i64; 2], counts: [u64; 5]) {
    let [moves, looks, tests, swaps, passes] = counts;
    expect_report(rt, &report.descent, lengths, [moves, looks, tests, swaps]);
    expect(rt, report.passes == passes);
}

// A search on fewer than 8 cities, which makes a single trial. The counters are those for segments of at most 1, 2 and
// 3 cities, first without and then with a final sweep.
struct Few<'a> {
    weights: &'a [u32],
    width: u32,
    start: &'a [u32],
    lengths: [i64; 2],
    best: &'a [u32],
    counts: &'a [[u64; 5]; 6],
}

const FEW: &[Few<'static>] = &[
    Few {
        weights: &[5],
        width: 1,
        start: &[1, 2],
        lengths: [10, 10],
        best: &[1, 2],
        counts: &[[0, 2, 4, 0, 1]; 6],
    },
    Few {
        weights: &[3, 4, 5],
        width: 2,
        start: &[1, 2, 3],
        lengths: [12, 12],
        best: &[1, 2, 3],
        counts: &[[0, 3, 18, 0, 1]; 6],
    },
    Few {
        weights: &[14, 10, 10, 10, 10, 14],
        width: 3,
        start: &[1, 2, 3, 4],
        lengths: [48, 40],
        best: &[1, 3, 2, 4],
        counts: &[
            [1, 5, 41, 1, 1],
            [1, 5, 57, 1, 1],
            [1, 5, 57, 1, 1],
            [1, 9, 81, 1, 2],
            [1, 9, 113, 1, 2],
            [1, 9, 113, 1, 2],
        ],
    },
    Few {
        weights: &[10, 1, 1, 10, 100, 10, 10, 10, 10, 10],
        width: 1,
        start: &[1, 2, 3, 4, 5],
        lengths: [41, 32],
        best: &[1, 3, 2, 5, 4],
        counts: &[
            [1, 6, 19, 2, 1],
            [1, 6, 26, 2, 1],
            [1, 6, 31, 2, 1],
            [1, 11, 35, 2, 2],
            [1, 11, 49, 2, 2],
            [1, 11, 59, 2, 2],
        ],
    },
];

// Checks that a search on few cities makes one trial, and then none.
fn expect_trials<M: Metric>(rt: &impl Abort, search: &mut Search<M>, few: &Few, k: usize) {
    expect(rt, k < 6);
    let mut rng = Pcg32::seed_from_u64(1);
    let [_, after] = few.lengths;
    expect_trial(rt, &search.trial(&mut rng), few.lengths, few.counts[k]);
    expect_trial(rt, &search.trial(&mut rng), [after, after], [0; 5]);
    expect(rt, search.totals().trials == 1);
    expect_list(rt, search.best(), few.best);
}

// Checks a search on few cities by the rules with this number.
fn expect_few_by<M: Metric>(
    rt: &impl Abort,
    alloc: Global,
    metric: &M,
    near: &Near,
    few: &Few,
    k: usize,
)
    requires { near.now.size ≡ M.size_of metric.now }
{
    expect_search(rt, alloc, metric, near, &Course::Few(few, k));
}

fn expect_few(rt: &impl Abort, alloc: Global, few: &Few) {
    expect(rt, few.start.len() <= 16);
    let metric = triangle(rt, few.start.len() as u32, few.weights);
    let near = near_of(rt, alloc, &metric, few.width);
    for k in 0..6 {
        expect_few_by(rt, alloc, &metric, &near, few, k);
    }
}

#[test]
fn one_trial_on_few_cities(rt: HostRuntime) {
    for few in FEW {
        expect_few(&rt, rt.alloc(), few);
    }
}

// A search in the plane, with the totals after some of its trials: trials, better, moves, gained, tests, swaps,
// undo_swaps, copied and passes.
struct Many<'a> {
    corners: &'a [(u16, u16)],
    width: u32,
    start: &'a [u32],
    length: i64,
    sweep: bool,
    seed: u64,
    totals: &'a [[u128; 9]],
    best: &'a [u32],
}

fn totals(start: i64, counts: [u128; 9]) -> Totals {
    let [
        trials,
        better,
        moves,
        gained,
        tests,
        swaps,
        undo_swaps,
        copied,
        passes,
    ] = counts;
    Totals {
        start,
        trials,
        better,
        moves,
        gained,
        tests,
        swaps,
        undo_swaps,
        copied,
        passes,
    }
}

// After a kick, few cities are awake: there are at most 8 looks, and 6 more for each move, with 4 * 3 * 5 tests each.
fn expect_few_looks(rt: &impl Abort, report: &TrialReport) {
    let moves = report.descent.moves as u128;
    expect(rt, report.descent.looks as u128 <= 8 + 6 * moves);
    expect(rt, report.descent.tests as u128 <= 480 + 360 * moves);
}

// Makes trials up to the one with this number.
fn run<M: Metric>(
    rt: &impl Abort,
    search: &mut Search<M>,
    rng: &mut Pcg32,
    last: u128,
    sweep: bool,
) {
    for _ in search.totals().trials..last {
        let report = search.trial(rng);
        if report.kicked && !sweep {
            expect_few_looks(rt, &report);
        }
    }
}

// Makes trials, and checks the totals after them.
fn expect_after<M: Metric>(
    rt: &impl Abort,
    search: &mut Search<M>,
    rng: &mut Pcg32,
    want: &Totals,
    sweep: bool,
) {
    run(rt, search, rng, want.trials, sweep);
    expect(rt, search.totals() == *want);
}

// Checks that the trials of a search have these totals and lead to this tour.
fn expect_all_totals<M: Metric>(rt: &impl Abort, search: &mut Search<M>, many: &Many) {
    let mut rng = Pcg32::seed_from_u64(many.seed);
    for counts in many.totals {
        let want = totals(many.length, *counts);
        expect_after(rt, search, &mut rng, &want, many.sweep);
    }
    expect_list(rt, search.best(), many.best);
}

// A search on few cities, with the number of its rules and counters, or one on many.
#[derive(Drop)]
enum Course<'a> {
    Few(&'a Few<'a>, usize),
    Many(&'a Many<'a>),
}

// The list that a search starts from, and its rules.
fn start_of<'a>(course: &Course<'a>) -> (&'a [u32], SearchRules) {
    match course {
        Course::Few(few, k) => (
            few.start,
            SearchRules {
                sweep: 3 <= *k,
                or_segment: (*k % 3) as u32 + 1,
            },
        ),
        Course::Many(many) => (
            many.start,
            SearchRules {
                sweep: many.sweep,
                or_segment: 3,
            },
        ),
    }
}

// Checks the trials of a search.
fn expect_course<M: Metric>(rt: &impl Abort, search: &mut Search<M>, course: &Course<'_>) {
    match course {
        Course::Few(few, k) => expect_trials(rt, search, few, *k),
        Course::Many(many) => expect_all_totals(rt, search, many),
    }
}

// Checks the course of a search.
fn expect_search<M: Metric>(
    rt: &impl Abort,
    alloc: Global,
    metric: &M,
    near: &Near,
    course: &Course<'_>,
)
    requires { near.now.size ≡ M.size_of metric.now }
{
    let (start, rules) = start_of(course);
    let mut search = begin(rt, alloc, metric, near, start, rules);
    expect_course(rt, &mut search, course);
}

fn expect_many(rt: &impl Abort, alloc: Global, many: &Many) {
    let points = places(rt, alloc, many.corners, WHOLE);
    let metric = planes_of(rt, PlaneKind::Man2d, &points);
    let near = near_of(rt, alloc, &metric, many.width);
    expect_search(rt, alloc, &metric, &near, &Course::Many(many));
}

// Sixteen points in a row.
const ROW: &[(u16, u16)] = &[
    (0, 0),
    (1, 0),
    (2, 0),
    (3, 0),
    (4, 0),
    (5, 0),
    (6, 0),
    (7, 0),
    (8, 0),
    (9, 0),
    (10, 0),
    (11, 0),
    (12, 0),
    (13, 0),
    (14, 0),
    (15, 0),
];

// Nine points; the shortest of all tours has length 34.
const NINE: &[(u16, u16)] = &[
    (1, 4),
    (7, 7),
    (2, 5),
    (1, 2),
    (9, 3),
    (6, 6),
    (3, 6),
    (1, 8),
    (5, 4),
];

const MANY: &[Many<'static>] = &[
    Many {
        corners: ROW,
        width: 5,
        start: &[1, 2, 3, 4, 5, 6, 7, 8, 9, 10, 11, 12, 13, 14, 15, 16],
        length: 30,
        sweep: false,
        seed: 1,
        totals: &[[50, 0, 104, 462, 18535, 456, 456, 0, 50]],
        best: &[1, 2, 3, 4, 5, 6, 7, 8, 9, 10, 11, 12, 13, 14, 15, 16],
    },
    Many {
        corners: NINE,
        width: 4,
        start: &[1, 2, 3, 4, 5, 6, 7, 8, 9],
        length: 54,
        sweep: false,
        seed: 7,
        totals: &[
            [1, 1, 5, 18, 313, 6, 0, 9, 1],
            // copied back
            [2, 1, 11, 32, 637, 20, 0, 18, 2],
            // undone
            [3, 1, 13, 42, 867, 26, 6, 18, 3],
            [6, 1, 17, 62, 1456, 36, 16, 18, 6],
            // better
            [7, 2, 23, 74, 1891, 50, 16, 27, 7],
            [12, 2, 39, 136, 3498, 95, 34, 45, 12],
        ],
        best: &[9, 4, 1, 8, 3, 7, 6, 2, 5],
    },
    Many {
        corners: NINE,
        width: 4,
        start: &[1, 2, 3, 4, 5, 6, 7, 8, 9],
        length: 54,
        sweep: true,
        seed: 7,
        totals: &[[12, 2, 36, 102, 7022, 88, 25, 63, 23]],
        best: &[7, 8, 4, 1, 3, 9, 5, 2, 6],
    },
];

#[test]
fn later_trials(rt: HostRuntime) {
    for many in MANY {
        expect_many(&rt, rt.alloc(), many);
    }
}
