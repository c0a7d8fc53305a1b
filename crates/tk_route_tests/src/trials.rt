//! Searches of small rings.
ghost use Rattle.std.specs.Prelude.{◌≡◌, length};
ghost use Rattle.tk_rings.specs.Capacities.{IsFitting};
ghost use Rattle.tk_tour.specs.ArrayTours.{order_of};

use crate::given::{expect, ring_of};
use crate::line::{DEMANDS, line};
use rand_core::SeedableRng;
use rand_pcg::Pcg32;
use std::alloc::Global;
use std::process::Abort;
use tk_distance::Metric;
use tk_near::{Near, near_scan};
use tk_ring_search::{Outcome, RingSearch, RingTerms};
use tk_rings::Capacity;
use tk_tour::{ArrayTour, UndoStore};

// A search, and the numbers of its trials and kicks, the cost of its start, and that of its best ring.
struct Row {
    sweep: bool,
    trials: u64,
    kicks: u64,
    costs: [i64; 2],
}

// Checks a trial, which is idle if there are no kicks, and returns the number of kicks that it drew.
fn make_trial<S: UndoStore, M: Metric>(
    rt: &impl Abort,
    search: &mut RingSearch<'_, S, M>,
    rng: &mut Pcg32,
    row: &Row,
) -> u32 {
    let trial = search.trial(rng).expect(rt, "a trial");
    expect(rt, (trial.outcome == Outcome::Idle) == (row.kicks == 0));
    expect(rt, trial.passes == u64::from(0 < row.kicks) || row.sweep);
    trial.draws
}

// Makes all trials, and returns the number of kicks that they drew.
fn make_trials<S: UndoStore, M: Metric>(
    rt: &impl Abort,
    search: &mut RingSearch<'_, S, M>,
    row: &Row,
) -> u64 {
    let mut rng = Pcg32::seed_from_u64(1);
    let mut draws = 0u64;
    for _ in 0..row.trials {
        draws = draws.saturating_add(u64::from(make_trial(rt, search, &mut rng, row)));
    }
    expect(rt, search.trial(&mut rng).is_none());
    draws
}

// Checks the totals of a search after all trials.
fn expect_totals<S: UndoStore, M: Metric>(
    rt: &impl Abort,
    search: &RingSearch<'_, S, M>,
    draws: u64,
    row: &Row,
) {
    let totals = search.totals();
    expect(rt, totals.trials == row.trials);
    expect(rt, totals.kicks == row.kicks);
    expect(rt, totals.start == row.costs[0]);
    expect(rt, search.shortest() == row.costs[1]);
    expect(rt, totals.draws == u128::from(draws));
    expect(rt, (draws == 0) == (row.kicks == 0));
}

// Checks a search from a ring.
fn expect_search<M: Metric>(
    rt: &impl Abort,
    alloc: Global,
    metric: &M,
    near: &Near,
    vehicles: Capacity<'_>,
    ring: ArrayTour,
    row: &Row,
)
    requires sizes { (M.size_of metric.now ≡ length (order_of ring))
        × (near.now.size ≡ length (order_of ring)) }
    requires fits { IsFitting vehicles.capacity vehicles.demands.now (order_of ring) }
{
    let terms = RingTerms {
        metric,
        near,
        vehicles,
        or_segment: 3,
        sweep: row.sweep,
        trials: row.trials,
    };
    let mut search = RingSearch::begin(alloc, terms, ring).expect(rt, "memory for a search");
    let draws = make_trials(rt, &mut search, row);
    expect_totals(rt, &search, draws, row);
    expect(rt, search.best().len() == metric.size() as usize);
}

// The near lists of a ring.
fn near_of<M: Metric>(rt: &impl Abort, alloc: Global, metric: &M) -> Near
    ensures { result.size ≡ M.size_of metric.now }
{
    expect(rt, 5 < metric.size());
    near_scan(alloc, metric, 5).expect(rt, "memory for near lists")
}

// Six customers, and three copies of the depot: the rows of the triangle below the diagonal.
const SIX: [u32; 36] = [
    1, 2, 1, 3, 2, 1, 4, 3, 2, 1, 5, 4, 3, 2, 1, 1, 2, 3, 4, 5, 6, 1, 2, 3, 4, 5, 6, 0, 1, 2, 3, 4,
    5, 6, 0, 0,
];

// Searches with and without sweeps.
const OF_SIX: [Row; 2] = [
    Row {
        sweep: false,
        trials: 30,
        kicks: 30,
        costs: [24, 18],
    },
    Row {
        sweep: true,
        trials: 30,
        kicks: 30,
        costs: [24, 18],
    },
];

#[test]
fn finds_the_shortest_routes(rt: HostRuntime) {
    let metric = line(&rt, 9, &SIX);
    let near = near_of(&rt, rt.alloc(), &metric);
    let vans = Capacity {
        demands: &DEMANDS,
        capacity: 3,
    };
    for row in &OF_SIX {
        let ring = ring_of(&rt, rt.alloc(), &[7, 1, 4, 2, 8, 5, 3, 6, 9]);
        expect_search(&rt, rt.alloc(), &metric, &near, vans, ring, row);
    }
}

// Four customers and three copies of the depot, too few elements for a kick: the customers are 1 to 4, at the distances
// 1 to 4 from the depot.
const FOUR: [u32; 21] = [
    1, 2, 1, 3, 2, 1, 1, 2, 3, 4, 1, 2, 3, 4, 0, 1, 2, 3, 4, 0, 0,
];

const OF_FOUR: Row = Row {
    sweep: false,
    trials: 1,
    kicks: 0,
    costs: [14, 12],
};

#[test]
fn few_elements_are_not_kicked(rt: HostRuntime) {
    let metric = line(&rt, 7, &FOUR);
    let near = near_of(&rt, rt.alloc(), &metric);
    let vans = Capacity {
        demands: &[1, 1, 1, 1],
        capacity: 2,
    };
    let ring = ring_of(&rt, rt.alloc(), &[5, 1, 3, 6, 2, 4, 7]);
    expect_search(&rt, rt.alloc(), &metric, &near, vans, ring, &OF_FOUR);
}
