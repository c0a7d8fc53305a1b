//! Worked examples of descents of rings.
ghost use Rattle.std.specs.Prelude.{◌≡◌, ◌≤◌, ◌<◌, length, pos};
ghost use Rattle.tk_lists.specs.Solution.{lists_of};
ghost use Rattle.tk_problem.specs.declared.limits.TheConstants.{CITY_LIMIT};
ghost use Rattle.tk_rings.specs.Capacities.{IsFitting};
ghost use Rattle.tk_rings.specs.LoadedRings.{cities_in, demands_in};
ghost use Rattle.tk_rings.specs.RingRoutes.{demands_of};
ghost use Rattle.tk_routes.specs.Cvrps.{instance_of};
ghost use Rattle.tk_routes.specs.Instance.{customer_count};
ghost use Rattle.tk_routes.specs.Routes.{AreRoutes};
ghost use Rattle.tk_tour.specs.Tour.{IsTour, tour_length};

use crate::given::{
    TWO_SIDES, claim, cvrp_of, expect, expect_back, expect_valid, loaded_ring, problem_of,
};
use std::alloc::Global;
use std::process::Abort;
use tk_descent::{Probe, Report, Waking};
use tk_distance::{Metric, Sub};
use tk_near::near_scan;
use tk_rings::{Capacity, LoadedRing, descend_ring, ring_demands, ring_nodes, ring_of};
use tk_routes::Cvrp;
use tk_text::{Problem, SolText};
use tk_tour::{UndoStore, length};

/// Two customers on one side of the depot, with a capacity of 2.
const ONE_SIDE: &[u8] =
    b"TYPE : CVRP\nDIMENSION : 3\nEDGE_WEIGHT_TYPE : EUC_2D\nCAPACITY : 2\nNODE_COORD_SECTION\n1 0 0\n2 10 0\n\
    3 11 0\nDEMAND_SECTION\n1 0\n2 1\n3 1\nDEPOT_SECTION\n1\n-1\nEOF\n";

/// Like `ONE_SIDE`, with a capacity of 1.
const SMALL_VANS: &[u8] =
    b"TYPE : CVRP\nDIMENSION : 3\nEDGE_WEIGHT_TYPE : EUC_2D\nCAPACITY : 1\nNODE_COORD_SECTION\n1 0 0\n2 10 0\n\
    3 11 0\nDEMAND_SECTION\n1 0\n2 1\n3 1\nDEPOT_SECTION\n1\n-1\nEOF\n";

/// Like `SMALL_VANS`, but customer 1 has no demand.
const NO_DEMAND: &[u8] =
    b"TYPE : CVRP\nDIMENSION : 3\nEDGE_WEIGHT_TYPE : EUC_2D\nCAPACITY : 1\nNODE_COORD_SECTION\n1 0 0\n2 10 0\n\
    3 11 0\nDEMAND_SECTION\n1 0\n2 0\n3 1\nDEPOT_SECTION\n1\n-1\nEOF\n";

/// Customer 1 fits between 3 and 4 alone: all other steps from it are long, as are those between 3 or 4 and the depot.
const BETWEEN: &[u8] =
    b"TYPE : CVRP\nDIMENSION : 6\nCAPACITY : 5\nEDGE_WEIGHT_TYPE : EXPLICIT\nEDGE_WEIGHT_FORMAT : UPPER_ROW\n\
    EDGE_WEIGHT_SECTION\n20 50 100 100 10\n100 15 15 100\n10 100 100\n10 100\n10\nDEMAND_SECTION\n1 0\n2 1\n3 1\n4 1\n\
    5 1\n6 1\nDEPOT_SECTION\n1\n-1\nEOF\n";

/// Like `BETWEEN`, with a capacity of 4.
const NO_ROOM_BETWEEN: &[u8] =
    b"TYPE : CVRP\nDIMENSION : 6\nCAPACITY : 4\nEDGE_WEIGHT_TYPE : EXPLICIT\nEDGE_WEIGHT_FORMAT : UPPER_ROW\n\
    EDGE_WEIGHT_SECTION\n20 50 100 100 10\n100 15 15 100\n10 100 100\n10 100\n10\nDEMAND_SECTION\n1 0\n2 1\n3 1\n4 1\n\
    5 1\n6 1\nDEPOT_SECTION\n1\n-1\nEOF\n";

/// Routes before and after a descent of their ring with all elements awake, with their costs and the number of moves.
struct Row<'a> {
    problem: &'a [u8],
    start: &'a [&'a [u32]],
    end: &'a [&'a [u32]],
    costs: [i64; 2],
    moves: u64,
}

static ROWS: [Row<'static>; 6] = [
    // the routes are joined, which uses up the capacity
    Row {
        problem: ONE_SIDE,
        start: &[&[1], &[2]],
        end: &[&[1, 2]],
        costs: [42, 22],
        moves: 1,
    },
    // the same move is rejected only because of the capacity
    Row {
        problem: SMALL_VANS,
        start: &[&[1], &[2]],
        end: &[&[1], &[2]],
        costs: [42, 42],
        moves: 0,
    },
    // a 2-opt move exchanges the ends of two full routes
    Row {
        problem: TWO_SIDES,
        start: &[&[1, 4], &[2, 3]],
        end: &[&[1, 2], &[3, 4]],
        costs: [120, 80],
        moves: 1,
    },
    // an Or-opt move puts the only customer of a route between two others, which uses up the capacity
    Row {
        problem: BETWEEN,
        start: &[&[1], &[2, 3, 4, 5]],
        end: &[&[2, 3, 1, 4, 5]],
        costs: [130, 110],
        moves: 1,
    },
    // There is no room for customer 1 between the others. So customer 5, at the end of their route, becomes a route of
    // its own, and customer 1 takes its place.
    Row {
        problem: NO_ROOM_BETWEEN,
        start: &[&[1], &[2, 3, 4, 5]],
        end: &[&[1, 4, 3, 2], &[5]],
        costs: [130, 125],
        moves: 1,
    },
    // a customer without a demand fits on a full route
    Row {
        problem: NO_DEMAND,
        start: &[&[1], &[2]],
        end: &[&[1, 2]],
        costs: [42, 22],
        moves: 1,
    },
];

/// The number of flips that a ring can undo.
const SLOTS: u32 = 100;

/// The length of a ring.
fn length_of<M: Metric>(metric: &M, ring: &[u32]) -> i64
    requires size { M.size_of metric.now ≡ length ring.now }
    requires ring { IsTour (length ring.now) ring.now }
    requires few { length ring.now ≤ CITY_LIMIT }
    ensures { result ≡ pos (tour_length (M.distance metric.now) ring.now) }
{
    length(metric, ring)
}

/// Makes a descent of a ring with all elements awake.
fn descend_awake<S: UndoStore, M: Metric>(
    rt: &impl Abort,
    alloc: Global,
    metric: &M,
    vehicles: &Capacity<'_>,
    ring: &mut LoadedRing<'_, S>,
    before: i64,
) -> Report
    requires size { M.size_of metric.now ≡ length (cities_in ring.old) }
    requires before { before ≡ pos (tour_length (M.distance metric.now) (cities_in ring.old)) }
    requires suits { demands_in ring.old ≡ vehicles.now.demands.now }
    requires fits { IsFitting vehicles.now.capacity vehicles.now.demands.now (cities_in ring.old) }
    ensures fits { IsFitting vehicles.now.capacity vehicles.now.demands.now (cities_in ring.new) }
    ensures ring { IsTour (length (cities_in ring.old)) (cities_in ring.new) }
{
    let n = metric.size();
    let near = near_scan(alloc, metric, (n - 1).min(100)).expect(rt, "memory for near lists");
    let mut waking = Waking::new(alloc, n).expect(rt, "memory for the elements awake");
    waking.wake_all();
    descend_ring(
        ring,
        &mut Probe::new(metric),
        vehicles,
        &near,
        &mut waking,
        3,
        before,
    )
}

/// Checks a descent of a ring, and the routes that are read off it.
fn expect_descent<M: Metric>(
    rt: &impl Abort,
    alloc: Global,
    cvrp: &Cvrp<'_>,
    metric: &M,
    vehicles: &Capacity<'_>,
    ring: &[u32],
    row: &Row<'_>,
)
    requires size { M.size_of metric.now ≡ length ring.now }
    requires ring { IsTour (length ring.now) ring.now }
    requires few { length ring.now ≤ CITY_LIMIT }
    requires copies { customer_count (instance_of cvrp.now) < length ring.now }
    requires vehicles { (vehicles.now.capacity ≡ (instance_of cvrp.now).capacity)
        × (vehicles.now.demands.now ≡ demands_of (instance_of cvrp.now)) }
    requires fits { IsFitting vehicles.now.capacity vehicles.now.demands.now ring.now }
{
    let before = length_of(metric, ring);
    let mut loaded = loaded_ring(rt, alloc, ring, SLOTS, vehicles.demands);
    let report = descend_awake(rt, alloc, metric, vehicles, &mut loaded, before);
    expect(rt, [report.before, report.after] == row.costs);
    expect(rt, report.moves == row.moves);
    expect_back(rt, alloc, cvrp, loaded.tour().order(), row.end);
}

/// Checks a descent of the ring of routes.
fn expect_from(rt: &impl Abort, alloc: Global, cvrp: &Cvrp<'_>, routes: &[Vec<u32>], row: &Row<'_>)
    requires { AreRoutes (instance_of cvrp.now) (lists_of routes.now) }
{
    let ring = ring_of(alloc, cvrp, routes).expect(rt, "memory for a ring");
    let nodes = ring_nodes(alloc, cvrp, routes.len() as u32 + 1).expect(rt, "memory for nodes");
    let demands = ring_demands(alloc, cvrp).expect(rt, "memory for demands");
    let vehicles = Capacity {
        demands: &demands,
        capacity: cvrp.capacity() as u64,
    };
    let table = cvrp.table();
    expect_descent(
        rt,
        alloc,
        cvrp,
        &Sub::new(&table, &nodes),
        &vehicles,
        &ring,
        row,
    );
}

/// Checks that both solutions are valid, and a descent from the routes of the first.
fn expect_all(rt: &impl Abort, alloc: Global, problem: &Problem, start: &SolText, row: &Row<'_>) {
    let cvrp = cvrp_of(rt, problem);
    expect_valid(rt, alloc, &cvrp, start);
    expect_from(rt, alloc, &cvrp, &start.routes, row);
    expect_valid(rt, alloc, &cvrp, &claim(rt, alloc, row.end, row.costs[1]));
}

fn expect_row(rt: &impl Abort, alloc: Global, row: &Row<'_>) {
    let problem = problem_of(rt, alloc, row.problem);
    let start = claim(rt, alloc, row.start, row.costs[0]);
    expect_all(rt, alloc, &problem, &start, row);
}

#[test]
fn descents_of_rings(rt: HostRuntime) {
    for row in &ROWS {
        expect_row(&rt, rt.alloc(), row);
    }
}
