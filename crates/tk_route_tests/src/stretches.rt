//! Worked examples of stretches.
ghost use Rattle.tk_lists.specs.Solution.{lists_of};
ghost use Rattle.tk_rings.specs.Capacities.{IsFitting};
ghost use Rattle.tk_rings.specs.LoadedRings.{cities_in, demands_in};
ghost use Rattle.tk_rings.specs.Rings.{IsLight};
ghost use Rattle.tk_routes.specs.Cvrps.{instance_of};
ghost use Rattle.tk_routes.specs.Routes.{AreRoutes};

use crate::given::{TWO_SIDES, claim, cvrp_of, expect, expect_valid, loaded_ring, problem_of};
use std::alloc::Global;
use std::process::Abort;
use tk_rings::{Capacity, LoadedRing, Stretch, ring_demands, ring_of};
use tk_routes::Cvrp;
use tk_text::{Problem, SolText};
use tk_tour::{TourStore, UndoStore};

/// Whether a stretch contains a copy of the depot, the load before its first copy and after its last, and whether the
/// routes between two copies fit.
type Loads = (bool, u64, u64, bool);

/// The two ends of a stretch of the ring 5 4 3 6 2 1 7, whether it is read forward, and its loads.
static STRETCHES: [(u32, u32, bool, Loads); 5] = [
    (4, 3, true, (false, 2, 2, true)),
    (4, 2, true, (true, 2, 1, true)),
    (2, 4, false, (true, 1, 2, true)),
    (3, 6, true, (true, 1, 0, true)),
    (7, 7, true, (true, 0, 0, true)),
];

/// Two stretches, a capacity, and the stretch of both.
static JOINED: [(Loads, Loads, u64, Loads); 5] = [
    // the route between the copies has a load of 4
    (
        (true, 5, 1, true),
        (true, 3, 2, true),
        4,
        (true, 5, 2, true),
    ),
    (
        (true, 5, 1, true),
        (true, 3, 2, true),
        3,
        (true, 5, 2, false),
    ),
    (
        (true, 5, 1, true),
        (false, 3, 3, true),
        4,
        (true, 5, 4, true),
    ),
    (
        (false, 3, 3, true),
        (true, 3, 2, true),
        4,
        (true, 6, 2, true),
    ),
    (
        (false, 3, 3, true),
        (false, 1, 1, true),
        4,
        (false, 4, 4, true),
    ),
];

/// A stretch, a capacity, and whether the stretch fits as a ring.
static CLOSED: [(Loads, u64, bool); 4] = [
    ((true, 5, 1, true), 6, true),
    ((true, 5, 1, true), 5, false),
    ((false, 4, 4, true), 4, true),
    ((false, 4, 4, true), 3, false),
];

/// The stretch with these loads.
fn stretch_of(rt: &impl Abort, loads: Loads) -> Stretch
    ensures { IsLight result }
{
    let (parted, head, tail, fits) = loads;
    expect(rt, head <= 9);
    expect(rt, tail <= 9);
    Stretch {
        parted,
        head,
        tail,
        fits,
    }
}

/// Checks the stretch from an element of a ring to another one.
fn expect_stretch<S: UndoStore>(
    rt: &impl Abort,
    vehicles: &Capacity<'_>,
    ring: &LoadedRing<'_, S>,
    row: (u32, u32, bool, Loads),
)
    requires { IsFitting vehicles.now.capacity (demands_in ring.now) (cities_in ring.now) }
{
    let (from, to, forward, loads) = row;
    let n = ring.size();
    expect(rt, 1 <= from);
    expect(rt, from <= n);
    expect(rt, 1 <= to);
    expect(rt, to <= n);
    expect(
        rt,
        vehicles.stretch(ring, from, to, forward) == stretch_of(rt, loads),
    );
}

/// Checks the stretches of the ring of the routes 4, 3 and 2, 1.
fn expect_stretches(rt: &impl Abort, alloc: Global, cvrp: &Cvrp<'_>, routes: &[Vec<u32>])
    requires { AreRoutes (instance_of cvrp.now) (lists_of routes.now) }
{
    let ring = ring_of(alloc, cvrp, routes).expect(rt, "memory for a ring");
    let demands = ring_demands(alloc, cvrp).expect(rt, "memory for demands");
    let loaded = loaded_ring(rt, alloc, &ring, 0, &demands);
    let vehicles = Capacity {
        demands: &demands,
        capacity: cvrp.capacity() as u64,
    };
    for row in &STRETCHES {
        expect_stretch(rt, &vehicles, &loaded, *row);
    }
}

/// Like `expect_stretches`, for a problem and a solution.
fn expect_all(rt: &impl Abort, alloc: Global, problem: &Problem, text: &SolText) {
    let cvrp = cvrp_of(rt, problem);
    expect_valid(rt, alloc, &cvrp, text);
    expect_stretches(rt, alloc, &cvrp, &text.routes);
}

#[test]
fn stretches_of_a_ring(rt: HostRuntime) {
    let problem = problem_of(&rt, rt.alloc(), TWO_SIDES);
    let text = claim(&rt, rt.alloc(), &[&[4, 3], &[2, 1]], 80);
    expect_all(&rt, rt.alloc(), &problem, &text);
}

#[test]
fn joined_stretches(rt: HostRuntime) {
    for (one, other, capacity, both) in &JOINED {
        let (one, other) = (stretch_of(&rt, *one), stretch_of(&rt, *other));
        expect(&rt, one.join(other, *capacity) == stretch_of(&rt, *both));
    }
}

#[test]
fn closed_stretches(rt: HostRuntime) {
    for (loads, capacity, want) in &CLOSED {
        expect(&rt, stretch_of(&rt, *loads).is_closed(*capacity) == *want);
    }
}

#[test]
fn a_turned_stretch(rt: HostRuntime) {
    let turned = stretch_of(&rt, (true, 5, 1, true)).turned();
    expect(&rt, turned == stretch_of(&rt, (true, 1, 5, true)));
}
