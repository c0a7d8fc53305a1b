//! Inputs of tests. A test fails if memory runs out.
ghost use Rattle.std.specs.Prelude.{◌≡◌, ◌<◌, true, IfOk, length};
ghost use Rattle.tk_lists.specs.Solution.{lists_of};
ghost use Rattle.tk_rings.specs.Capacities.{IsFitting};
ghost use Rattle.tk_rings.specs.LoadedRings.{cities_in, demands_in};
ghost use Rattle.tk_rings.specs.RingRoutes.{demands_of};
ghost use Rattle.tk_routes.specs.Cvrps.{instance_of};
ghost use Rattle.tk_routes.specs.Instance.{customer_count};
ghost use Rattle.tk_routes.specs.Routes.{AreRoutes};
ghost use Rattle.tk_tour.specs.ArrayTours.{order_of};
ghost use Rattle.tk_tour.specs.Tour.{IsTour};

use std::alloc::{AllocError, Global};
use std::process::Abort;
use tk_rings::{LoadedRing, routes_of};
use tk_routes::{Cvrp, RouteVerdict, check_routes};
use tk_text::{FromRead, Problem, SolText, read_problem};
use tk_tour::ArrayTour;

/// Checks that a condition is true. The proof of a call is much shorter than that of an `assert!`.
pub fn expect(rt: &impl Abort, is: bool)
    ensures { is ≡ true }
{
    assert!(rt; is);
}

/// Checks that a list has these elements.
pub fn expect_list(rt: &impl Abort, list: &[u32], want: &[u32]) {
    expect(rt, list == want);
}

/// Checks that these are the bytes of a text.
pub fn expect_bytes(rt: &impl Abort, bytes: &[u8], want: &[u8]) {
    expect(rt, bytes == want);
}

/// Two customers on each side of the depot, and vehicles with room for two.
pub const TWO_SIDES: &[u8] =
    b"TYPE : CVRP\nDIMENSION : 5\nEDGE_WEIGHT_TYPE : EUC_2D\nCAPACITY : 2\nNODE_COORD_SECTION\n1 0 0\n2 10 0\n\
    3 20 0\n4 -10 0\n5 -20 0\nDEMAND_SECTION\n1 0\n2 1\n3 1\n4 1\n5 1\nDEPOT_SECTION\n1\n-1\nEOF\n";

/// Reads a problem text.
pub fn problem_of(rt: &impl Abort, alloc: Global, text: &[u8]) -> Problem {
    read_problem(alloc, &mut FromRead::new(text)).expect(rt, "a problem")
}

/// A ring in the order of the list.
pub fn ring_of(rt: &impl Abort, alloc: Global, elements: &[u32]) -> ArrayTour
    ensures { order_of result ≡ elements.now }
{
    ArrayTour::from_list(alloc, elements).expect(rt, "a ring")
}

/// A ring in the order of the list, with the demands of its customers, that can undo this many flips.
pub fn loaded_ring<'a>(
    rt: &impl Abort,
    alloc: Global,
    elements: &[u32],
    slots: u32,
    demands: &'a [u32],
) -> LoadedRing<'a, ArrayTour>
    ensures order { cities_in result ≡ elements.now }
    ensures demands { demands_in result ≡ demands.entry.now }
{
    let ring = ring_of(rt, alloc, elements);
    LoadedRing::new(alloc, ring, slots, demands).expect(rt, "memory for a ring")
}

/// The CVRP of a problem.
pub fn cvrp_of<'a>(rt: &impl Abort, problem: &'a Problem) -> Cvrp<'a> {
    Cvrp::of(problem).expect(rt, "routing")
}

/// A solution with these routes and this cost.
pub fn claim(rt: &impl Abort, alloc: Global, routes: &[&[u32]], cost: i64) -> SolText {
    let mut lists = Vec::new(alloc);
    for route in routes {
        let list = route.to_vec(alloc).expect(rt, "memory for a route");
        lists.push(list).expect(rt, "memory for routes");
    }
    SolText {
        routes: lists,
        cost,
    }
}

/// Whether the routes are valid, none of them is empty, and the cost is theirs.
fn are_valid(alloc: Global, cvrp: &Cvrp<'_>, text: &SolText) -> Result<bool, AllocError>
    ensures { IfOk result (λ v. v ≡ true
        → AreRoutes (instance_of cvrp.now) (lists_of text.now.routes.items)) }
{
    match check_routes(alloc, cvrp, text)? {
        RouteVerdict::Valid { routes, cost: _ } => Ok(routes == text.routes.len() as u64),
        _ => Ok(false),
    }
}

/// Checks that the routes are valid, that none of them is empty, and that the cost is theirs.
pub fn expect_valid(rt: &impl Abort, alloc: Global, cvrp: &Cvrp<'_>, text: &SolText)
    ensures { AreRoutes (instance_of cvrp.now) (lists_of text.now.routes.items) }
{
    let valid = are_valid(alloc, cvrp, text).expect(rt, "memory for a check");
    expect(rt, valid);
}

/// Checks that these are the routes.
pub fn expect_routes(rt: &impl Abort, routes: &[Vec<u32>], want: &[&[u32]]) {
    expect(rt, routes.len() == want.len());
    for k in 0..want.len() {
        expect_list(rt, &routes[k], want[k]);
    }
}

/// Checks the routes that are read off a ring.
pub fn expect_back(rt: &impl Abort, alloc: Global, cvrp: &Cvrp<'_>, ring: &[u32], want: &[&[u32]])
    requires ring { IsTour (length ring.now) ring.now }
    requires copies { customer_count (instance_of cvrp.now) < length ring.now }
    requires fits { IsFitting (instance_of cvrp.now).capacity (demands_of (instance_of cvrp.now)) ring.now }
{
    let routes = routes_of(alloc, cvrp, ring).expect(rt, "memory for routes");
    expect_routes(rt, &routes, want);
}
