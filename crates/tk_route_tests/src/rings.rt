//! Worked examples of rings: routes become a ring, and a ring becomes routes.
ghost use Rattle.tk_lists.specs.Solution.{lists_of};
ghost use Rattle.tk_routes.specs.Cvrps.{instance_of};
ghost use Rattle.tk_routes.specs.Routes.{AreRoutes};

use crate::given::{
    TWO_SIDES, claim, cvrp_of, expect, expect_back, expect_list, expect_valid, problem_of,
};
use std::alloc::Global;
use std::process::Abort;
use tk_rings::{ring_demands, ring_nodes, ring_of};
use tk_routes::Cvrp;
use tk_text::{Problem, SolText};

/// One customer, and a depot that is the second node.
const ONE_CUSTOMER: &[u8] =
    b"TYPE : CVRP\nDIMENSION : 2\nEDGE_WEIGHT_TYPE : EUC_2D\nCAPACITY : 5\nNODE_COORD_SECTION\n1 10 0\n2 0 0\n\
    DEMAND_SECTION\n1 3\n2 0\nDEPOT_SECTION\n2\n-1\nEOF\n";

/// Three customers, and a depot that is the third node.
const DEPOT_BETWEEN: &[u8] =
    b"TYPE : CVRP\nDIMENSION : 4\nEDGE_WEIGHT_TYPE : EUC_2D\nCAPACITY : 9\nNODE_COORD_SECTION\n1 10 0\n2 20 0\n\
    3 0 0\n4 30 0\nDEMAND_SECTION\n1 4\n2 5\n3 0\n4 6\nDEPOT_SECTION\n3\n-1\nEOF\n";

/// Routes, their cost, and what becomes of them.
struct Row<'a> {
    problem: &'a [u8],
    routes: &'a [&'a [u32]],
    cost: i64,
    ring: &'a [u32],
    nodes: &'a [u32],
    demands: &'a [u32],
    back: &'a [&'a [u32]],
}

static ROWS: [Row<'static>; 3] = [
    // the routes are turned and ordered on the way back
    Row {
        problem: TWO_SIDES,
        routes: &[&[4, 3], &[2, 1]],
        cost: 80,
        ring: &[5, 4, 3, 6, 2, 1, 7],
        nodes: &[2, 3, 4, 5, 1, 1, 1],
        demands: &[1, 1, 1, 1],
        back: &[&[1, 2], &[3, 4]],
    },
    // the first route uses up the capacity; customer 3 is node 4
    Row {
        problem: DEPOT_BETWEEN,
        routes: &[&[2, 1], &[3]],
        cost: 100,
        ring: &[4, 2, 1, 5, 3, 6],
        nodes: &[1, 2, 4, 3, 3, 3],
        demands: &[4, 5, 6],
        back: &[&[1, 2], &[3]],
    },
    Row {
        problem: ONE_CUSTOMER,
        routes: &[&[1]],
        cost: 20,
        ring: &[2, 1, 3],
        nodes: &[1, 2, 2],
        demands: &[3],
        back: &[&[1]],
    },
];

/// Checks the nodes of the elements of a ring with this many copies of the depot.
fn expect_nodes(rt: &impl Abort, alloc: Global, cvrp: &Cvrp<'_>, copies: usize, want: &[u32]) {
    expect(rt, copies <= 9);
    let nodes = ring_nodes(alloc, cvrp, copies as u32).expect(rt, "memory for nodes");
    expect_list(rt, &nodes, want);
}

/// Checks the demands of the customers.
fn expect_demands(rt: &impl Abort, alloc: Global, cvrp: &Cvrp<'_>, want: &[u32]) {
    let demands = ring_demands(alloc, cvrp).expect(rt, "memory for demands");
    expect_list(rt, &demands, want);
}

/// Checks the ring of routes, and the routes that are read off it.
fn expect_ring(rt: &impl Abort, alloc: Global, cvrp: &Cvrp<'_>, routes: &[Vec<u32>], row: &Row<'_>)
    requires { AreRoutes (instance_of cvrp.now) (lists_of routes.now) }
{
    let ring = ring_of(alloc, cvrp, routes).expect(rt, "memory for a ring");
    expect_list(rt, &ring, row.ring);
    expect_back(rt, alloc, cvrp, &ring, row.back);
}

/// Checks what becomes of routes of a problem.
fn expect_all(rt: &impl Abort, alloc: Global, problem: &Problem, text: &SolText, row: &Row<'_>) {
    let cvrp = cvrp_of(rt, problem);
    expect_valid(rt, alloc, &cvrp, text);
    expect_ring(rt, alloc, &cvrp, &text.routes, row);
    expect_nodes(
        rt,
        alloc,
        &cvrp,
        row.routes.len().saturating_add(1),
        row.nodes,
    );
    expect_demands(rt, alloc, &cvrp, row.demands);
}

fn expect_row(rt: &impl Abort, alloc: Global, row: &Row<'_>) {
    let problem = problem_of(rt, alloc, row.problem);
    let text = claim(rt, alloc, row.routes, row.cost);
    expect_all(rt, alloc, &problem, &text, row);
}

#[test]
fn rings_of_routes(rt: HostRuntime) {
    for row in &ROWS {
        expect_row(&rt, rt.alloc(), row);
    }
}
