//! Worked examples of routes: those of the savings algorithm, before and after they are improved.
ghost use Rattle.std.specs.Prelude.{◌≡◌};
ghost use Rattle.tk_routes.specs.Cvrps.{instance_of};
ghost use Rattle.tk_routes.specs.RouteLists.{instance_of_routes};

use crate::given::{claim, cvrp_of, expect, expect_routes, expect_valid, problem_of};
use crate::searches::TWO_SIDES;
use crate::verdicts::DEPOT_BETWEEN;
use std::alloc::Global;
use std::process::Abort;
use tk_near::near_scan;
use tk_routes::{Cvrp, RouteReport, Routes, improve, savings};

/// Like `TWO_SIDES`, but the vehicles have room for all customers.
const ROOM_FOR_ALL: &[u8] =
    b"NAME : v\nTYPE : CVRP\nDIMENSION : 5\nEDGE_WEIGHT_TYPE : EUC_2D\nCAPACITY : 4\nNODE_COORD_SECTION\n1 0 0\n\
    2 10 0\n3 11 0\n4 -10 0\n5 -11 0\nDEMAND_SECTION\n1 0\n2 1\n3 1\n4 1\n5 1\nDEPOT_SECTION\n1\n-1\nEOF\n";

const LISTED: &[u8] =
    b"NAME : v\nTYPE : CVRP\nDIMENSION : 5\nCAPACITY : 4\nEDGE_WEIGHT_TYPE : EXPLICIT\nEDGE_WEIGHT_FORMAT : UPPER_ROW\n\
    EDGE_WEIGHT_SECTION\n10 10 10 10\n10 11 11\n12 19\n20\nDEMAND_SECTION\n1 0\n2 1\n3 1\n4 1\n5 1\nDEPOT_SECTION\n1\n\
    -1\nEOF\n";

/// Three customers, and vehicles with room for two. Each pair saves 10.
const EQUAL_PAIRS: &[u8] =
    b"TYPE : CVRP\nDIMENSION : 4\nCAPACITY : 2\nEDGE_WEIGHT_TYPE : EXPLICIT\nEDGE_WEIGHT_FORMAT : UPPER_ROW\n\
    EDGE_WEIGHT_SECTION\n10 10 10\n10 10\n10\nDEMAND_SECTION\n1 0\n2 1\n3 1\n4 1\nDEPOT_SECTION\n1\n-1\nEOF\n";

/// Like `EQUAL_PAIRS`, but customers 1 and 2 save only 5 together.
const EQUAL_WITH_THE_LAST: &[u8] =
    b"TYPE : CVRP\nDIMENSION : 4\nCAPACITY : 2\nEDGE_WEIGHT_TYPE : EXPLICIT\nEDGE_WEIGHT_FORMAT : UPPER_ROW\n\
    EDGE_WEIGHT_SECTION\n10 10 10\n15 10\n10\nDEMAND_SECTION\n1 0\n2 1\n3 1\n4 1\nDEPOT_SECTION\n1\n-1\nEOF\n";

/// A problem, its savings routes, these after they are improved, and the report of that.
struct Row<'a> {
    problem: &'a [u8],
    saved: &'a [&'a [u32]],
    improved: &'a [&'a [u32]],
    report: RouteReport,
}

static ROWS: [Row<'static>; 6] = [
    // Nothing is gained on two short routes: each has three nodes, with two candidates for each node and three tests
    // for each candidate. Routes that save nothing are not joined, whether or not there is room.
    Row {
        problem: TWO_SIDES,
        saved: &[&[1, 2], &[3, 4]],
        improved: &[&[1, 2], &[3, 4]],
        report: RouteReport {
            before: 44,
            after: 44,
            moves: 0,
            tests: 36,
            swaps: 0,
        },
    },
    Row {
        problem: ROOM_FOR_ALL,
        saved: &[&[1, 2], &[3, 4]],
        improved: &[&[1, 2], &[3, 4]],
        report: RouteReport {
            before: 44,
            after: 44,
            moves: 0,
            tests: 36,
            swaps: 0,
        },
    },
    // customer 2 is node 3
    Row {
        problem: DEPOT_BETWEEN,
        saved: &[&[1, 2]],
        improved: &[&[1, 2]],
        report: RouteReport {
            before: 22,
            after: 22,
            moves: 0,
            tests: 18,
            swaps: 0,
        },
    },
    // The fourth test of the depot, which is of the segment of two that goes backward, gains 7. Then five looks of 26
    // tests each follow.
    Row {
        problem: LISTED,
        saved: &[&[3, 1, 2, 4]],
        improved: &[&[3, 2, 1, 4]],
        report: RouteReport {
            before: 60,
            after: 53,
            moves: 1,
            tests: 134,
            swaps: 1,
        },
    },
    // Of pairs with equal savings, the one with the lower first customer is joined, and then the one with the lower
    // second customer. A route of one customer takes four tests.
    Row {
        problem: EQUAL_PAIRS,
        saved: &[&[1, 2], &[3]],
        improved: &[&[1, 2], &[3]],
        report: RouteReport {
            before: 50,
            after: 50,
            moves: 0,
            tests: 22,
            swaps: 0,
        },
    },
    Row {
        problem: EQUAL_WITH_THE_LAST,
        saved: &[&[1, 3], &[2]],
        improved: &[&[1, 3], &[2]],
        report: RouteReport {
            before: 50,
            after: 50,
            moves: 0,
            tests: 22,
            swaps: 0,
        },
    },
];

/// The savings routes over the near lists of all other nodes.
fn saved_routes<'a>(rt: &impl Abort, alloc: Global, cvrp: &Cvrp<'a>) -> Routes<'a>
    ensures { instance_of_routes result ≡ instance_of cvrp.now }
{
    let near = near_scan(alloc, &cvrp.table(), cvrp.customers().min(100)).expect(
        rt,
        "memory for near lists",
    );
    savings(alloc, cvrp, &near).expect(rt, "memory for routes")
}

/// Checks that the routes are these, and have this cost.
fn expect_current(
    rt: &impl Abort,
    alloc: Global,
    cvrp: &Cvrp<'_>,
    routes: &Routes<'_>,
    want: &[&[u32]],
    cost: i64,
) {
    expect_routes(rt, routes.lists(), want);
    expect_valid(rt, alloc, cvrp, &claim(rt, alloc, want, cost));
}

/// Checks the savings routes of a row, and how they are improved.
fn expect_improved(rt: &impl Abort, alloc: Global, cvrp: &Cvrp<'_>, row: &Row<'_>) {
    let mut routes = saved_routes(rt, alloc, cvrp);
    expect_current(rt, alloc, cvrp, &routes, row.saved, row.report.before);
    let report = improve(alloc, cvrp, &mut routes, 5, 3);
    expect(rt, report == Ok(row.report));
    expect_current(rt, alloc, cvrp, &routes, row.improved, row.report.after);
}

fn expect_row(rt: &impl Abort, alloc: Global, row: &Row<'_>) {
    let problem = problem_of(rt, alloc, row.problem);
    expect_improved(rt, alloc, &cvrp_of(rt, &problem), row);
}

#[test]
fn savings_routes_are_improved(rt: HostRuntime) {
    for row in &ROWS {
        expect_row(&rt, rt.alloc(), row);
    }
}
