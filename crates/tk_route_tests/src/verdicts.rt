//! Worked examples of the check of routes.

use crate::given::{claim, cvrp_of, expect, problem_of};
use crate::searches::TWO_SIDES;
use std::alloc::Global;
use std::process::Abort;
use tk_routes::{Cvrp, RouteVerdict, check_routes};

/// The depot is the second of three nodes.
pub const DEPOT_BETWEEN: &[u8] =
    b"NAME : v\nTYPE : CVRP\nDIMENSION : 3\nEDGE_WEIGHT_TYPE : EUC_2D\nCAPACITY : 2\nNODE_COORD_SECTION\n1 10 0\n\
    2 0 0\n3 11 0\nDEMAND_SECTION\n1 1\n2 0\n3 1\nDEPOT_SECTION\n2\n-1\nEOF\n";

/// A problem, routes and the cost that they are said to have, and the verdict on them.
type Row<'a> = (&'a [u8], &'a [&'a [u32]], i64, RouteVerdict);

/// An empty route counts only in the numbering of the routes. A fault of a customer is reported before one of capacity,
/// then a customer that is not served, and at last a wrong cost.
static ROWS: [Row<'static>; 12] = [
    (
        TWO_SIDES,
        &[&[1, 2], &[3, 4]],
        44,
        RouteVerdict::Valid {
            routes: 2,
            cost: 44,
        },
    ),
    (
        TWO_SIDES,
        &[&[], &[2, 1], &[], &[3, 4]],
        44,
        RouteVerdict::Valid {
            routes: 2,
            cost: 44,
        },
    ),
    (
        DEPOT_BETWEEN,
        &[&[1, 2]],
        22,
        RouteVerdict::Valid {
            routes: 1,
            cost: 22,
        },
    ),
    (TWO_SIDES, &[&[1, 5]], 45, RouteVerdict::BadCustomer(1, 5)),
    (
        TWO_SIDES,
        &[&[1, 2, 3], &[0, 3]],
        45,
        RouteVerdict::BadCustomer(2, 0),
    ),
    (TWO_SIDES, &[&[1, 1]], 45, RouteVerdict::ServedTwice(1)),
    (
        TWO_SIDES,
        &[&[1, 2, 3], &[3, 0]],
        45,
        RouteVerdict::ServedTwice(3),
    ),
    (
        TWO_SIDES,
        &[&[1, 2, 3]],
        45,
        RouteVerdict::OverCapacity(1, 3),
    ),
    (
        TWO_SIDES,
        &[&[2], &[1, 3, 4]],
        45,
        RouteVerdict::OverCapacity(2, 3),
    ),
    (
        TWO_SIDES,
        &[&[], &[1, 2, 3]],
        45,
        RouteVerdict::OverCapacity(2, 3),
    ),
    (TWO_SIDES, &[&[1, 2]], 45, RouteVerdict::NotServed(3)),
    (
        TWO_SIDES,
        &[&[1, 2], &[3, 4]],
        45,
        RouteVerdict::WrongCost(45, 44),
    ),
];

/// Checks the verdict of a row.
fn expect_verdict(rt: &impl Abort, alloc: Global, cvrp: &Cvrp<'_>, row: &Row<'_>) {
    let verdict = check_routes(alloc, cvrp, &claim(rt, alloc, row.1, row.2));
    expect(rt, verdict == Ok(row.3));
}

fn expect_row(rt: &impl Abort, alloc: Global, row: &Row<'_>) {
    let problem = problem_of(rt, alloc, row.0);
    expect_verdict(rt, alloc, &cvrp_of(rt, &problem), row);
}

#[test]
fn verdicts_on_routes(rt: HostRuntime) {
    for row in &ROWS {
        expect_row(&rt, rt.alloc(), row);
    }
}
