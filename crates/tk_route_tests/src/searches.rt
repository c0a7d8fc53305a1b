//! Worked examples of searches between routes. Their results are those of a second implementation.
ghost use Rattle.std.specs.Prelude.{◌≡◌, ◌≤◌};
ghost use Rattle.tk_routes.specs.Cvrps.{instance_of};
ghost use Rattle.tk_route_search.specs.Tasks.{AreGiven};

use crate::counting::Counts;
use crate::given::{claim, cvrp_of, expect, expect_list, expect_routes, problem_of};
use std::alloc::Global;
use std::process::Abort;
use tk_ring_search::RingTotals;
use tk_route_search::{RouteRun, RouteStart, SearchOptions, SolvedRoutes, search_routes};
use tk_routes::{Cvrp, RouteVerdict, check_routes};
use tk_text::{Problem, SolText};

/// Two customers on each side of the depot, and vehicles with room for two.
pub const TWO_SIDES: &[u8] =
    b"NAME : v\nTYPE : CVRP\nDIMENSION : 5\nEDGE_WEIGHT_TYPE : EUC_2D\nCAPACITY : 2\nNODE_COORD_SECTION\n1 0 0\n\
    2 10 0\n3 11 0\n4 -10 0\n5 -11 0\nDEMAND_SECTION\n1 0\n2 1\n3 1\n4 1\n5 1\nDEPOT_SECTION\n1\n-1\nEOF\n";

/// One customer, and the depot is the second node.
const ONE_CUSTOMER: &[u8] =
    b"NAME : v\nTYPE : CVRP\nDIMENSION : 2\nEDGE_WEIGHT_TYPE : EUC_2D\nCAPACITY : 2\nNODE_COORD_SECTION\n1 10 0\n\
    2 0 0\nDEMAND_SECTION\n1 1\n2 0\nDEPOT_SECTION\n2\n-1\nEOF\n";

/// A-n32-k5 (P. Augerat, 1995). Its cheapest routes cost 784.
const AUGERAT: &[u8] =
    b"NAME : A-n32-k5\nTYPE : CVRP\nDIMENSION : 32\nEDGE_WEIGHT_TYPE : EUC_2D\nCAPACITY : 100\nNODE_COORD_SECTION\n\
    1 82 76\n2 96 44\n3 50 5\n4 49 8\n5 13 7\n6 29 89\n7 58 30\n8 84 39\n9 14 24\n10 2 39\n11 3 82\n12 5 10\n\
    13 98 52\n14 84 25\n15 61 59\n16 1 65\n17 88 51\n18 91 2\n19 19 32\n20 93 3\n21 50 93\n22 98 14\n23 5 42\n\
    24 42 9\n25 61 62\n26 9 97\n27 80 55\n28 57 69\n29 23 15\n30 20 70\n31 85 60\n32 98 5\nDEMAND_SECTION\n1 0\n\
    2 19\n3 21\n4 6\n5 19\n6 7\n7 12\n8 16\n9 6\n10 16\n11 8\n12 14\n13 21\n14 16\n15 3\n16 22\n17 18\n18 19\n\
    19 1\n20 24\n21 8\n22 12\n23 4\n24 8\n25 24\n26 24\n27 2\n28 20\n29 15\n30 2\n31 14\n32 9\nDEPOT_SECTION\n1\n\
    -1\nEOF\n";

/// A search of two runs, and its results.
struct Row<'a> {
    /// The routes that each run begins with; none for savings routes.
    given: &'a [&'a [u32]],
    trials: u32,
    final_sweep: bool,
    /// The cost of the result, and that of the start.
    costs: [i64; 2],
    /// The number of routes that each run began with.
    start_routes: u32,
    /// The length of the near lists that savings routes were made with.
    candidates: Option<u32>,
    routes: &'a [&'a [u32]],
    /// The reports of the first runs.
    reports: &'a [RouteRun],
    /// What an observer counts: trials and first descents, those that found better routes, and runs.
    shown: [u32; 3],
}

/// A problem, and searches of it.
struct Case<'a> {
    problem: &'a [u8],
    rows: &'a [Row<'a>],
}

/// The report of both runs on two sides of the depot.
const REPORT: RouteRun = RouteRun {
    best: 44,
    routes: 2,
    totals: RingTotals {
        start: 44,
        trials: 3,
        kicks: 0,
        draws: 0,
        better: 0,
        moves: 0,
        tests: 177,
        swaps: 0,
        passes: 1,
        copied: 0,
    },
};

static CASES: [Case<'static>; 3] = [
    Case {
        problem: TWO_SIDES,
        rows: &[
            // The savings routes are the best. With 7 elements no kick is drawn.
            Row {
                given: &[],
                trials: 3,
                final_sweep: false,
                costs: [44, 44],
                start_routes: 2,
                candidates: Some(3),
                routes: &[&[1, 2], &[3, 4]],
                reports: &[REPORT, REPORT],
                shown: [8, 2, 2],
            },
            // One of the given routes is empty. The first descent exchanges the ends of the others.
            Row {
                given: &[&[1, 3], &[], &[2, 4]],
                trials: 3,
                final_sweep: false,
                costs: [44, 84],
                start_routes: 2,
                candidates: None,
                routes: &[&[1, 2], &[3, 4]],
                reports: &[],
                shown: [8, 2, 2],
            },
        ],
    },
    Case {
        problem: ONE_CUSTOMER,
        rows: &[
            // There is nothing to search for.
            Row {
                given: &[],
                trials: 3,
                final_sweep: false,
                costs: [20, 20],
                start_routes: 1,
                candidates: Some(1),
                routes: &[&[1]],
                reports: &[],
                shown: [0, 0, 0],
            },
        ],
    },
    Case {
        problem: AUGERAT,
        rows: &[
            // The optimum, in 40 trials of swept descents.
            Row {
                given: &[],
                trials: 40,
                final_sweep: true,
                costs: [784, 842],
                start_routes: 5,
                candidates: Some(20),
                routes: &[
                    &[6, 3, 2, 23, 4, 11, 28, 14],
                    &[12, 1, 16, 30],
                    &[20, 5, 25, 10, 15, 22, 9, 8, 18, 29],
                    &[21, 31, 19, 17, 13, 7, 26],
                    &[24, 27],
                ],
                reports: &[RouteRun {
                    best: 784,
                    routes: 5,
                    totals: RingTotals {
                        start: 842,
                        trials: 40,
                        kicks: 40,
                        draws: 285,
                        better: 4,
                        moves: 534,
                        tests: 461_873,
                        swaps: 2_840,
                        passes: 88,
                        copied: 185,
                    },
                }],
                shown: [82, 8, 2],
            },
            // The cheaper of two runs whose descents are not swept.
            Row {
                given: &[],
                trials: 40,
                final_sweep: false,
                costs: [827, 842],
                start_routes: 5,
                candidates: Some(20),
                routes: &[
                    &[6, 23, 28, 4, 11, 8, 18, 9, 22, 14],
                    &[12, 1, 13, 7, 16],
                    &[20, 5, 25, 10, 15, 29, 27],
                    &[21, 31, 19, 17, 2, 3, 26],
                    &[24, 30],
                ],
                reports: &[],
                shown: [82, 4, 2],
            },
        ],
    },
];

/// The options of the search of a row.
fn options_of<'a>(rt: &impl Abort, start: RouteStart<'a>, row: &Row<'_>) -> SearchOptions<'a>
    ensures { result.start ≡ start.entry }
{
    expect(rt, 1 <= row.trials);
    expect(rt, row.trials <= 1_000_000);
    SearchOptions {
        start,
        runs: 2,
        trials: row.trials,
        seed: 1,
        candidates: 12,
        or_segment: 3,
        final_sweep: row.final_sweep,
    }
}

/// Checks the reports of the first runs.
fn expect_reports(rt: &impl Abort, reports: &[RouteRun], want: &[RouteRun]) {
    expect(rt, want.len() <= reports.len());
    for k in 0..want.len() {
        expect(rt, reports[k] == want[k]);
    }
}

/// Checks the result of a search.
fn expect_solved(rt: &impl Abort, solved: &SolvedRoutes, row: &Row<'_>) {
    expect(rt, solved.cost == row.costs[0]);
    expect(rt, solved.start == row.costs[1]);
    expect(rt, solved.start_routes == row.start_routes);
    expect(rt, solved.candidates == row.candidates);
    expect_routes(rt, &solved.routes, row.routes);
    expect_reports(rt, &solved.runs, row.reports);
}

/// Checks a search from this start.
fn expect_search(
    rt: &impl Abort,
    alloc: Global,
    cvrp: &Cvrp<'_>,
    start: RouteStart<'_>,
    row: &Row<'_>,
)
    requires { AreGiven (instance_of cvrp.now) start }
{
    let mut counts = Counts {
        trials: 0,
        better: 0,
        runs: 0,
    };
    let options = options_of(rt, start, row);
    let solved = search_routes(alloc, cvrp, &options, &mut counts).expect(
        rt,
        "memory for a search",
    );
    expect_solved(rt, &solved, row);
    expect(rt, solved.runs.len() == counts.runs as usize);
    expect_list(rt, &[counts.trials, counts.better, counts.runs], &row.shown);
}

/// Checks a search from the routes of a solution.
fn expect_from(rt: &impl Abort, alloc: Global, cvrp: &Cvrp<'_>, given: &SolText, row: &Row<'_>) {
    let verdict = check_routes(alloc, cvrp, given).expect(rt, "memory for a check");
    let RouteVerdict::Valid { .. } = verdict else {
        rt.panic("routes that are not valid")
    };
    expect_search(rt, alloc, cvrp, RouteStart::Routes(&given.routes), row);
}

/// Checks the search of a row.
fn expect_row(rt: &impl Abort, alloc: Global, cvrp: &Cvrp<'_>, row: &Row<'_>) {
    if row.given.is_empty() {
        return expect_search(rt, alloc, cvrp, RouteStart::Ladder, row);
    }
    expect_from(
        rt,
        alloc,
        cvrp,
        &claim(rt, alloc, row.given, row.costs[1]),
        row,
    );
}

/// Checks searches of a problem.
fn expect_rows(rt: &impl Abort, alloc: Global, problem: &Problem, rows: &[Row<'_>]) {
    let cvrp = cvrp_of(rt, problem);
    for row in rows {
        expect_row(rt, alloc, &cvrp, row);
    }
}

#[test]
fn worked_searches(rt: HostRuntime) {
    for case in &CASES {
        expect_rows(
            &rt,
            rt.alloc(),
            &problem_of(&rt, rt.alloc(), case.problem),
            case.rows,
        );
    }
}
