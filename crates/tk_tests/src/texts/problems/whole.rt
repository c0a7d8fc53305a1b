//! Problem texts that are accepted.

use crate::texts::problems::read_both_ways::{accept, accept_each};
use crate::texts::problems::reported::{Reported, ReportedWeights};
use std::alloc::Global;
use std::process::Abort;
use tk_text::{Places, PlaneKind, Point};

const HUB: Point = Point { x: 0, y: 0 };

const EAST: Point = Point {
    x: 10_000_000_000,
    y: 0,
};

const FAR_EAST: Point = Point {
    x: 11_000_000_000,
    y: 0,
};

const WEST: Point = Point {
    x: -10_000_000_000,
    y: 0,
};

const FAR_WEST: Point = Point {
    x: -11_000_000_000,
    y: 0,
};

/// A CVRP with coordinates on both sides of the depot.
const ROUTING: &[u8] =
    b"NAME : v\nTYPE : CVRP\nDIMENSION : 5\nEDGE_WEIGHT_TYPE : EUC_2D\nCAPACITY : 2\nNODE_COORD_SECTION\n\
    1 0 0\n2 10 0\n3 11 0\n4 -10 0\n5 -11 0\nDEMAND_SECTION\n1 0\n2 1\n3 1\n4 1\n5 1\nDEPOT_SECTION\n1\n-1\nEOF\n";

#[test]
fn routing(rt: HostRuntime) {
    let places = Places::Fine(&[HUB, EAST, FAR_EAST, WEST, FAR_WEST]);
    let wanted = Reported {
        name: b"v",
        n: 5,
        weights: ReportedWeights::Points(PlaneKind::Euc2d, places),
        routing: Some((2, &[0, 1, 1, 1, 1], 1)),
    };
    accept(&rt, rt.alloc(), ROUTING, &wanted);
}

/// A TSP of four cities up to the format of its weights.
const EXPLICIT: &[u8] =
    b"TYPE : TSP\nDIMENSION : 4\nEDGE_WEIGHT_TYPE : EXPLICIT\nEDGE_WEIGHT_FORMAT : ";

/// The problem of such a text, with these weights below the diagonal.
fn explicit(lower: &[u32]) -> Reported<'_> {
    Reported {
        name: b"Unnamed",
        n: 4,
        weights: ReportedWeights::Lower(lower),
        routing: None,
    }
}

/// One table in each format; the numbers on its diagonal are not stored.
#[test]
fn formats(rt: HostRuntime) {
    accept_each(
        &rt,
        rt.alloc(),
        EXPLICIT,
        &[
            b"FULL_MATRIX\nEDGE_WEIGHT_SECTION\n9 1 2 3\n1 -9 4 5\n2 4 0 6\n3 5 6 4000000001\n",
            b"UPPER_ROW\nEDGE_WEIGHT_SECTION\n1 2 3 4 5 6\nEOF\n",
            b"LOWER_ROW\nEDGE_WEIGHT_SECTION 1\n2 4\n3 5 6\nEOF\n",
            b"UPPER_DIAG_ROW\nEDGE_WEIGHT_SECTION\n0 1 2 3 -7 4 5 0 6 0\nEOF\n",
            b"LOWER_DIAG_ROW\nEDGE_WEIGHT_SECTION\n8\n1 0\n2 4 0\n3 5 6 0\nEOF\n",
            b"upper_col\nEDGE_WEIGHT_SECTION : 1 2 4 3 5 6",
            b"LOWER_COL\nEDGE_WEIGHT_SECTION\n1 2 3\n4 5\n6\nEOF\n",
            b"UPPER_DIAG_COL\nEDGE_WEIGHT_SECTION\n0\n1 0\n2 4 0\n3 5 6 0\nEOF\n",
            b"LOWER_DIAG_COL\nEDGE_WEIGHT_SECTION\n0 1 2 3\n0 4 5\n0 6\n0\nEOF\n",
        ],
        &explicit(&[1, 2, 4, 3, 5, 6]),
    );
}

/// Weights at their limits.
#[test]
fn weights_at_their_limits(rt: HostRuntime) {
    accept_each(
        &rt,
        rt.alloc(),
        EXPLICIT,
        &[b"UPPER_ROW\nEDGE_WEIGHT_SECTION\n0 4000000000 -0 +5 01 2\nEOF\n"],
        &explicit(&[0, 4_000_000_000, 5, 0, 1, 2]),
    );
}

/// The coordinates of a text, in units of 10^-9.
#[test]
fn coordinates(rt: HostRuntime) {
    let text =
        b"TYPE : TSP\nDIMENSION : 4\nEDGE_WEIGHT_TYPE : ATT\nNODE_COORD_SECTION\n1 0.1 1e9\n4 -1e9 -.1\n2 1.0e+01 .5\n\
        3 0.0000000019 -0.0000000001\nEOF\n";
    let places = Places::Fine(&[
        Point {
            x: 100_000_000,
            y: 1_000_000_000_000_000_000,
        },
        Point {
            x: 10_000_000_000,
            y: 500_000_000,
        },
        Point { x: 1, y: 0 },
        Point {
            x: -1_000_000_000_000_000_000,
            y: -100_000_000,
        },
    ]);
    let wanted = Reported {
        name: b"Unnamed",
        n: 4,
        weights: ReportedWeights::Points(PlaneKind::Att, places),
        routing: None,
    };
    accept(&rt, rt.alloc(), text, &wanted);
}

/// Checks that the first part, followed by each last part, is read as a TSP of these points. Its name and its distance
/// type are next to the last part.
fn accept_two<'a>(
    rt: &impl Abort,
    alloc: Global,
    first: &[u8],
    places: &'a [Point],
    rows: &[(&[u8], &'a [u8], PlaneKind)],
) {
    for (last, name, kind) in rows {
        let wanted = Reported {
            name,
            n: 2,
            weights: ReportedWeights::Points(*kind, Places::Fine(places)),
            routing: None,
        };
        accept_each(rt, alloc, first, &[last], &wanted);
    }
}

/// The types of plane distances, in capital or small letters.
#[test]
fn kinds(rt: HostRuntime) {
    let near = Point {
        x: 3_000_000_000,
        y: 4_000_000_000,
    };
    let level = Point {
        x: 5_000_000_000,
        y: 0,
    };
    accept_two(
        &rt,
        rt.alloc(),
        b"TYPE TSP\nDIMENSION 2\nNODE_COORD_SECTION 2 5 0 1 3 4\nEDGE_WEIGHT_TYPE ",
        &[near, level],
        &[
            (b"EUC_2D", b"Unnamed", PlaneKind::Euc2d),
            (b"CEIL_2D", b"Unnamed", PlaneKind::Ceil2d),
            (b"MAN_2D", b"Unnamed", PlaneKind::Man2d),
            (b"MAX_2D", b"Unnamed", PlaneKind::Max2d),
            (b"ATT", b"Unnamed", PlaneKind::Att),
            (b"euc_2d : ATT", b"Unnamed", PlaneKind::Euc2d),
        ],
    );
}

/// A routing whose depot is not its first node, with each ending that its section can have.
#[test]
fn depots(rt: HostRuntime) {
    let wanted = Reported {
        name: b"a b  c",
        n: 3,
        weights: ReportedWeights::Points(PlaneKind::Euc2d, Places::Fine(&[EAST, HUB, FAR_EAST])),
        routing: Some((2_000_000_000, &[1, 0, 2_000_000_000], 2)),
    };
    accept_each(
        &rt,
        rt.alloc(),
        b"name : a b  c \nTYPE : CVRP : x\nDIMENSION 3\nEDGE_WEIGHT_TYPE EUC_2D\nCAPACITY : 2000000000\n\
        NODE_COORD_SECTION\n1 10 0\n2 0 0\n3 11 0\nDEMAND_SECTION\n3 2000000000\n1 1\n2 0\nDISPLAY_DATA_SECTION\n\
        1 x y 2 x y 3 x y\nDEPOT_SECTION ",
        &[
            b"2",
            b"2 EOF",
            b" : 2\n-1\nEOF\n",
            b"2\n-1\n\n-01\n",
            b"2 -1 -1",
            b"+2\n-1\nCOMMENT x\nEOF\n",
        ],
        &wanted,
    );
}

/// Names, and contents that are not stored.
#[test]
fn names(rt: HostRuntime) {
    accept_two(
        &rt,
        rt.alloc(),
        b"TYPE : TSP\nDIMENSION : 2\nEDGE_WEIGHT_TYPE : MAX_2D\nNODE_COORD_SECTION\n1 0 0\n2 0 0\n",
        &[HUB, HUB],
        &[
            (b"", b"Unnamed", PlaneKind::Max2d),
            (b"NAME\n", b"Unnamed", PlaneKind::Max2d),
            (b"NAME : \t\r\n", b"Unnamed", PlaneKind::Max2d),
            (b"NAME: : y\n", b": y", PlaneKind::Max2d),
            (b" name\tEOF\r\n", b"EOF", PlaneKind::Max2d),
            (
                b"NAME : \xff\x00z\nCOMMENT : NAME\nCOMMENT\n",
                b"\xff\x00z",
                PlaneKind::Max2d,
            ),
            (
                b"CAPACITY : 7\nNODE_COORD_TYPE : TWOD_COORDS\nDISPLAY_DATA_TYPE :\nEDGE_WEIGHT_FORMAT : FUNCTION\n\
                NAME p",
                b"p",
                PlaneKind::Max2d,
            ),
        ],
    );
}
