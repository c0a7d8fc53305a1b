//! A sweep of a metric in which distances do not depend on y.
ghost use Rattle.std.specs.Prelude.{◌≤◌};
ghost use Rattle.tk_problem.specs.declared.limits.TheConstants.{CITY_LIMIT};

use crate::given::{expect_list, near_of};
use crate::metric::lists::near_by_sweep;
use std::alloc::Global;
use std::process::Abort;
use tk_metric::{Metric, Planar};
use tk_text::Point;

/// Cities in ten columns. The distance of two cities depends only on their columns.
#[derive(Drop)]
struct Columns {
    cities: u32,
    ghost few: { cities ≤ CITY_LIMIT },
}

impl Metric for Columns {
    ghost use Rattle.tk_tests.specs.Columns.{column_gap, column_gap-swap, column_gap-same, column_gap-limit};

    ghost size_of = { λ m. m.cities };

    ghost distance = { λ _. column_gap };

    ghost size_limit = { λ m. m.few };

    ghost symmetric = { λ _. column_gap-swap };

    ghost diagonal = { λ _. column_gap-same };

    ghost distance_limit = { λ _. column_gap-limit };

    fn size(&self) -> u32 {
        self.cities
    }

    fn dist(&self, a: u32, b: u32) -> i64 {
        (a % 10).abs_diff(b % 10) as i64
    }
}

impl Planar for Columns {
    ghost use Rattle.tk_tests.specs.Columns.{column_place, column_gap-wide, column_gap-floor};

    ghost place_of = { λ _. column_place };

    ghost floor = { λ _ dx. dx };

    ghost wide = { λ _. column_gap-wide };

    ghost floor_rises = { λ _ s t below _. below };

    ghost floor_bounds = { λ _. column_gap-floor };

    fn place(&self, c: u32) -> Point {
        Point {
            x: (c % 10) as i64,
            y: c as i64 * 1000,
        }
    }

    fn floor_x(&self, dx: u64) -> i64 {
        dx as i64
    }
}

/// The near lists of twelve cities, of two cities each, one after another.
static LISTS: [u32; 24] = [
    11, 2, 12, 1, 2, 4, 3, 5, 4, 6, 5, 7, 6, 8, 7, 9, 8, 7, 1, 11, 1, 2, 2, 1,
];

/// Checks that the near lists by a scan and by a sweep are these.
fn expect_both<P: Planar>(rt: &impl Abort, alloc: Global, metric: &P, want: &[u32]) {
    expect_list(rt, near_of(rt, alloc, metric, 2).entries(), want);
    expect_list(rt, near_by_sweep(rt, alloc, metric, 2).entries(), want);
}

#[test]
fn sweeps_a_metric_in_which_y_tells_nothing(rt: HostRuntime) {
    expect_both(&rt, rt.alloc(), &Columns { cities: 12 }, &LISTS);
}
