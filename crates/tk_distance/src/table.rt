//! The distances of a problem.
ghost use Rattle.std.specs.Prelude.{◌≡◌, ℕ};

use crate::metric::Metric;
use crate::planes::Planes;
use crate::triangle::Triangle;
use tk_problem::{Problem, Weights};

/// The distances among the cities of a problem.
#[derive(Clone, Copy)]
pub enum Table<'a> {
    Planes(Planes<'a>),
    Triangle(Triangle<'a>),
}

impl<'a> Table<'a> {
    ghost use Rattle.tk_distance.specs.Weights.{problem_distance};
    ghost use Rattle.tk_distance.specs.Tables.{table_size, table_distance};

    /// The distances of a problem.
    pub fn of(problem: &'a Problem) -> Table<'a>
        ensures size { table_size result ≡ problem.now.n }
        ensures distances { (a b : ℕ) → table_distance result a b ≡ problem_distance problem.now.weights a b }
    {
        match &problem.weights {
            Weights::Points(kind, points) => Table::Planes(Planes::new(*kind, points)),
            Weights::Lower(weights) => Table::Triangle(Triangle {
                n: problem.n,
                weights,
            }),
        }
    }
}

impl Metric for Table<'_> {
    ghost use Rattle.tk_distance.specs.Tables.{table_size, table_distance, table_size-limit, table_distance-swap};
    ghost use Rattle.tk_distance.specs.Tables.{table_distance-same, table_distance-limit};

    ghost size_of = { table_size };

    ghost distance = { table_distance };

    ghost size_limit = { table_size-limit };

    ghost symmetric = { table_distance-swap };

    ghost diagonal = { table_distance-same };

    ghost distance_limit = { table_distance-limit };

    #[inline]
    fn size(&self) -> u32 {
        match self {
            Table::Planes(planes) => planes.size(),
            Table::Triangle(triangle) => triangle.size(),
        }
    }

    #[inline]
    fn dist(&self, a: u32, b: u32) -> i64 {
        match self {
            Table::Planes(planes) => planes.dist(a, b),
            Table::Triangle(triangle) => triangle.dist(a, b),
        }
    }

    #[inline]
    fn is_nearer(&self, a: u32, b: u32, limit: i64) -> bool {
        match self {
            Table::Planes(planes) => planes.is_nearer(a, b, limit),
            Table::Triangle(triangle) => triangle.is_nearer(a, b, limit),
        }
    }
}
