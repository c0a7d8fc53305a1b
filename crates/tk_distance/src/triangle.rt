//! Explicit weights.
ghost use Rattle.std.specs.Prelude.{◌≡◌, ◌≤◌, ◌-◌, ◌*◌, ◌/◌, All, length};
ghost use Rattle.tk_problem.specs.declared.limits.TheConstants.{DISTANCE_LIMIT, TABLE_LIMIT};

use crate::metric::Metric;

/// The explicit weights among `n` cities: the lower triangle, row by row, without its diagonal.
#[derive(Clone, Copy)]
pub struct Triangle<'a> {
    pub n: u32,
    pub weights: &'a [u32],
    ghost few: { n ≤ TABLE_LIMIT },
    ghost full: { length weights.now ≡ n * (n - 1) / 2 },
    ghost small: { All (λ w. w ≤ DISTANCE_LIMIT) weights.now },
}

impl Metric for Triangle<'_> {
    ghost use Rattle.std.specs.Prelude.{◌≤◌};
    ghost use Rattle.tk_distance.specs.Weights.{weight_between};
    ghost use Rattle.tk_distance.specs.Laws.Weights.{weight_between-swap, weight_between-same, weight_between-limit};
    ghost use Rattle.tk_distance.specs.Laws.Weights.{few_cities};

    ghost size_of = { λ m. m.n };

    ghost distance = { λ m a b. weight_between m.weights.now a b };

    ghost size_limit = { λ m. few_cities m.n m.few };

    ghost symmetric = { λ m a b. weight_between-swap m.weights.now a b };

    ghost diagonal = { λ m a. weight_between-same m.weights.now a };

    ghost distance_limit = { λ m a b. weight_between-limit m.weights.now m.small a b };

    #[inline]
    fn size(&self) -> u32 {
        self.n
    }

    #[inline]
    fn dist(&self, a: u32, b: u32) -> i64 {
        if a == b {
            return 0;
        }
        let (low, high) = (a.min(b) as usize, a.max(b) as usize);
        self.weights[(high - 1) * (high - 2) / 2 + (low - 1)] as i64
    }
}
