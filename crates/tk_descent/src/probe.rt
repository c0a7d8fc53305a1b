//! Gains from the distances of a metric.
ghost use Rattle.std.specs.Prelude.{◌≡◌, ◌≤◌, ◌+◌, ◌-◌, ◌^◌, pos};
ghost use Rattle.tk_descent.specs.Offers.{EndsIn};
ghost use Rattle.tk_descent.specs.EdgeCache.{AreTrueOf};
ghost use Rattle.tk_descent.specs.declared.offer.Offer.TheVariants.{Two, Or};

use crate::edge_cache::EdgeCache;
use crate::gains::Gains;
use crate::looks::looking::find_offer;
use crate::offer::Found;
use crate::rule::Rule;
use tk_distance::Metric;
use tk_near::Near;
use tk_tour::TourStore;

/// Computes gains from the distances of a metric. Its looks take the lengths of tour edges from a cache if they can.
#[derive(Drop)]
pub struct Probe<'a, M: Metric> {
    metric: &'a M,
    steps: EdgeCache,
    count: u64,
    ghost true_steps: { AreTrueOf (M.distance metric.now) steps },
    ghost count_limit: { count ≤ 2 ^ 64 - 1 },
}

impl<'a, M: Metric> Probe<'a, M> {
    ghost use Rattle.tk_descent.specs.ProbeSteps.{steps_of};

    /// Gains from the distances of the metric, with no tests so far. It has no cache of edge lengths.
    pub fn new(metric: &'a M) -> Probe<'a, M>
        ensures size { ⟦<Probe<'a, M> as Gains>⟧.size_of result ≡ M.size_of metric.now }
        ensures table { ⟦<Probe<'a, M> as Gains>⟧.distance result ≡ M.distance metric.now }
        ensures count { ⟦<Probe<'a, M> as Gains>⟧.test_count result ≡ 0 }
    {
        Probe::with_cache(metric, EdgeCache::none())
    }

    /// Gains from the distances of the metric, with no tests so far. It reads and fills this cache of edge lengths.
    pub fn with_cache(metric: &'a M, steps: EdgeCache) -> Probe<'a, M>
        requires { AreTrueOf (M.distance metric.now) steps }
        ensures size { ⟦<Probe<'a, M> as Gains>⟧.size_of result ≡ M.size_of metric.now }
        ensures table { ⟦<Probe<'a, M> as Gains>⟧.distance result ≡ M.distance metric.now }
        ensures count { ⟦<Probe<'a, M> as Gains>⟧.test_count result ≡ 0 }
        ensures steps { steps_of result ≡ steps }
    {
        Probe {
            metric,
            steps,
            count: 0,
        }
    }

    /// The cache of edge lengths.
    pub fn into_cache(self) -> EdgeCache
        ensures steps { result ≡ steps_of self.entry }
        ensures true_steps { AreTrueOf (⟦<Probe<'a, M> as Gains>⟧.distance self.entry) result }
    {
        self.steps
    }

    /// The sum of two distances.
    #[inline]
    fn sum_two(&self, a: u32, b: u32, c: u32, d: u32) -> i64
        requires { EndsIn (M.size_of self.now.metric.now) (Two a b c d) }
        ensures { result ≡ pos (M.distance self.now.metric.now a b + M.distance self.now.metric.now c d) }
    {
        self.metric.dist(a, b) + self.metric.dist(c, d)
    }

    /// The sum of three distances.
    #[inline]
    fn sum_three(&self, a: u32, b: u32, c: u32, d: u32, e: u32, f: u32) -> i64
        requires { EndsIn (M.size_of self.now.metric.now) (Or a b c d e f) }
        ensures { result ≡ pos (M.distance self.now.metric.now a b + M.distance self.now.metric.now c d
            + M.distance self.now.metric.now e f) }
    {
        self.metric.dist(a, b) + self.metric.dist(c, d) + self.metric.dist(e, f)
    }
}

impl<'a, M: Metric> Gains for Probe<'a, M> {
    ghost size_of = { λ p. M.size_of p.metric.now };

    ghost distance = { λ p. M.distance p.metric.now };

    ghost test_count = { λ p. p.count };

    #[inline]
    fn tests(&self) -> u64 {
        self.count
    }

    #[inline]
    fn gain2(&mut self, a: u32, b: u32, c: u32, d: u32) -> i64 {
        self.count = self.count.saturating_add(1);
        self.sum_two(a, b, c, d) - self.sum_two(a, c, b, d)
    }

    #[inline]
    fn gain3(&mut self, a: u32, x: u32, e: u32, b: u32, y: u32, w: u32) -> i64 {
        self.count = self.count.saturating_add(1);
        self.sum_three(a, x, e, b, y, w) - self.sum_three(a, b, x, y, e, w)
    }

    #[inline]
    fn find_offer<S: TourStore, R: Rule<S>>(
        &mut self,
        tour: &S,
        rule: &R,
        near: &Near,
        or_segment: u32,
        city: u32,
    ) -> Option<Found> {
        match &mut self.steps.lengths {
            Some(lengths) => find_offer(
                tour,
                self.metric,
                rule,
                &mut lengths.edges,
                &mut lengths.candidates,
                &mut self.count,
                near,
                or_segment,
                city,
            ),
            None => find_offer(
                tour,
                self.metric,
                rule,
                &mut [],
                &mut [],
                &mut self.count,
                near,
                or_segment,
                city,
            ),
        }
    }

    ghost symmetric = { λ p. M.symmetric p.metric.now };

    ghost diagonal = { λ p. M.diagonal p.metric.now };

    ghost distance_limit = { λ p. M.distance_limit p.metric.now };

    ghost count_limit = { λ p. p.count_limit };
}
