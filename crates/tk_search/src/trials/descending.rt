//! One descent of a search.
ghost use Rattle.std.specs.Prelude.{◌≡◌, pos, ◌+◌, ◌≤◌, [], length};
ghost use Rattle.tk_near.specs.Near.{near_of};
ghost use Rattle.tk_descent.specs.Descents.{AreOfSize, IsReported, stand};
ghost use Rattle.tk_descent.specs.EdgeCache.{AreTrueOf};
ghost use Rattle.tk_tour.specs.Tour.{tour_length};
ghost use Rattle.tk_search.specs.Descents.{Descends, looks_at_first, terms};

use tk_descent::{EdgeCache, Probe, SweptReport, Waking, descend, descend_swept};
use tk_distance::Metric;
use tk_near::Near;
use tk_tour::TourStore;

/// The rules of the descents of a search.
#[derive(Clone, Copy)]
pub struct SearchRules {
    /// Whether each descent is swept: it makes passes, each with all cities awake, until one makes no move.
    pub sweep: bool,
    /// The maximum number of cities in the segment of an Or-opt move: 1 to 3.
    pub or_segment: u32,
}

/// Descends by the rules. It counts tests from 0, and keeps using and filling the cache of edge lengths. A descent that
/// is not swept is one pass.
pub(crate) fn descend_by<S: TourStore, M: Metric>(
    store: &mut S,
    metric: &M,
    near: &Near,
    waking: &mut Waking,
    steps: &mut EdgeCache,
    rules: SearchRules,
    before: i64,
) -> SweptReport
    requires fits { AreOfSize (length (S.cities store.old)) (M.size_of metric.now) near.now.size waking.old.size }
    requires most { (1 ≤ rules.or_segment) × (rules.or_segment ≤ 3) }
    requires before { before ≡ pos (tour_length (M.distance metric.now) (S.cities store.old)) }
    requires steps { AreTrueOf (M.distance metric.now) steps.old }
    ensures descends { Descends (M.distance metric.now) (near_of near.now) rules (S.cities store.old) waking.old.queue
        (S.cities store.new) result.passes result.descent.looks result.descent.moves result.descent.tests }
    ensures reported { IsReported (terms (M.distance metric.now) near.now rules)
        (stand S.TourStore store.old waking.old 0) (stand S.TourStore store.new waking.new result.descent.tests)
        (looks_at_first rules (length (S.cities store.old)) waking.old.queue result.passes) result.descent }
    ensures passes { result.passes ≤ result.descent.moves + 1 }
    ensures asleep { waking.new.queue ≡ [] }
    ensures flips_only { S.FlipsOnly store.old store.new }
    ensures steps { AreTrueOf (M.distance metric.now) steps.new }
    ensures sizes { (length (S.cities store.new) ≡ length (S.cities store.old)) × (waking.new.size ≡ waking.old.size) }
{
    let mut gains = Probe::with_cache(metric, steps.take());
    let report = if rules.sweep {
        descend_swept(store, &mut gains, near, waking, rules.or_segment, before)
    } else {
        SweptReport {
            descent: descend(store, &mut gains, near, waking, rules.or_segment, before),
            passes: 1,
        }
    };
    *steps = gains.into_cache();
    report
}
