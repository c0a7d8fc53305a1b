//! One descent of a search between routes.
ghost use Rattle.std.specs.Prelude.{◌≡◌, pos, ◌≤◌, [], length, true, false};
ghost use Rattle.tk_descent.specs.Descents.{AreOfSize, DescentUnder, IsReported, SweepingUnder};
ghost use Rattle.tk_descent.specs.EdgeCache.{AreTrueOf};
ghost use Rattle.tk_tour.specs.Tour.{IsTour, tour_length};
ghost use Rattle.tk_rings.specs.Capacities.{IsFitting};
ghost use Rattle.tk_rings.specs.LoadedRings.{KeepsLoaded, cities_in, demands_in, stand_in};
ghost use Rattle.tk_ring_search.specs.Descents.{Fits, looks_at_first, may_be_made, terms_of};
ghost use Rattle.tk_ring_search.specs.Given.{given_of};

use crate::trials::terms::RingTerms;
use tk_descent::{EdgeCache, Probe, SweptReport, Waking, descend_swept_under, descend_under};
use tk_distance::Metric;
use tk_rings::LoadedRing;
use tk_tour::UndoStore;

/// Descends from a ring that fits, of cost `before`, with the elements that are awake. It counts tests from 0, and
/// keeps using and filling the cache of edge lengths. A descent that is not swept is one pass.
pub(crate) fn descend<S: UndoStore, M: Metric>(
    ring: &mut LoadedRing<'_, S>,
    terms: &RingTerms<'_, M>,
    waking: &mut Waking,
    steps: &mut EdgeCache,
    before: i64,
) -> SweptReport
    requires sizes { AreOfSize (length (cities_in ring.old)) (M.size_of terms.now.metric.now) terms.now.near.now.size
        waking.old.size }
    requires most { (1 ≤ terms.now.or_segment) × (terms.now.or_segment ≤ 3) }
    requires before { before ≡ pos (tour_length (M.distance terms.now.metric.now) (cities_in ring.old)) }
    requires suits { demands_in ring.old ≡ terms.now.vehicles.demands.now }
    requires fits { IsFitting terms.now.vehicles.capacity terms.now.vehicles.demands.now (cities_in ring.old) }
    requires steps { AreTrueOf (M.distance terms.now.metric.now) steps.old }
    ensures swept { terms.now.sweep ≡ true → SweepingUnder (Fits (given_of M.Metric terms.now))
        (may_be_made (given_of M.Metric terms.now)) (terms_of (given_of M.Metric terms.now))
        (stand_in ring.old waking.old 0) (stand_in ring.new waking.new result.descent.tests) result }
    ensures once { terms.now.sweep ≡ false → DescentUnder (Fits (given_of M.Metric terms.now))
        (may_be_made (given_of M.Metric terms.now)) (terms_of (given_of M.Metric terms.now))
        (stand_in ring.old waking.old 0) (stand_in ring.new waking.new result.descent.tests)
        result.descent × (result.passes ≡ 1) }
    ensures reported { IsReported (terms_of (given_of M.Metric terms.now)) (stand_in ring.old waking.old 0)
        (stand_in ring.new waking.new result.descent.tests) (looks_at_first (given_of M.Metric terms.now)
        (stand_in ring.old waking.old 0) result.passes) result.descent }
    ensures asleep { waking.new.queue ≡ [] }
    ensures tour { IsTour (length (cities_in ring.old)) (cities_in ring.new) }
    ensures fitting { Fits (given_of M.Metric terms.now) (cities_in ring.new) }
    ensures flips_only { KeepsLoaded ring.old ring.new }
    ensures steps { AreTrueOf (M.distance terms.now.metric.now) steps.new }
    ensures sizes { (length (cities_in ring.new) ≡ length (cities_in ring.old)) × (waking.new.size ≡ waking.old.size) }
{
    let mut gains = Probe::with_cache(terms.metric, steps.take());
    let (rule, near, most) = (&terms.vehicles, terms.near, terms.or_segment);
    let report = if terms.sweep {
        descend_swept_under(ring, &mut gains, rule, near, waking, most, before)
    } else {
        SweptReport {
            descent: descend_under(ring, &mut gains, rule, near, waking, most, before),
            passes: 1,
        }
    };
    *steps = gains.into_cache();
    report
}
