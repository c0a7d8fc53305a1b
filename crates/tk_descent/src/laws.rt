//! Laws that follow from the definitions of a descent. The functions do nothing: each contract states a theorem.
ghost use Rattle.std.specs.Prelude.{◌≡◌, ◌+◌, ◌*◌, ◌≤◌, length};
ghost use Rattle.tk_near.specs.Near.{near_of};
ghost use Rattle.tk_tour.specs.Tour.{IsSizedTour};
ghost use Rattle.tk_distance.specs.Holding.{IsDistinct};
ghost use Rattle.tk_descent.specs.Machine.{IsExecution};
ghost use Rattle.tk_descent.specs.Offers.{gain, Makes, shortening};
ghost use Rattle.tk_descent.specs.Sweeps.{AreSweeps};
ghost use Rattle.tk_descent.specs.WakeMachine.{IsLocalOptimum, Wakes};

use crate::descent::Report;
use crate::offer::Offer;
use crate::sweep::SweptReport;
use tk_distance::Metric;
use tk_near::Near;

/// A law: the gain of an offer, by four distances (2-opt) or six (Or-opt), is the length of the whole tour before its
/// move minus the length after it.
pub fn gain_is_the_difference<M: Metric>(
    metric: &M,
    or_segment: u32,
    offer: &Offer,
    before: &[u32],
    after: &[u32],
)
    requires { Makes or_segment offer.now before.now after.now }
    ensures { gain (M.distance metric.now) offer.now ≡ shortening (M.distance metric.now) before.now after.now }
{}

/// A law: a run of a descent, up to any of its steps, is a run of the wake machine, which leaves the choices open. Each
/// look takes a city that was awake at the start or was woken by a move. So there are at most as many looks as cities
/// that were awake, plus six for each move.
pub fn descents_are_wake_runs<M: Metric>(
    metric: &M,
    near: &Near,
    or_segment: u32,
    before: &[u32],
    awake: &[u32],
    after: &[u32],
    left: &[u32],
    report: &Report,
)
    requires most { or_segment ≤ 3 }
    requires tour { IsSizedTour before.now }
    requires distinct { IsDistinct awake.now }
    requires run { IsExecution (M.distance metric.now) near.now or_segment
        before.now awake.now after.now left.now report.now }
    ensures wakes { Wakes (M.distance metric.now) (near_of near.now) or_segment
        before.now awake.now after.now left.now }
    ensures looks { report.now.looks + length left.now ≤ length awake.now + 6 * report.now.moves }
{}

/// A law: passes one after another, each with all cities awake and the last without a move, end with a local optimum.
pub fn sweeps_end_in_local_optima<M: Metric>(
    metric: &M,
    near: &Near,
    or_segment: u32,
    before: &[u32],
    after: &[u32],
    report: &SweptReport,
)
    requires most { or_segment ≤ 3 }
    requires tour { IsSizedTour before.now }
    requires sweeps { AreSweeps (M.distance metric.now) near.now or_segment before.now after.now report.now }
    ensures { IsLocalOptimum (M.distance metric.now) (near_of near.now) or_segment after.now }
{}
