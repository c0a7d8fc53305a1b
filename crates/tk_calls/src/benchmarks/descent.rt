//! Measures the time of a descent, and then of a look at each city of the local optimum.
//!
//! Each line contains the number of cities, the phase (1: the descent, 2: the looks), the gain tests, the nanoseconds,
//! the moves, the looks and the length after them.
ghost use Rattle.std.specs.Prelude.{◌≡◌, ◌<◌, ◌≤◌, length};
ghost use Rattle.tk_tour.specs.ArrayTours.{order_of};

use crate::benchmarks::lines::{Value, print_line};
use crate::benchmarks::strips::along_strips;
use crate::benchmarks::times::{Stopwatch, Time, Times};
use crate::host::Host;
use crate::turns::descend_awake;
use tk_descent::{Report, Waking};
use tk_metric::{Metric, Near, Planes, near_tree};
use tk_text::{CITY_LIMIT, PlaneKind};
use tk_tour::{ArrayTour, TourStore};

/// Makes the run, or the small one if its times are hidden.
pub fn run(host: &Host<'_>, times: Times) {
    match times {
        Times::Reported => {
            measure(host, times, 1_000, 52_632);
            measure(host, times, 100_000, 5_465);
        }
        Times::Hidden => measure(host, times, 100, 166_667),
    }
}

/// Makes both phases for n cities, from the tour along strips of this width.
fn measure(host: &Host<'_>, times: Times, n: u32, width: u32)
    requires n { (6 ≤ n) × (n ≤ CITY_LIMIT) }
    requires width { 0 < width }
{
    let Some((points, order)) = host.value_of(along_strips(host.alloc, n, width)) else {
        return;
    };
    let metric = Planes::new(PlaneKind::Euc2d, &points);
    if let Some(near) = host.value_of(near_tree(host.alloc, &metric, 5)) {
        descend_from(host, times, &metric, &near, &order);
    }
}

/// Makes both phases, from the tour in this order.
fn descend_from<M: Metric>(host: &Host<'_>, times: Times, metric: &M, near: &Near, order: &[u32])
    requires { near.now.size ≡ M.size_of metric.now }
{
    let Some(mut tour) = host.value_of(ArrayTour::from_list(host.alloc, order)) else {
        return;
    };
    let Some(mut waking) = host.value_of(Waking::new(host.alloc, metric.size())) else {
        return;
    };
    if tour.size() == metric.size() {
        time_phases(host, times, metric, near, &mut tour, &mut waking);
    }
}

/// Makes and times the descents of both phases.
fn time_phases<M: Metric>(
    host: &Host<'_>,
    times: Times,
    metric: &M,
    near: &Near,
    tour: &mut ArrayTour,
    waking: &mut Waking,
)
    requires metric { M.size_of metric.now ≡ length (order_of tour.old) }
    requires near { near.now.size ≡ length (order_of tour.old) }
    requires waking { waking.old.size ≡ length (order_of tour.old) }
{
    time_phase(host, times, 1, metric, near, tour, waking);
    time_phase(host, times, 2, metric, near, tour, waking);
}

/// Makes and times the descent of a phase.
fn time_phase<M: Metric>(
    host: &Host<'_>,
    times: Times,
    phase: u32,
    metric: &M,
    near: &Near,
    tour: &mut ArrayTour,
    waking: &mut Waking,
)
    requires metric { M.size_of metric.now ≡ length (order_of tour.old) }
    requires near { near.now.size ≡ length (order_of tour.old) }
    requires waking { waking.old.size ≡ length (order_of tour.old) }
    ensures tour { length (order_of tour.new) ≡ length (order_of tour.old) }
    ensures waking { waking.new.size ≡ waking.old.size }
{
    let watch = Stopwatch::start(host);
    let report = descend_awake(tour, waking, metric, near);
    let took = times.tell(watch.elapsed(host).as_nanos());
    tell(host, tour.size(), phase, took, &report);
}

/// Prints the line of a phase.
fn tell(host: &Host<'_>, n: u32, phase: u32, took: Time, report: &Report) {
    print_line(
        host,
        &[
            Value::Number(n as u128),
            Value::Number(phase as u128),
            Value::Number(report.tests as u128),
            Value::Time(took),
            Value::Number(report.moves as u128),
            Value::Number(report.looks as u128),
            Value::Number(report.after.unsigned_abs() as u128),
        ],
    );
}
