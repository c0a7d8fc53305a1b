//! Measures the time that distances of points in the plane take.
//!
//! Each line contains the type of the distances and of the coordinates, the span of the coordinates, the sum of the
//! distances, and the picoseconds of one distance.
use crate::benchmarks::draws::advance;
use crate::benchmarks::lines::{Value, print_line};
use crate::benchmarks::times::{Stopwatch, Time, Times};
use crate::host::Host;
use std::alloc::{AllocError, Global};
use tk_metric::{Metric, Planes};
use tk_text::{CITY_LIMIT, COORDINATE_LIMIT, PlaneKind, Point, Points, SCALE};

/// The maximum of a coordinate, in units of 10^-9.
const FAR: u64 = COORDINATE_LIMIT * SCALE as u64;

/// How often each sum is computed; the shortest time counts.
const ROUNDS: u32 = 7;

/// The number of points. All distances of points that are fewer than `steps` positions apart in their list are
/// measured.
#[derive(Clone, Copy)]
struct Sizes {
    places: u32,
    steps: u32,
}

/// A measurement: distances of a type, among coordinates that are multiples of `unit`, given in units of 10^-9.
#[derive(Clone, Copy)]
struct Task<'a> {
    name: &'a str,
    kind: PlaneKind,
    unit: i64,
}

/// Three types of distances, among whole coordinates and among decimal ones. Decimals have nine digits, unless the name
/// states a unit.
static TASKS: [Task<'static>; 8] = [
    Task {
        name: "EUC_2D/whole",
        kind: PlaneKind::Euc2d,
        unit: SCALE,
    },
    Task {
        name: "EUC_2D/tenths",
        kind: PlaneKind::Euc2d,
        unit: SCALE / 10,
    },
    Task {
        name: "EUC_2D/thousandths",
        kind: PlaneKind::Euc2d,
        unit: SCALE / 1_000,
    },
    Task {
        name: "EUC_2D/decimals",
        kind: PlaneKind::Euc2d,
        unit: 1,
    },
    Task {
        name: "CEIL_2D/whole",
        kind: PlaneKind::Ceil2d,
        unit: SCALE,
    },
    Task {
        name: "CEIL_2D/decimals",
        kind: PlaneKind::Ceil2d,
        unit: 1,
    },
    Task {
        name: "ATT/whole",
        kind: PlaneKind::Att,
        unit: SCALE,
    },
    Task {
        name: "ATT/decimals",
        kind: PlaneKind::Att,
        unit: 1,
    },
];

/// Makes the run, or the small one if its times are hidden.
pub fn run(host: &Host<'_>, times: Times) {
    let (spans, sizes): (&[i64], Sizes) = match times {
        Times::Reported => (
            &[10, 1_000, 1_000_000, 100_000_000, 1_000_000_000],
            Sizes {
                places: 4_200,
                steps: 200,
            },
        ),
        Times::Hidden => (
            &[10, 1_000_000, 1_000_000_000],
            Sizes {
                places: 60,
                steps: 10,
            },
        ),
    };
    for span in spans {
        measure_all(host, times, *span, sizes);
    }
}

/// Measures all tasks, at one span.
fn measure_all(host: &Host<'_>, times: Times, span: i64, sizes: Sizes) {
    for task in &TASKS {
        measure(host, times, *task, span, sizes);
    }
}

/// Measures the sum of the distances of a task, at one span.
fn measure(host: &Host<'_>, times: Times, task: Task<'_>, span: i64, sizes: Sizes) {
    let Some(points) = host.value_of(spread(host.alloc, sizes.places, span, task.unit)) else {
        return;
    };
    if points.len() <= CITY_LIMIT as usize {
        let planes = Planes::new(task.kind, &points);
        time_task(host, times, task, span, sizes, &planes);
    }
}

/// Computes and times the sum.
fn time_task<M: Metric>(
    host: &Host<'_>,
    times: Times,
    task: Task<'_>,
    span: i64,
    sizes: Sizes,
    metric: &M,
) {
    let (sum, least) = time_sum(host, metric, sizes.steps);
    let took = times.tell(picoseconds_of_one(least, sizes));
    tell(host, task.name, span, sum, took);
}

/// Prints the line of a sum.
fn tell(host: &Host<'_>, name: &str, span: i64, sum: u64, took: Time) {
    print_line(
        host,
        &[
            Value::Word(name),
            Value::Number(span.unsigned_abs() as u128),
            Value::Number(sum as u128),
            Value::Time(took),
        ],
    );
}

/// The sum of the distances of points that are fewer than `steps` positions apart, and the shortest time, in
/// nanoseconds.
fn time_sum<M: Metric>(host: &Host<'_>, metric: &M, steps: u32) -> (u64, u128) {
    let mut least: u128 = u128::MAX;
    let mut sum = 0;
    for _ in 0..ROUNDS {
        let watch = Stopwatch::start(host);
        sum = sum_of(metric, steps);
        least = least.min(watch.elapsed(host).as_nanos());
    }
    (sum, least)
}

/// The picoseconds of one distance, given the nanoseconds of all.
fn picoseconds_of_one(nanoseconds: u128, sizes: Sizes) -> u128 {
    let ends = sizes.places.saturating_sub(sizes.steps / 2) as u128;
    let distances = ends * sizes.steps.saturating_sub(1) as u128;
    nanoseconds.min(1_000_000_000_000) * 1_000 / distances.max(1)
}

/// Random points, whose coordinates have a magnitude of at most the span, and are multiples of a unit.
fn spread(alloc: Global, count: u32, span: i64, unit: i64) -> Result<Points, AllocError> {
    let mut points = Points::at_origin(alloc, count as usize)?;
    let mut state = 42;
    for i in 0..points.len() {
        let x = coordinate(&mut state, span, unit);
        let y = coordinate(&mut state, span, unit);
        if x.unsigned_abs() <= FAR && y.unsigned_abs() <= FAR && i < points.len() {
            points.set(i, Point { x, y })?;
        }
    }
    Ok(points)
}

/// A random coordinate with a magnitude of at most the span, which is a multiple of a unit.
fn coordinate(state: &mut u64, span: i64, unit: i64) -> i64 {
    let most = span.wrapping_mul(SCALE / unit.max(1)).unsigned_abs();
    let drawn = (advance(state) >> 11).wrapping_mul(2_048);
    (drawn % most.wrapping_mul(2).wrapping_add(1).max(1))
        .cast_signed()
        .wrapping_sub(most.cast_signed())
        .wrapping_mul(unit)
}

/// The sum of the distances of points that are fewer than `steps` positions apart.
fn sum_of<M: Metric>(metric: &M, steps: u32) -> u64 {
    let mut sum: u64 = 0;
    for step in 1..steps {
        sum = sum.wrapping_add(sum_at(metric, step));
    }
    sum
}

/// The sum of the distances of points that are `step` positions apart.
fn sum_at<M: Metric>(metric: &M, step: u32) -> u64 {
    let last = metric.size().saturating_sub(step);
    let mut sum: u64 = 0;
    for before in 0..last {
        sum = sum.wrapping_add(metric.dist(before + 1, before + 1 + step).cast_unsigned());
    }
    sum
}
