//! Measures the time of near lists and of a nearest-neighbour tour, on kinds of input that are easy or hard for them.
//!
//! Each line contains the input, the kind of the result (`near-K` or `start`), the microseconds, and a digest of the
//! cities.
ghost use Rattle.std.specs.Prelude.{◌≤◌};

use crate::benchmarks::cities::{digest, digest_after};
use crate::benchmarks::lines::{Value, print_line};
use crate::benchmarks::places::{Input, sample};
use crate::benchmarks::times::{Stopwatch, Time, Times};
use crate::host::Host;
use tk_build::nearest_tour;
use tk_metric::{Metric, Near, Planes, Table, near_lists};
use tk_text::{CANDIDATE_LIMIT, CITY_LIMIT, PlaneKind};

/// The number of cities, and the lengths of the shorter and of the longer near lists.
#[derive(Clone, Copy)]
struct Sizes {
    cities: u32,
    short: u32,
    long: u32,
}

/// Each kind of input, and its name.
static INPUTS: [(&str, Input); 8] = [
    ("uniform", Input::Uniform),
    ("one_place", Input::OnePlace),
    ("lattice", Input::Lattice),
    ("axes", Input::Axes),
    ("columns", Input::Columns),
    ("clusters", Input::Clusters),
    ("diagonal", Input::Diagonal),
    ("decimals", Input::Decimals),
];

/// Makes the run, or the small one if its times are hidden.
pub fn run(host: &Host<'_>, times: Times) {
    match times {
        Times::Reported => measure_all(
            host,
            times,
            Sizes {
                cities: 100_000,
                short: 5,
                long: 100,
            },
        ),
        Times::Hidden => measure_all(
            host,
            times,
            Sizes {
                cities: 100,
                short: 5,
                long: 20,
            },
        ),
    }
}

/// Measures each kind of input.
fn measure_all(host: &Host<'_>, times: Times, sizes: Sizes)
    requires cities { sizes.cities ≤ CITY_LIMIT }
    requires short { (1 ≤ sizes.short) × (sizes.short ≤ CANDIDATE_LIMIT) }
    requires long { (1 ≤ sizes.long) × (sizes.long ≤ CANDIDATE_LIMIT) }
{
    for (name, input) in &INPUTS {
        measure(host, times, name, *input, sizes);
    }
}

/// Measures the near lists of both lengths and the tour, on one kind of input.
fn measure(host: &Host<'_>, times: Times, name: &str, input: Input, sizes: Sizes)
    requires cities { sizes.cities ≤ CITY_LIMIT }
    requires short { (1 ≤ sizes.short) × (sizes.short ≤ CANDIDATE_LIMIT) }
    requires long { (1 ≤ sizes.long) × (sizes.long ≤ CANDIDATE_LIMIT) }
{
    let Some(points) = host.value_of(sample(host.alloc, sizes.cities, input)) else {
        return;
    };
    let table = Table::Planes(Planes::new(PlaneKind::Euc2d, &points));
    time_each(host, times, name, &table, sizes);
}

/// Makes and times the near lists of both lengths and the tour.
fn time_each(host: &Host<'_>, times: Times, name: &str, table: &Table<'_>, sizes: Sizes)
    requires short { (1 ≤ sizes.short) × (sizes.short ≤ CANDIDATE_LIMIT) }
    requires long { (1 ≤ sizes.long) × (sizes.long ≤ CANDIDATE_LIMIT) }
{
    time_lists(host, times, name, table, sizes.short);
    time_lists(host, times, name, table, sizes.long);
    time_tour(host, times, name, table);
}

/// Makes and times near lists of length k.
fn time_lists(host: &Host<'_>, times: Times, name: &str, table: &Table<'_>, k: u32)
    requires { (1 ≤ k) × (k ≤ CANDIDATE_LIMIT) }
{
    if k >= table.size() {
        return;
    }
    let watch = Stopwatch::start(host);
    let near = near_lists(host.alloc, table, k);
    let took = times.tell(watch.elapsed(host).as_micros());
    if let Some(near) = host.value_of(near) {
        tell_lists(host, name, took, &near);
    }
}

/// Prints the line of near lists.
fn tell_lists(host: &Host<'_>, name: &str, took: Time, near: &Near) {
    let (k, digest) = (near.width(), digest_of_lists(near));
    println!(host; "{name} near-{k} {took} {digest}");
}

/// A digest of the cities of all near lists.
fn digest_of_lists(near: &Near) -> u64 {
    let mut digest = 0;
    for k in 0..near.size() {
        digest = digest_after(digest, near.of(k + 1));
    }
    digest
}

/// Makes and times the tour from city 1.
fn time_tour(host: &Host<'_>, times: Times, name: &str, table: &Table<'_>) {
    if table.size() == 0 {
        return;
    }
    let watch = Stopwatch::start(host);
    let cities = nearest_tour(host.alloc, table, 1);
    let took = times.tell(watch.elapsed(host).as_micros());
    if let Some(cities) = host.value_of(cities) {
        tell_tour(host, name, took, &cities);
    }
}

/// Prints the line of the tour.
fn tell_tour(host: &Host<'_>, name: &str, took: Time, cities: &[u32]) {
    print_line(
        host,
        &[
            Value::Word(name),
            Value::Word("start"),
            Value::Time(took),
            Value::Number(digest(cities) as u128),
        ],
    );
}
