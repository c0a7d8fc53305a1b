//! Measures the time that a swap in a flip takes.
//!
//! Each line contains the number of cities, the swaps, the nanoseconds of all flips, and the city after city 1.
ghost use Rattle.std.specs.Prelude.{◌<◌, ◌≤◌};

use crate::benchmarks::cities::first_cities;
use crate::benchmarks::draws::draw_below;
use crate::benchmarks::lines::{Value, print_line};
use crate::benchmarks::times::{Stopwatch, Times};
use crate::host::Host;
use tk_tour::{ArrayTour, TourStore};

/// Makes the run, or the small one if its times are hidden.
pub fn run(host: &Host<'_>, times: Times) {
    match times {
        Times::Reported => {
            measure(host, times, 1_000, 400_000);
            measure(host, times, 100_000, 4_000);
        }
        Times::Hidden => measure(host, times, 100, 1_000),
    }
}

/// Measures this many flips of a tour of n cities.
fn measure(host: &Host<'_>, times: Times, n: u32, flips: u32) {
    let Some(cities) = host.value_of(first_cities(host.alloc, n)) else {
        return;
    };
    if let Some(mut tour) = host.value_of(ArrayTour::from_list(host.alloc, &cities)) {
        time_flips(host, times, &mut tour, flips);
    }
}

/// Makes and times this many flips.
fn time_flips(host: &Host<'_>, times: Times, tour: &mut ArrayTour, flips: u32) {
    let watch = Stopwatch::start(host);
    let after = flip_often(tour, flips);
    let took = times.tell(watch.elapsed(host).as_nanos());
    print_line(
        host,
        &[
            Value::Number(tour.size() as u128),
            Value::Number(tour.swaps() as u128),
            Value::Time(took),
            Value::Number(after as u128),
        ],
    );
}

/// A random city from 1 to n.
fn draw_city(state: &mut u64, n: u32) -> u32
    requires { 0 < n }
    ensures { (0 < result) × (result ≤ n) }
{
    draw_below(state, n) + 1
}

/// Makes flips at random edges, and returns the city after city 1.
fn flip_often(tour: &mut ArrayTour, flips: u32) -> u32 {
    let n = tour.size();
    let mut state = 1;
    for _ in 0..flips {
        let a = draw_city(&mut state, n);
        let c = draw_city(&mut state, n);
        if a != c {
            let b = tour.next(a);
            let d = tour.next(c);
            let _ = tour.flip(a, b, c, d);
        }
    }
    tour.next(1)
}
