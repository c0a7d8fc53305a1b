//! Benchmarks of the libraries. `bench/` compares them with programs in plain Rust.
mod cities;
mod descent;
mod distances;
mod draws;
mod lines;
mod near;
mod places;
mod strips;
mod times;
mod tour;

use crate::host::Host;
use times::Times;

/// A benchmark.
#[derive(Clone, Copy)]
pub enum Benchmark {
    Descent,
    Distances,
    Near,
    Tour,
}

/// The benchmarks, with their names.
static BENCHMARKS: [(&str, Benchmark); 4] = [
    ("descent", Benchmark::Descent),
    ("distances", Benchmark::Distances),
    ("near", Benchmark::Near),
    ("tour", Benchmark::Tour),
];

/// The benchmark with this name, if there is one.
pub fn benchmark_of(name: &str) -> Option<Benchmark> {
    for (word, benchmark) in &BENCHMARKS {
        if *word == name {
            return Some(*benchmark);
        }
    }
    None
}

/// Makes the run of a benchmark, and prints its times.
pub fn run_one(host: &Host<'_>, benchmark: Benchmark) {
    run(host, Times::Reported, benchmark);
}

/// Makes a small run of each benchmark, whose times are hidden.
pub fn run_small(host: &Host<'_>) {
    for (_, benchmark) in &BENCHMARKS {
        run(host, Times::Hidden, *benchmark);
    }
}

/// Makes the run of a benchmark, if its times are printed, or the small run, if they are hidden.
fn run(host: &Host<'_>, times: Times, benchmark: Benchmark) {
    match benchmark {
        Benchmark::Descent => descent::run(host, times),
        Benchmark::Distances => distances::run(host, times),
        Benchmark::Near => near::run(host, times),
        Benchmark::Tour => tour::run(host, times),
    }
}
