//! Calls of the libraries for tests, which are made again if memory runs out, and benchmarks.
//!
//! A call without arguments makes all calls of the libraries and a small run of each benchmark. Its lines contain only
//! results, so that they are the same each time. With the argument `calls`, no benchmark is run. With the name of a
//! benchmark, the program makes only the run of this benchmark, whose lines contain times.
//!
//! If memory runs out in a call, this is printed, and the call is made again. `tests/refusals/calls` makes one
//! allocation after another fail, and compares the lines.
#![tactic(auto)]

mod benchmarks;
mod call;
mod host;
mod improving;
mod instances;
mod lists;
mod problems;
mod readers;
mod refusals;
mod searches;
mod starts;
mod surface;
mod tours;
mod turns;

use crate::host::Host;
use std::process::ExitCode;

fn main(rt: HostRuntime) -> ExitCode {
    call::run_call(&rt)
}

/// Makes all calls.
fn make_calls(host: &Host<'_>) {
    readers::make_calls(host);
    tours::make_calls(host);
    problems::make_calls(host);
    turns::make_calls(host);
    searches::make_calls(host);
}
