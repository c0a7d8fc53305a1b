//! The command line of the program: its argument, and the calls and runs that it requests.
use crate::benchmarks::{Benchmark, benchmark_of, run_one, run_small};
use crate::host::Host;
use crate::refusals::Stopped;
use crate::{again, make_calls};
use std::io;
use std::process::ExitCode;

/// The exit status if the arguments are rejected.
const USAGE: u8 = 2;

/// A request: all calls and a small run of each benchmark, the calls, or the run of a benchmark.
#[derive(Clone, Copy)]
enum Request {
    All,
    Calls,
    One(Benchmark),
}

/// Reads the arguments of the call, and makes the calls and runs that they request.
pub fn run_call(rt: &HostRuntime) -> ExitCode {
    let host = Host::new(rt);
    let request = request_of_call(&host);
    if let Some(request) = request {
        run_request(&host, request);
    }
    match host.stopped() {
        Some(reason) => stopped(rt, reason),
        None if request.is_none() => refused(rt),
        None => ExitCode::SUCCESS,
    }
}

/// The arguments of the call, the first of which is the name of the program.
///
/// # Errors
/// If an argument is not UTF-8, or memory runs out.
fn words_of(rt: &HostRuntime) -> io::Result<Vec<String>> {
    let words = std::env::args(rt)?.collect::<Vec<String>>(rt.alloc())?;
    Ok(words)
}

/// The request of the arguments, if they make one. If memory runs out, they are read again.
fn request_of_call(host: &Host<'_>) -> Option<Request> {
    let words = again!(host, "args", words_of(host.rt))?;
    request_by(&words)
}

/// The request of these arguments, the first of which is the name of the program.
fn request_by(words: &[String]) -> Option<Request> {
    match words {
        [] | [_] => Some(Request::All),
        [_, word] => request_of(word.as_str()),
        _ => None,
    }
}

/// The request of this argument, if it is one.
fn request_of(word: &str) -> Option<Request> {
    if word == "calls" {
        return Some(Request::Calls);
    }
    Some(Request::One(benchmark_of(word)?))
}

/// Makes the requested calls and runs.
fn run_request(host: &Host<'_>, request: Request) {
    match request {
        Request::All => {
            run_calls(host, 0);
            host.mark("benchmarks");
            run_small(host);
        }
        Request::Calls => run_calls(host, 1),
        Request::One(benchmark) => run_one(host, benchmark),
    }
}

/// Prints the number of arguments, and makes the calls.
fn run_calls(host: &Host<'_>, words: u32) {
    host.tell_number("args", &words, "words");
    make_calls(host);
}

/// Prints the usage.
fn refused(rt: &HostRuntime) -> ExitCode {
    let _ = eprintln!(rt; "usage: tk_calls [calls|descent|distances|near|tour]");
    ExitCode::from(USAGE)
}

/// Prints why a run stopped.
fn stopped(rt: &HostRuntime, reason: Stopped) -> ExitCode {
    let _ = eprintln!(rt; "tk_calls: {reason}");
    ExitCode::FAILURE
}
