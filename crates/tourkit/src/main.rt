//! `tourkit`: a command-line toolkit for symmetric travelling salesman and capacitated vehicle routing problems.
#![tactic(auto)]

mod best;
mod best_place;
mod call;
mod commands;
mod embedded;
mod explained_text;
mod found;
mod judged;
mod log;
mod output;
mod part;
mod time_limit;
mod vehicles;
mod watching;
mod words;
mod written;

use std::process::ExitCode;

fn main(rt: HostRuntime) -> ExitCode {
    call::run_call(&rt)
}
