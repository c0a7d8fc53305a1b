//! The subcommand `checksol`.
use crate::commands::check::{Checked, FOUND};
use std::alloc::Global;
use tk_console::input::Input;
use tk_console::objects::route_object;
use tk_console::printed::{print_judged, print_name};
use tk_console::refusal::Refusal;
use tk_engines::{Fault, route_outcome, route_outcome_of, write_route_verdict};
use tk_problem::Problem;
use tk_routes::RouteVerdict;
use tk_words::FromRead;
use tk_writers::ToWrite;

impl Checked for RouteVerdict {
    fn of_texts(
        alloc: Global,
        problem: &mut FromRead<Input>,
        claim: &mut FromRead<Input>,
    ) -> Result<Self, Fault> {
        route_outcome(alloc, problem, claim)
    }

    fn of(alloc: Global, problem: &Problem, claim: &mut FromRead<Input>) -> Result<Self, Fault> {
        route_outcome_of(alloc, problem, claim)
    }

    fn applies_to(problem: &Problem) -> bool {
        problem.routing.is_some()
    }

    fn print<'a>(
        self,
        rt: &HostRuntime,
        file: Option<&'a str>,
        json: bool,
    ) -> Result<u8, Refusal<'a>> {
        if json {
            print_judged(rt, file, route_object(self))?;
        } else {
            print_name(rt, file)?;
            write_route_verdict(&mut ToWrite::new(rt.stdout()), self)?;
        }
        Ok(status_of(self))
    }
}

/// The exit status: 0 for valid routes, 1 for a fault.
pub fn status_of(verdict: RouteVerdict) -> u8 {
    match verdict {
        RouteVerdict::Valid { .. } => 0,
        _ => FOUND,
    }
}
