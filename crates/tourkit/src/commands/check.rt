//! The subcommand `check`, and what it has in common with `checksol`.
use std::alloc::Global;
use std::process::ExitCode;
use tk_console::input::{Input, open, open_two, problem_in};
use tk_console::objects::tour_object;
use tk_console::printed::{print_judged, print_name};
use tk_console::refusal::{Misfit, Reason, Refusal};
use tk_console::report::end_one;
use tk_engines::{Fault, TourOutcome, tour_outcome, tour_outcome_of, write_tour_outcome};
use tk_problem::Problem;
use tk_tour::Verdict;
use tk_words::FromRead;
use tk_writers::ToWrite;

/// Exit status: a check found a fault.
pub const FOUND: u8 = 1;

/// The outcome of checking a tour or a solution.
pub trait Checked: Sized {
    /// The outcome for the texts of a problem and of a tour or a solution.
    fn of_texts(
        alloc: Global,
        problem: &mut FromRead<Input>,
        claim: &mut FromRead<Input>,
    ) -> Result<Self, Fault>;

    /// The outcome for a problem that has been read.
    fn of(alloc: Global, problem: &Problem, claim: &mut FromRead<Input>) -> Result<Self, Fault>;

    /// Whether problems of this type have such tours or solutions.
    fn applies_to(problem: &Problem) -> bool;

    /// Prints the outcome, as a line or as JSON, with the name of the file if it is one of several. Returns the exit
    /// status.
    ///
    /// # Errors
    /// Why it was not printed.
    fn print<'a>(
        self,
        rt: &HostRuntime,
        file: Option<&'a str>,
        json: bool,
    ) -> Result<u8, Refusal<'a>>;
}

/// `check PROBLEM TOUR.. [--json]`, or the same for solutions.
///
/// # Errors
/// Why it stopped.
pub fn check_command<'a, C: Checked>(
    rt: &HostRuntime,
    problem_file: &'a str,
    claim_files: &[&'a str],
    json: bool,
) -> Result<ExitCode, Refusal<'a>> {
    let status = match claim_files {
        [claim_file] => check_one::<C>(rt, problem_file, *claim_file, json),
        _ => check_several::<C>(rt, problem_file, claim_files, json),
    };
    Ok(ExitCode::from(status?))
}

/// Checks a tour or a solution, and returns the exit status. Both files are opened before either is read.
fn check_one<'a, C: Checked>(
    rt: &HostRuntime,
    problem_file: &'a str,
    claim_file: &'a str,
    json: bool,
) -> Result<u8, Refusal<'a>> {
    let (problem, claim) = open_two(rt, problem_file, claim_file)?;
    let mut problem = FromRead::new(problem);
    match C::of_texts(rt.alloc(), &mut problem, &mut FromRead::new(claim)) {
        Ok(checked) => checked.print(rt, None, json),
        Err(fault) => Err(Refusal::stopped_by_claim(problem_file, claim_file, &fault)),
    }
}

/// Checks several files, one after another, and returns the highest exit status. The problem is read before any of them
/// is opened.
fn check_several<'a, C: Checked>(
    rt: &HostRuntime,
    problem_file: &'a str,
    claim_files: &[&'a str],
    json: bool,
) -> Result<u8, Refusal<'a>> {
    let problem = problem_in(rt, problem_file)?;
    if !C::applies_to(&problem) {
        return Err(Reason::Unfit(Misfit::NotRouting).about(problem_file));
    }
    check_each::<C>(rt, &problem, claim_files, json)
}

/// Checks several files against a problem that has been read.
fn check_each<'a, C: Checked>(
    rt: &HostRuntime,
    problem: &Problem,
    claim_files: &[&'a str],
    json: bool,
) -> Result<u8, Refusal<'a>> {
    let mut highest: u8 = 0;
    for claim_file in claim_files {
        let checked = check_file::<C>(rt, problem, *claim_file, json);
        highest = highest.max(end_one(rt, *claim_file, checked, json)?);
    }
    Ok(highest)
}

/// Checks one of several files, and returns the exit status.
fn check_file<'a, C: Checked>(
    rt: &HostRuntime,
    problem: &Problem,
    claim_file: &'a str,
    json: bool,
) -> Result<u8, Refusal<'a>> {
    let claim = open(rt, claim_file)?;
    match C::of(rt.alloc(), problem, &mut FromRead::new(claim)) {
        Ok(checked) => checked.print(rt, Some(claim_file), json),
        Err(fault) => Err(Refusal::stopped(claim_file, &fault)),
    }
}

impl Checked for TourOutcome {
    fn of_texts(
        alloc: Global,
        problem: &mut FromRead<Input>,
        claim: &mut FromRead<Input>,
    ) -> Result<Self, Fault> {
        tour_outcome(alloc, problem, claim)
    }

    fn of(alloc: Global, problem: &Problem, claim: &mut FromRead<Input>) -> Result<Self, Fault> {
        tour_outcome_of(alloc, problem, claim)
    }

    fn applies_to(_problem: &Problem) -> bool {
        true
    }

    fn print<'a>(
        self,
        rt: &HostRuntime,
        file: Option<&'a str>,
        json: bool,
    ) -> Result<u8, Refusal<'a>> {
        let status = status_of(self.verdict());
        if json {
            print_judged(rt, file, tour_object(self))?;
        } else {
            print_name(rt, file)?;
            write_tour_outcome(&mut ToWrite::new(rt.stdout()), &self)?;
        }
        Ok(status)
    }
}

/// The exit status: 0 for a tour, 1 for a fault.
pub fn status_of(verdict: Verdict) -> u8 {
    match verdict {
        Verdict::Tour => 0,
        _ => FOUND,
    }
}
