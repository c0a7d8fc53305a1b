//! The subcommand `solve`.
use crate::commands::check::FOUND;
use crate::commands::solve_options::{is_parameter_file, is_problem_file, settings_of};
use crate::commands::solve_outcome::{Stop, outcome_of};
use crate::log::Log;
use crate::output::save;
use crate::vehicles::MissingVehicles;
use crate::watching::SearchWatch;
use crate::written::{InputFiles, check_written, note_slips};
use std::io::IsTerminal;
use std::process::ExitCode;
use tk_command_line::{DisplayOptions, STANDARD, SearchOptions};
use tk_console::between_object::BetweenObject;
use tk_console::file_id::FileId;
use tk_console::input::open;
use tk_console::objects::{RouteSearchObject, TourSearchObject};
use tk_console::printed::{Unprinted, print_json, print_line};
use tk_console::refusal::{KeyMisfit, Misfit, Reason, Refusal};
use tk_console::report;
use tk_console::search::Search;
use tk_engines::{Fault, SearchOutcome, write_found, write_search_lines};
use tk_params::{ParamFault, ParamKind, Params, read_params};
use tk_words::{FromRead, TextKind};
use tk_writers::ToWrite;

/// `solve PARAMETERS`, or with options `solve PROBLEM`.
///
/// # Errors
/// Why it stopped.
pub fn solve_command<'a>(
    rt: &'a HostRuntime,
    file: &'a str,
    options: Option<SearchOptions<'a>>,
    shown: DisplayOptions<'a>,
) -> Result<ExitCode, Refusal<'a>> {
    match options {
        Some(options) => solve_problem(rt, file, &options, shown),
        None => solve_parameters(rt, file, shown),
    }
}

/// Runs the search that a parameter file specifies. If it stops, that is reported here: only the parameters have the
/// names of its files.
fn solve_parameters<'a>(
    rt: &'a HostRuntime,
    file: &'a str,
    shown: DisplayOptions<'a>,
) -> Result<ExitCode, Refusal<'a>> {
    let parameters = open(rt, file)?;
    let parameters_id = parameters.id(rt);
    match read_params(rt.alloc(), &mut FromRead::new(parameters)) {
        Ok(params) => {
            let search = Search::by_keys(file, &params);
            Ok(report::end(rt, solve(rt, &search, parameters_id, shown), shown.json))
        }
        Err(fault) => Err(no_parameters(rt, file, parameters_id, fault)),
    }
}

/// The refusal of a parameter file with a fault.
fn no_parameters<'a>(
    rt: &HostRuntime,
    file: &'a str,
    id: Option<FileId>,
    fault: ParamFault,
) -> Refusal<'a> {
    if is_problem(rt, file, id, &fault) {
        Reason::ProblemForParameters(fault).about(file)
    } else {
        Reason::Parameters(fault).about(file)
    }
}

/// Returns whether a file that was read as a parameter file is a problem file. This decides only whether a tip is
/// printed, so the file is read again only for a terminal, and standard input is not.
fn is_problem(rt: &HostRuntime, file: &str, id: Option<FileId>, fault: &ParamFault) -> bool {
    rt.stderr().is_terminal()
        && file != STANDARD
        && fault.kind == ParamKind::UnknownKey
        && id.is_some()
        && is_problem_file(rt, file)
}

/// Runs the search that options specify.
fn solve_problem<'a>(
    rt: &'a HostRuntime,
    problem: &'a str,
    options: &SearchOptions<'a>,
    shown: DisplayOptions<'a>,
) -> Result<ExitCode, Refusal<'a>> {
    let settings = settings_of(rt, options)?;
    solve(
        rt,
        &Search::by_options(problem, options, settings),
        None,
        shown,
    )
}

/// Runs a search. Before reading the problem or the initial tour, it opens both files, checks the output file, and sets
/// up the observer.
fn solve<'a>(
    rt: &'a HostRuntime,
    search: &Search<'_, 'a>,
    parameters: Option<FileId>,
    shown: DisplayOptions<'a>,
) -> Result<ExitCode, Refusal<'a>> {
    let (problem, initial) = search.open(rt)?;
    let inputs = InputFiles {
        parameters,
        problem: problem.id(rt),
        initial: initial.as_ref().and_then(|initial| initial.id(rt)),
    };
    let mut watch = observer_of(rt, search, inputs, shown)?;
    match outcome_of(rt.alloc(), search, problem, initial, &mut watch) {
        Ok(outcome) => {
            watch.report_limit();
            finish(rt, search, &outcome, shown.json, &mut watch)
        }
        Err(stop) => Err(refusal_of(rt, search, inputs, stop)),
    }
}

/// The observer of a search. The output file and the log are checked first.
fn observer_of<'a>(
    rt: &'a HostRuntime,
    search: &Search<'_, 'a>,
    inputs: InputFiles,
    shown: DisplayOptions<'a>,
) -> Result<SearchWatch<'a>, Refusal<'a>> {
    check_written(rt, search, inputs)?;
    let log = Log::open(rt, search, inputs, shown.log)?;
    Ok(SearchWatch::new(rt, search, inputs, shown.progress, log)?)
}

/// The refusal if a search stopped before it wrote anything.
fn refusal_of<'a>(
    rt: &HostRuntime,
    search: &Search<'_, 'a>,
    inputs: InputFiles,
    stop: Stop,
) -> Refusal<'a> {
    match stop {
        Stop::Fault(fault) => stopped(rt, search, inputs, &fault),
        Stop::NotForType(name) => Reason::UnfitKey(name, KeyMisfit::Type).about(search.problem),
    }
}

/// Prints the outcome of a search, and saves the tour or the routes. The text for the output file is first written to
/// memory.
fn finish<'a>(
    rt: &HostRuntime,
    search: &Search<'_, 'a>,
    outcome: &SearchOutcome,
    json: bool,
    watch: &mut SearchWatch<'_>,
) -> Result<ExitCode, Refusal<'a>> {
    let mut file = ToWrite::new(Vec::new(rt.alloc()));
    if write_found(&mut file, outcome).is_err() {
        return Err(Reason::NoMemory.alone());
    }
    match print(rt, search, outcome, json) {
        Ok(()) => Ok(save_found(rt, search, outcome, &file.inner, watch)),
        Err(Unprinted::NoMemory) => Err(Reason::NoMemory.alone()),
        Err(Unprinted::Unwritten) => Err(unwritten(search, &file.inner, watch)),
    }
}

/// Prints the outcome of a search, as lines or as JSON.
fn print(
    rt: &HostRuntime,
    search: &Search<'_, '_>,
    outcome: &SearchOutcome,
    json: bool,
) -> Result<(), Unprinted> {
    if json {
        return print_object(rt, search, outcome);
    }
    write_search_lines(&mut ToWrite::new(rt.stdout()), search.ignored(), outcome)?;
    match MissingVehicles::of(search, outcome) {
        Some(missing) => print_line(rt, &missing),
        None => Ok(()),
    }
}

/// Prints the outcome of a search as JSON.
fn print_object(
    rt: &HostRuntime,
    search: &Search<'_, '_>,
    outcome: &SearchOutcome,
) -> Result<(), Unprinted> {
    let ignored = search.ignored();
    match outcome {
        SearchOutcome::Tour(found) => {
            print_json(rt, &TourSearchObject::of(rt.alloc(), ignored, found)?)
        }
        SearchOutcome::Routes(found) => print_json(
            rt,
            &RouteSearchObject::of(rt.alloc(), ignored, found, search.vehicles())?,
        ),
        SearchOutcome::Between(found) => print_json(
            rt,
            &BetweenObject::of(rt.alloc(), ignored, found, search.vehicles())?,
        ),
    }
}

/// The refusal if a write to standard output failed. The result is kept next to the output file if possible.
fn unwritten<'a>(search: &Search<'_, 'a>, text: &[u8], watch: &mut SearchWatch<'_>) -> Refusal<'a> {
    match search.written_file() {
        Some(output) if watch.keep_result(text) => Reason::UnwrittenButKept.about(output),
        _ => Reason::Unwritten.alone(),
    }
}

/// Why a search stopped before it wrote anything.
fn stopped<'a>(
    rt: &HostRuntime,
    search: &Search<'_, 'a>,
    inputs: InputFiles,
    fault: &Fault,
) -> Refusal<'a> {
    match fault {
        Fault::Tour(_) | Fault::Solution(_) | Fault::Initial(_) | Fault::InitialRoutes(_) => {
            Refusal::stopped(search.initial.unwrap_or(""), fault)
        }
        Fault::Problem(text)
            if search.is_by_options()
                && !matches!(text.kind, TextKind::Read | TextKind::NoMemory)
                && inputs.problem.is_some()
                && is_parameter_file(rt, search.problem) => {
            Reason::Unfit(Misfit::ParameterFile).about(search.problem)
        }
        fault => Refusal::stopped(search.problem, fault),
    }
}

/// Writes the text to the output file, if there is one, and notes file names that look like mistakes. The file with the
/// best result so far is removed, unless the write failed. That is reported here, since the outcome has been printed.
fn save_found(
    rt: &HostRuntime,
    search: &Search<'_, '_>,
    outcome: &SearchOutcome,
    text: &[u8],
    watch: &SearchWatch<'_>,
) -> ExitCode {
    let saved = match search.written_file() {
        Some(name) => save(rt, name, text),
        None => Ok(()),
    };
    let status = match saved {
        Ok(()) => {
            watch.end();
            status_of(search, outcome)
        }
        Err(refusal) => report::tell(rt, &refusal),
    };
    note_slips(rt, search);
    status
}

/// The exit status of a search that has ended: 1 if there are more routes than vehicles.
fn status_of(search: &Search<'_, '_>, outcome: &SearchOutcome) -> ExitCode {
    match MissingVehicles::of(search, outcome) {
        Some(_) => ExitCode::from(FOUND),
        None => ExitCode::SUCCESS,
    }
}
