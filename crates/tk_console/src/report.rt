//! Reports refusals and notes on standard error.
use crate::message::message_of;
use crate::printed::{Unprinted, print_json};
use crate::progress::Stage;
use crate::refusal::{Reason, Refusal, USAGE};
use crate::refusal_object::RefusalObject;
use crate::search::Search;
use crate::shown::shown_name;
use std::io::{IsTerminal, Write};
use std::process::ExitCode;
use tk_command_line::STANDARD;

/// The object of the refusal if memory runs out. It needs none.
const NO_MEMORY: &[u8] = b"{\"refused\":{\"message\":\"out of memory\"}}\n";

/// Reports why a command stops: in a message on standard error and, if `json` is true, also in an object on standard
/// output. Returns the exit status.
fn refuse(rt: &HostRuntime, refusal: &Refusal<'_>, json: bool) -> ExitCode {
    if json {
        print_object(rt, refusal);
    }
    tell(rt, refusal)
}

/// Prints the object of a refusal. Nothing is printed if standard output has failed, or if there is no memory for it.
fn print_object(rt: &HostRuntime, refusal: &Refusal<'_>) {
    match refusal.reason {
        Reason::NoRequest(_) | Reason::Unwritten | Reason::UnwrittenButKept => {}
        Reason::NoMemory => {
            let _ = rt.stdout().write_all(NO_MEMORY);
        }
        _ => {
            let _ = print_refusal(rt, None, refusal);
        }
    }
}

/// Prints the object of a refusal, with the name of its file if it is one of several.
fn print_refusal<'a>(
    rt: &HostRuntime,
    file: Option<&'a str>,
    refusal: &Refusal<'a>,
) -> Result<(), Unprinted> {
    print_json(rt, &RefusalObject::of(rt, file, refusal)?)
}

/// The exit status of a command. If it stopped, this is reported first.
pub fn end(rt: &HostRuntime, ended: Result<ExitCode, Refusal<'_>>, json: bool) -> ExitCode {
    match ended {
        Ok(status) => status,
        Err(refusal) => refuse(rt, &refusal, json),
    }
}

/// The exit status of one of several files. If the file was refused, this is reported, and the command continues.
///
/// # Errors
/// Why the command stops: the refusal is not about a file, or its object was not printed.
pub fn end_one<'a>(
    rt: &HostRuntime,
    file: &'a str,
    ended: Result<u8, Refusal<'a>>,
    json: bool,
) -> Result<u8, Refusal<'a>> {
    match ended {
        Ok(status) => Ok(status),
        Err(refusal) if refusal.file().is_some() => refuse_one(rt, file, &refusal, json),
        Err(refusal) => Err(refusal),
    }
}

/// Reports why one of several files is refused, and returns the exit status.
fn refuse_one<'a>(
    rt: &HostRuntime,
    file: &'a str,
    refusal: &Refusal<'a>,
    json: bool,
) -> Result<u8, Refusal<'a>> {
    let printed = if json {
        print_refusal(rt, Some(file), refusal)
    } else {
        Ok(())
    };
    let _ = tell(rt, refusal);
    printed?;
    Ok(refusal.status())
}

/// Reports a refusal in a message on standard error, and on a terminal in a tip. Returns the exit status.
pub fn tell(rt: &HostRuntime, refusal: &Refusal<'_>) -> ExitCode {
    if !matches!(refusal.reason, Reason::NoRequest(_)) {
        let _ = eprintln!(rt; "tourkit: {}", message_of(rt, refusal));
        if rt.stderr().is_terminal() {
            give_tip(rt, refusal);
        }
    }
    ExitCode::from(refusal.status())
}

/// Prints a tip about the fault of a file: `explain`, or the option for a search. Standard input cannot be read again.
fn give_tip(rt: &HostRuntime, refusal: &Refusal<'_>) {
    let Some(file) = refusal.file() else {
        return;
    };
    let is_explained = refusal.status() == USAGE && file != STANDARD;
    match refusal.reason {
        Reason::ProblemForParameters(_) => tip_of_search(rt, file),
        Reason::Text(_) | Reason::Parameters(_) if is_explained => {
            let file = shown_name(rt, file);
            let _ = eprintln!(rt;
                "tourkit: tip: 'tourkit explain {file}' describes the fault and how to fix it"
            );
        }
        _ => {}
    }
}

/// Prints a tip about a problem file that was read as a parameter file: the option for a search.
fn tip_of_search(rt: &HostRuntime, file: &str) {
    let (stem, ending) = output_for(file);
    let (file, stem) = (shown_name(rt, file), shown_name(rt, stem));
    let _ = eprintln!(rt;
        "tourkit: tip: this is a problem file; 'tourkit solve {file} -o {stem}{ending}' searches for a solution"
    );
}

/// The name of an output file for a problem: the name of the problem file without its extension, and an extension.
fn output_for(problem: &str) -> (&str, &'static str) {
    match problem.strip_suffix(".vrp") {
        Some(stem) => (stem, ".sol"),
        None => (problem.strip_suffix(".tsp").unwrap_or(problem), ".tour"),
    }
}

/// Notes that a file name is most likely a mistake.
pub fn note(rt: &HostRuntime, key: &str, name: &str, slip: &str) {
    let name = shown_name(rt, name);
    let _ = eprintln!(rt; "tourkit: note: {key} names the file '{name}', including {slip}");
}

/// Notes that nothing more is written to the log of a search.
pub fn end_of_log(rt: &HostRuntime, name: &str) {
    let name = shown_name(rt, name);
    let _ = eprintln!(rt; "tourkit: note: {name} cannot be written, so the log ends there");
}

/// Notes that the time limit has ended a search, and after which trial.
pub fn end_of_time(rt: &HostRuntime, stage: &Stage) {
    let Stage {
        run,
        runs,
        trial,
        trials,
        ..
    } = stage;
    let _ = eprintln!(rt;
        "tourkit: note: time ended the search after trial {trial} of {trials} in run {run} of {runs}"
    );
}

/// Notes that the file for the best tour so far contains a tour from an earlier search.
pub fn earlier_tour(rt: &HostRuntime, name: &str, length: i64, search: &Search<'_, '_>) {
    let name = shown_name(rt, name);
    let initial = if search.is_by_options() {
        "--initial-tour "
    } else {
        "INITIAL_TOUR_FILE = "
    };
    let _ = eprintln!(rt;
        "tourkit: note: {name} has a tour of length {length} from an earlier search; {initial}{name} continues from it"
    );
}

/// Notes that the file for the best result so far contains routes from an earlier search.
pub fn earlier_routes(rt: &HostRuntime, name: &str, cost: i64, search: &Search<'_, '_>) {
    let name = shown_name(rt, name);
    let initial = "--initial-solution ";
    let _ = if search.is_between_routes() {
        eprintln!(rt;
            "tourkit: note: {name} has routes of cost {cost} from an earlier search; {initial}{name} continues from it"
        )
    } else {
        eprintln!(rt; "tourkit: note: {name} has routes of cost {cost} from an earlier search")
    };
}

/// Notes that the file for the best result so far is not known to solve the problem, and is kept.
pub fn other_best(rt: &HostRuntime, name: &str) {
    let name = shown_name(rt, name);
    let _ = eprintln!(rt;
        "tourkit: note: {name} is not known to solve this problem, so it is kept, and nothing is saved there"
    );
}
