//! Parses the arguments of a call.

use crate::command::{refused, tourkit};
use crate::completions;
use crate::request::{PlotFiles, Request, STANDARD};
use crate::search_options::SearchOptions;
use crate::subcommand::Kind;
use crate::subcommands::{check, checksol, explain, info, matrix, named, near, plot, solve};
use crate::tips::with_tips;
use clap::error::ErrorKind;
use clap::{ArgMatches, Error};
use std::alloc::{AllocError, Global};

/// The exit status if the arguments are rejected.
const USAGE: u8 = 2;

/// The message if both files are standard input.
const TWICE_STANDARD: &str = "only one file can be '-' (standard input)";

/// The message if standard input is named as the output file.
const STANDARD_OUTPUT: &str = "'--output' cannot be '-', which means standard input";

/// The message if standard input is named as the log.
const STANDARD_LOG: &str = "'--log' cannot be '-', which means standard input";

/// The message if the runs of a search would begin with a tour and with routes.
const TWO_STARTS: &str =
    "the argument '--initial-tour <TOUR>' cannot be used with '--initial-solution <SOLUTION>'";

/// The message about routes to begin with, if each route is improved by itself.
const NO_START: &str =
    "the argument '--initial-solution <SOLUTION>' cannot be used with '--within-routes'";

/// The message about a time limit, if each route is improved by itself.
const NO_SECONDS: &str = "the argument '--seconds <N>' cannot be used with '--within-routes'";

/// The message if names of nodes were given, but no page to show them in was requested.
const NO_PAGE: &str = "the argument '--names <FILE>' needs '--html'";

/// The message if two tours or solutions were given, but no page to show them in was requested.
const NO_PAGE_OF_TWO: &str = "the argument '[OTHER]' needs '--html'";

/// Why there is no request.
pub enum NoRequest {
    /// Memory ran out.
    NoMemory,
    /// Help, the version or the error about the arguments could not be written.
    Unwritten,
    /// It was written, and the program exits with this status.
    Reported(u8),
}

/// Parses the arguments of a call. If they do not make a request, writes help, the version or the error about them.
///
/// # Errors
/// `NoRequest`, as it says.
pub fn parse<'a>(rt: &HostRuntime, words: &'a [String]) -> Result<Request<'a>, NoRequest> {
    match request(rt.alloc(), words) {
        Ok(Some(request)) => Ok(request),
        Ok(None) => Err(NoRequest::Reported(USAGE)),
        Err(error) => Err(tell(rt, words, &error)),
    }
}

/// Writes help, the version or the error about the arguments.
fn tell(rt: &HostRuntime, words: &[String], error: &Error) -> NoRequest {
    if error.kind() == ErrorKind::OutOfMemory {
        return NoRequest::NoMemory;
    }
    let written = match with_tips(rt.alloc(), words, error) {
        Ok(Some(text)) => eprint!(rt; "{text}"),
        Ok(None) => error.print(rt),
        Err(_) => return NoRequest::NoMemory,
    };
    match written {
        Ok(()) => NoRequest::Reported(error.exit_code() as u8),
        Err(_) => NoRequest::Unwritten,
    }
}

/// The request of the arguments, if they can be parsed and combined.
fn request<'a>(alloc: Global, words: &'a [String]) -> Result<Option<Request<'a>>, Error> {
    let command = tourkit(alloc, completions::are_asked(words))?;
    let matches = command.try_get_matches_from(words)?;
    match matches.subcommand() {
        Some((name, words)) => asked_of(alloc, name, words),
        None => Ok(completions::request(&matches)),
    }
}

/// The request of the arguments of the subcommand with this name, if they can be combined.
fn asked_of<'a>(
    alloc: Global,
    name: &str,
    words: &ArgMatches<'a>,
) -> Result<Option<Request<'a>>, Error> {
    let Some(subcommand) = named(name) else {
        return Ok(None);
    };
    let request = asked_by(alloc, subcommand.kind, words)?;
    match request.as_ref().and_then(misfit) {
        Some(message) => Err(refused(alloc, &subcommand, message)?),
        None => Ok(request),
    }
}

/// The message about arguments that cannot be combined.
fn misfit(request: &Request<'_>) -> Option<&'static str> {
    match request {
        Request::Check { problem, tours, .. } => twice_standard(*problem, tours),
        Request::Checksol {
            problem,
            solutions,
            ..
        } => twice_standard(*problem, solutions),
        Request::Plot { files, html } => plot_misfit(files, *html),
        Request::Solve { shown, .. } if shown.log == Some(STANDARD) => Some(STANDARD_LOG),
        Request::Solve {
            file,
            options: Some(options),
            ..
        } => search_misfit(*file, options),
        _ => None,
    }
}

/// The message about files of `plot` that cannot be combined, or that need a page.
fn plot_misfit(files: &PlotFiles<'_>, html: bool) -> Option<&'static str> {
    if !html && files.names.is_some() {
        return Some(NO_PAGE);
    }
    if !html && files.other.is_some() {
        return Some(NO_PAGE_OF_TWO);
    }
    let others = [
        files.claim.unwrap_or(""),
        files.other.unwrap_or(""),
        files.names.unwrap_or(""),
    ];
    twice_standard(files.problem, &others)
}

/// The message if a problem file and others contain standard input twice.
fn twice_standard(problem: &str, others: &[&str]) -> Option<&'static str> {
    let mut is_named = problem == STANDARD;
    for other in others {
        if *other == STANDARD {
            if is_named {
                return Some(TWICE_STANDARD);
            }
            is_named = true;
        }
    }
    None
}

/// The message about the options of a search that cannot be combined.
fn search_misfit(file: &str, options: &SearchOptions<'_>) -> Option<&'static str> {
    if options.within_routes && options.seconds.is_some() {
        return Some(NO_SECONDS);
    }
    match start_misfit(options) {
        Some(message) => Some(message),
        None => file_misfit(file, options),
    }
}

/// The message about options that cannot be combined with `--initial-solution`.
fn start_misfit(options: &SearchOptions<'_>) -> Option<&'static str> {
    options.initial_solution?;
    if options.initial_tour.is_some() {
        Some(TWO_STARTS)
    } else if options.within_routes {
        Some(NO_START)
    } else {
        None
    }
}

/// The message about files of a search that cannot be combined: standard input is named twice, or as the output file.
fn file_misfit(file: &str, options: &SearchOptions<'_>) -> Option<&'static str> {
    if file == STANDARD && options.initial() == Some(STANDARD) {
        Some(TWICE_STANDARD)
    } else if options.output == Some(STANDARD) {
        Some(STANDARD_OUTPUT)
    } else {
        None
    }
}

/// The request of the arguments of a subcommand.
fn asked_by<'a>(
    alloc: Global,
    kind: Kind,
    words: &ArgMatches<'a>,
) -> Result<Option<Request<'a>>, AllocError> {
    match kind {
        Kind::Check => check::request(alloc, words),
        Kind::Checksol => checksol::request(alloc, words),
        Kind::Explain => Ok(explain::request(words)),
        Kind::Info => Ok(info::request(words)),
        Kind::Matrix => Ok(matrix::request(words)),
        Kind::Near => Ok(near::request(words)),
        Kind::Plot => Ok(plot::request(words)),
        Kind::Solve => Ok(solve::request(words)),
    }
}
