//! The messages of refusals.
use crate::named::Named;
use crate::refusal::{KeyMisfit, Reason, Refusal};
use crate::shown::{ShownName, shown_name};
use std::fmt;
use tk_tour::TourFault;

/// The message of a refusal, as standard error shows it after the name of the program.
#[derive(Clone, Copy)]
pub struct Message<'a> {
    /// The file or the option that the message names, if any.
    file: ShownName<'a>,
    reason: Reason,
}

/// The message of a refusal.
pub fn message_of<'a>(rt: &HostRuntime, refusal: &Refusal<'a>) -> Message<'a> {
    Message {
        file: shown_name(rt, refusal.about.unwrap_or("")),
        reason: refusal.reason,
    }
}

impl fmt::Display for Message<'_> {
    fn fmt<W: fmt::Write>(&self, f: &mut fmt::Formatter<W>) -> fmt::Result {
        let file = self.file;
        match self.reason {
            Reason::NoRequest(_) => Ok(()),
            Reason::NotText => f.write_str("an argument is not UTF-8"),
            Reason::Unopened => write!(f, "{file}: cannot be opened"),
            Reason::Text(fault) => write!(f, "{file}:{fault}"),
            Reason::Parameters(fault) | Reason::ProblemForParameters(fault) => {
                write!(f, "{file}:{fault}")
            }
            Reason::Initial(fault) => write_initial(f, file, fault),
            Reason::InitialRoutes(fault) => write!(f, "{file}: initial solution: {fault}"),
            Reason::Names(fault) => write!(f, "{file}: {fault}"),
            Reason::Unfit(misfit) => write!(f, "{file}: {}", misfit.words()),
            Reason::UnfitKey(named, misfit) => write_unfit_key(f, file, named, misfit),
            Reason::Option(kind) => write!(f, "{file}: {kind}"),
            Reason::Unwritten => f.write_str("write fault"),
            Reason::UnwrittenButKept => { write!(f, "write fault; the result is in {file}.best") }
            Reason::NoMemory => f.write_str("out of memory"),
        }
    }
}

/// Writes the message about an initial tour.
fn write_initial<W: fmt::Write>(
    f: &mut fmt::Formatter<W>,
    file: ShownName<'_>,
    fault: TourFault,
) -> fmt::Result {
    match fault {
        TourFault::WrongCount => write!(f, "{file}: initial tour: 1 WrongCount"),
        TourFault::OutOfRange(place) => write!(f, "{file}: initial tour: 2 OutOfRange {place}"),
        TourFault::RepeatedCity(place) => {
            write!(f, "{file}: initial tour: 3 RepeatedCity {place}")
        }
        TourFault::NoMemory => f.write_str("out of memory"),
    }
}

/// Writes the message about a key or an option.
fn write_unfit_key<W: fmt::Write>(
    f: &mut fmt::Formatter<W>,
    file: ShownName<'_>,
    named: Named,
    misfit: KeyMisfit,
) -> fmt::Result {
    let named = named.word();
    match misfit {
        KeyMisfit::Type => write!(f, "{file}: {named} does not fit the problem's type"),
        KeyMisfit::SameFile(other) => {
            write!(f, "{file}: {named} is the same file as {}", other.word())
        }
        KeyMisfit::ParameterFile => write!(f, "{file}: {named} is the parameter file"),
    }
}
