//! Why a command stops.
use crate::named::Named;
use crate::names::NamesFault;
use crate::printed::Unprinted;
use std::alloc::AllocError;
use tk_command_line::NoRequest;
use tk_engines::{Fault, RouteFault};
use tk_params::{ParamFault, ParamKind};
use tk_tour::TourFault;
use tk_words::{TextFault, TextKind};
use tk_writers::WriteFault;

/// Exit status: the arguments, a file or a parameter were rejected.
pub const USAGE: u8 = 2;

/// Exit status: a file could not be opened, read or written, or memory ran out.
pub const SYSTEM: u8 = 3;

/// Why a command stops.
#[derive(Clone, Copy)]
pub struct Refusal<'a> {
    /// The file that it is about, if any. If an option has an invalid value, the option.
    pub about: Option<&'a str>,
    pub reason: Reason,
}

/// Why a command stops, without the name that it is about.
#[derive(Clone, Copy)]
pub enum Reason {
    /// The arguments make no request. What is to be said about them has been written; the value is the exit status.
    NoRequest(u8),
    /// An argument is not UTF-8.
    NotText,
    /// The file cannot be opened.
    Unopened,
    /// The problem, the tour or the solution in the file has this fault.
    Text(TextFault),
    /// The parameter file has this fault.
    Parameters(ParamFault),
    /// The file is a problem file, which has this fault as a parameter file.
    ProblemForParameters(ParamFault),
    /// The initial tour in the file is not a tour of the problem's cities.
    Initial(TourFault),
    /// The initial solution in the file has this fault.
    InitialRoutes(RouteFault),
    /// The file of names has this fault.
    Names(NamesFault),
    /// The file does not fit the command.
    Unfit(Misfit),
    /// The key or the option with this name does not fit the problem file or the parameter file.
    UnfitKey(Named, KeyMisfit),
    /// The option has an invalid value.
    Option(ParamKind),
    /// The output could not be written.
    Unwritten,
    /// The output could not be written, but the result is in the file with this name and `.best`.
    UnwrittenButKept,
    /// Memory ran out.
    NoMemory,
}

impl Reason {
    /// The refusal for this reason, about a file or an option.
    pub fn about(self, name: &str) -> Refusal<'_> {
        Refusal {
            about: Some(name),
            reason: self,
        }
    }

    /// The refusal for this reason, about no file.
    pub fn alone<'a>(self) -> Refusal<'a> {
        Refusal {
            about: None,
            reason: self,
        }
    }
}

/// Why a file does not fit a command.
#[derive(Clone, Copy)]
pub enum Misfit {
    /// The problem is not a CVRP.
    NotRouting,
    /// The problem has too many nodes for a matrix.
    TooLarge,
    /// The problem has no coordinates to draw.
    NoPlaces,
    /// The argument of `explain` is neither the number of a fault nor the name of a file.
    NoSuchFault,
    /// A parameter file was given with search options.
    ParameterFile,
}

/// Why a key or an option does not fit.
#[derive(Clone, Copy)]
pub enum KeyMisfit {
    /// It does not apply to problems of this type.
    Type,
    /// It names the same file as this key, option, argument or stream.
    SameFile(Named),
    /// It names the parameter file.
    ParameterFile,
}

impl<'a> Refusal<'a> {
    /// Why an engine stopped, with the name of the file that it read.
    pub fn stopped(file: &'a str, fault: &Fault) -> Refusal<'a> {
        let reason = reason_of(*fault);
        match reason {
            Reason::NoMemory | Reason::Unwritten => reason.alone(),
            _ => reason.about(file),
        }
    }

    /// Why an engine stopped, with the name of the second file if its text has the fault, otherwise of the problem
    /// file.
    pub fn stopped_by_claim(
        problem_file: &'a str,
        claim_file: &'a str,
        fault: &Fault,
    ) -> Refusal<'a> {
        match *fault {
            Fault::Tour(fault) | Fault::Solution(fault) => Reason::Text(fault).about(claim_file),
            _ => Refusal::stopped(problem_file, fault),
        }
    }

    /// The name of the file in the message.
    pub fn file(&self) -> Option<&'a str> {
        match self.reason {
            Reason::Option(_) | Reason::UnwrittenButKept => None,
            _ => self.about,
        }
    }

    /// The exit status.
    pub fn status(&self) -> u8 {
        match self.reason {
            Reason::NoRequest(status) => status,
            Reason::Text(fault) => status_of_text(fault.kind),
            Reason::Parameters(fault) => status_of_parameters(fault.kind),
            Reason::Unopened
            | Reason::Names(NamesFault::Read)
            | Reason::Unwritten
            | Reason::UnwrittenButKept
            | Reason::NoMemory => SYSTEM,
            _ => USAGE,
        }
    }
}

/// The reason for which an engine stopped.
fn reason_of(fault: Fault) -> Reason {
    match fault {
        Fault::Problem(fault) | Fault::Tour(fault) | Fault::Solution(fault) => Reason::Text(fault),
        Fault::Initial(TourFault::NoMemory) | Fault::NoMemory => Reason::NoMemory,
        Fault::Initial(fault) => Reason::Initial(fault),
        Fault::InitialRoutes(fault) => Reason::InitialRoutes(fault),
        Fault::WrongType => Reason::Unfit(Misfit::NotRouting),
        Fault::NotForType(key) => Reason::UnfitKey(Named::Key(key), KeyMisfit::Type),
        Fault::TooLarge => Reason::Unfit(Misfit::TooLarge),
        Fault::NoPlaces => Reason::Unfit(Misfit::NoPlaces),
        Fault::WrongNames(nodes) => Reason::Names(NamesFault::WrongCount(nodes)),
        Fault::Write(_) => Reason::Unwritten,
    }
}

/// The exit status for a fault of a text.
fn status_of_text(kind: TextKind) -> u8 {
    match kind {
        TextKind::Read | TextKind::NoMemory => SYSTEM,
        _ => USAGE,
    }
}

/// The exit status for a fault of a parameter file.
fn status_of_parameters(kind: ParamKind) -> u8 {
    match kind {
        ParamKind::Read | ParamKind::NoMemory => SYSTEM,
        _ => USAGE,
    }
}

impl Misfit {
    /// The reason in words.
    pub fn words(self) -> &'static str {
        match self {
            Misfit::NotRouting => "not a CVRP",
            Misfit::TooLarge => "too large for a matrix",
            Misfit::NoPlaces => "no coordinates",
            Misfit::NoSuchFault => "no such fault number and no such file",
            Misfit::ParameterFile => {
                "search options need a problem file, but this is a parameter file"
            }
        }
    }
}

impl From<AllocError> for Refusal<'_> {
    fn from(_error: AllocError) -> Self {
        Reason::NoMemory.alone()
    }
}

impl From<WriteFault> for Refusal<'_> {
    fn from(_fault: WriteFault) -> Self {
        Reason::Unwritten.alone()
    }
}

impl From<Unprinted> for Refusal<'_> {
    fn from(reason: Unprinted) -> Self {
        match reason {
            Unprinted::Unwritten => Reason::Unwritten.alone(),
            Unprinted::NoMemory => Reason::NoMemory.alone(),
        }
    }
}

impl From<NoRequest> for Refusal<'_> {
    fn from(reason: NoRequest) -> Self {
        match reason {
            NoRequest::NoMemory => Reason::NoMemory.alone(),
            NoRequest::Unwritten => Reason::Unwritten.alone(),
            NoRequest::Reported(status) => Reason::NoRequest(status).alone(),
        }
    }
}
