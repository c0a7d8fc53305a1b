//! The explanation of a file: its first fault or, if it has none, a summary of its contents.
ghost use Rattle.std.specs.Prelude.{◌≡◌};

use crate::fault_table::{FaultText, text_of};
use crate::page::{CAUSES, MEANING, Page, READ, REMEDY, WANTED};
use crate::read_result::ReadResult;
use crate::remark::remark_on;
use crate::valid::Valid;
use crate::whole::Whole;
use std::alloc::{AllocError, Global};
use std::fmt;
use tk_diagnosis::{Diagnosis, FileFault, LineContext, Remark, diagnosis_at, shown_line, wrapped};
use tk_kinds::{Kind, kind_of, wrapping_of};
use tk_problem::Weights;
use tk_problem_text::read_placed_problem;
use tk_words::{TextFault, TextKind};

/// A file that is explained.
#[derive(Clone, Copy)]
pub struct File<'a> {
    pub alloc: Global,
    pub name: &'a str,
    pub text: &'a [u8],
    pub kind: Kind,
}

impl<'a> File<'a> {
    /// A file whose kind is recognized by its lines or its name.
    pub fn new(alloc: Global, name: &'a str, text: &'a [u8]) -> File<'a>
        ensures { result.text.now ≡ text.now }
    {
        File {
            alloc,
            name,
            text,
            kind: kind_of(text, name),
        }
    }

    /// The line of the file with this number.
    pub fn spot(&self, number: u64) -> LineContext<'a> {
        LineContext::new(self.alloc, self.kind, self.text, number)
    }
}

/// Adds the explanation of a whole file.
///
/// # Errors
/// `AllocError` if memory runs out, as for all functions here.
pub fn add_answer(page: &mut Page, file: &File<'_>, answer: &ReadResult) -> Result<(), AllocError> {
    match answer {
        ReadResult::Invalid(fault) => add_fault(page, file, fault),
        ReadResult::Valid(sound) => add_sound(page, file, sound),
    }
}

/// Adds a summary of a file without a fault, and how such a file is used, or what is probably wrong with it.
pub fn add_sound(page: &mut Page, file: &File<'_>, sound: &Valid) -> Result<(), AllocError> {
    if let Some(remark) = remark_on(sound) {
        return add_remark(page, file, sound, remark);
    }
    let name = file.name;
    let what = sound.sentence();
    page.line(&format_args!("{name} has no fault: it is {what}."))?;
    page.line(&use_of(file.kind))?;
    if has_explicit_weights(sound) {
        add_display(page, file)?;
    }
    Ok(())
}

/// Whether a file is a problem with explicit weights.
fn has_explicit_weights(sound: &Valid) -> bool {
    match sound {
        Valid::Problem(problem) => matches!(problem.weights, Weights::Lower(_)),
        _ => false,
    }
}

/// Adds the fault of the display data of a problem, if there is one.
fn add_display(page: &mut Page, file: &File<'_>) -> Result<(), AllocError> {
    match display_fault(file) {
        None => Ok(()),
        Some(fault) if fault.kind == TextKind::NoMemory => Err(AllocError),
        Some(fault) => {
            page.line(&"But tourkit plot cannot draw it, because its display data have a fault:")?;
            page.line(&"")?;
            add_fault(page, file, &FileFault::Text(fault))
        }
    }
}

/// The fault of the display data of a problem, which only `plot` reports.
fn display_fault(file: &File<'_>) -> Option<TextFault> {
    read_placed_problem(file.alloc, &mut Whole { bytes: file.text }).err()
}

/// Adds a summary of a file without a fault, the line that a remark is about, and what to do.
fn add_remark(
    page: &mut Page,
    file: &File<'_>,
    sound: &Valid,
    remark: Remark,
) -> Result<(), AllocError> {
    let name = file.name;
    let what = sound.sentence();
    let reason = remark.reason();
    page.heading(&format_args!("{name} is {what}, but {reason}."))?;
    if let Some(line) = remark.line(file.text) {
        add_lines(page, file, line, None)?;
    }
    page.labelled(REMEDY, remark.remedy())
}

/// How a file of this kind is used.
fn use_of(kind: Kind) -> &'static str {
    match kind {
        Kind::Problem =>
            "Use it as PROBLEM, as in tourkit check PROBLEM TOUR, or as PROBLEM_FILE in a parameter file.",
        Kind::Tour =>
            "Use it as TOUR, as in tourkit check PROBLEM TOUR, or as INITIAL_TOUR_FILE in a parameter file.",
        Kind::Solution => "Use it as SOLUTION, as in tourkit checksol PROBLEM SOLUTION.",
        Kind::Parameters => "Use it as PARAMETERS, as in tourkit solve PARAMETERS.",
    }
}

/// Adds the explanation of a fault: its line, its meaning, what was expected and found at the line, and what to do.
fn add_fault(page: &mut Page, file: &File<'_>, fault: &FileFault) -> Result<(), AllocError> {
    let name = file.name;
    page.heading(&format_args!("{name}:{fault}"))?;
    add_at(page, file, fault, &file.spot(fault.line()))
}

/// Adds the diagnosis of a fault at its line. If the file is not a text that can be read, the usual causes are left
/// out.
fn add_at(
    page: &mut Page,
    file: &File<'_>,
    fault: &FileFault,
    spot: &LineContext<'_>,
) -> Result<(), AllocError> {
    match wrapping_of(spot.text, spot.number, spot.line) {
        Some(wrapping) => add_here(page, file, fault, &wrapped(wrapping), false),
        None => add_here(page, file, fault, &diagnosis_at(spot, fault)?, true),
    }
}

/// Adds the diagnosis of a fault, with its meaning and, if they apply, its usual causes.
fn add_here(
    page: &mut Page,
    file: &File<'_>,
    fault: &FileFault,
    here: &Diagnosis,
    has_causes: bool,
) -> Result<(), AllocError> {
    add_lines(page, file, fault.line(), here.other)?;
    let general = text_of(fault);
    page.labelled(MEANING, general.when)?;
    add_read(page, here)?;
    if has_causes {
        page.labelled(CAUSES, general.causes)?;
    }
    add_remedy(page, here, general)
}

/// Adds what was expected at the line, and what was found there.
fn add_read(page: &mut Page, here: &Diagnosis) -> Result<(), AllocError> {
    page.labelled_value(WANTED, &here.wanted)?;
    page.labelled_value(READ, &here.read)
}

/// Adds what to do: the remedy of the diagnosis or, without one, that of the table of faults.
fn add_remedy(page: &mut Page, here: &Diagnosis, general: &FaultText) -> Result<(), AllocError> {
    match &here.remedy {
        Some(remedy) => page.labelled_value(REMEDY, remedy),
        None => page.labelled(REMEDY, general.remedy),
    }
}

/// Adds a line and, if there is one, another line, in the order of the file, and a blank line.
fn add_lines(
    page: &mut Page,
    file: &File<'_>,
    number: u64,
    other: Option<u64>,
) -> Result<(), AllocError> {
    let other = other.unwrap_or(number);
    add_numbered(page, file, number.min(other))?;
    if other != number {
        add_numbered(page, file, number.max(other))?;
    }
    page.begin()
}

/// Adds a line of the file after its number.
fn add_numbered(page: &mut Page, file: &File<'_>, number: u64) -> Result<(), AllocError> {
    page.line(&Numbered::of(&file.spot(number)))
}

/// A line of a file after its number.
#[derive(Clone, Copy)]
pub struct Numbered<'a> {
    number: u64,
    line: &'a [u8],
}

impl<'a> Numbered<'a> {
    /// The line of a spot.
    pub fn of(spot: &LineContext<'a>) -> Numbered<'a> {
        Numbered {
            number: spot.number,
            line: spot.line,
        }
    }
}

impl fmt::Display for Numbered<'_> {
    fn fmt<W: fmt::Write>(&self, f: &mut fmt::Formatter<W>) -> fmt::Result {
        let number = self.number;
        if self.line.trim_ascii_end().is_empty() {
            return write!(f, "{number:>6} |");
        }
        let line = shown_line(self.line);
        write!(f, "{number:>6} | {line}")
    }
}
