//! The explanation of a line: the first fault of the file, if it is on this line; otherwise how the line is read.
use crate::page::Page;
use crate::read_result::{ReadResult, answer_to};
use crate::whole_file::{File, Numbered, add_answer, add_sound};
use std::alloc::AllocError;
use tk_diagnosis::{FileFault, LineContext, interpretation_of};
use tk_kinds::{Kind, last_line};

/// Adds the explanation of a line.
///
/// # Errors
/// `AllocError` if memory runs out, as for all functions here.
pub fn add_for_line(
    page: &mut Page,
    file: &File<'_>,
    answer: &ReadResult,
    number: u64,
) -> Result<(), AllocError> {
    if is_faulty_at(answer, number) {
        return add_answer(page, file, answer);
    }
    add_line(page, file, number)?;
    add_whole(page, file, answer)?;
    add_others(page, file, number)
}

/// Whether an answer is a fault on this line.
fn is_faulty_at(answer: &ReadResult, line: u64) -> bool {
    match answer {
        ReadResult::Invalid(fault) => fault.line() == line,
        ReadResult::Valid(_) => false,
    }
}

/// Adds the summary of a whole file, in one or two lines.
fn add_whole(page: &mut Page, file: &File<'_>, answer: &ReadResult) -> Result<(), AllocError> {
    match answer {
        ReadResult::Invalid(fault) => {
            let name = file.name;
            page.line(&format_args!("{name}:{fault} is the first fault in the file."))
        }
        ReadResult::Valid(sound) => add_sound(page, file, sound),
    }
}

/// Adds a line and how it is read, or a sentence that the file has no such line.
fn add_line(page: &mut Page, file: &File<'_>, number: u64) -> Result<(), AllocError> {
    let last = last_line(file.text);
    if number > last {
        return add_missing(page, file.name, number, last);
    }
    add_taken(page, file.name, &file.spot(number))
}

/// Adds a sentence that the file with this name has no such line.
fn add_missing(page: &mut Page, name: &str, number: u64, last: u64) -> Result<(), AllocError> {
    page.line(&format_args!("{name} has no line {number}; its last line is line {last}."))
}

/// Adds how a line of the file with this name is read, and the line.
fn add_taken(page: &mut Page, name: &str, spot: &LineContext<'_>) -> Result<(), AllocError> {
    let number = spot.number;
    let taken = interpretation_of(spot);
    page.heading(&format_args!("{name}:{number}: {taken}"))?;
    page.heading(&Numbered::of(spot))
}

/// Adds, for each other kind of file, the first fault that its reader reports, if it is on this line.
fn add_others(page: &mut Page, file: &File<'_>, number: u64) -> Result<(), AllocError> {
    for other in [Kind::Problem, Kind::Tour, Kind::Solution, Kind::Parameters] {
        if other != file.kind {
            add_other(page, file, other, number)?;
        }
    }
    Ok(())
}

/// Like `add_others`, for one of the other kinds.
fn add_other(page: &mut Page, file: &File<'_>, kind: Kind, number: u64) -> Result<(), AllocError> {
    match fault_as(file, kind)? {
        Some(fault) if fault.line() == number => add_wanted(page, file.name, kind, &fault),
        _ => Ok(()),
    }
}

/// Adds a sentence that the line has this fault if a file of this kind is expected.
fn add_wanted(
    page: &mut Page,
    name: &str,
    kind: Kind,
    fault: &FileFault,
) -> Result<(), AllocError> {
    let wanted = match kind {
        Kind::Problem => "a problem",
        Kind::Tour => "a tour",
        Kind::Solution => "a solution",
        Kind::Parameters => "a parameter file",
    };
    page.line(&format_args!("If {wanted} is expected, this line is reported as {name}:{fault}."))
}

/// The fault of a file, if it is read as a file of this kind.
fn fault_as(file: &File<'_>, kind: Kind) -> Result<Option<FileFault>, AllocError> {
    let answer = answer_to(file.alloc, kind, file.text)?;
    let fault = answer.fault();
    drop(answer);
    Ok(fault)
}
