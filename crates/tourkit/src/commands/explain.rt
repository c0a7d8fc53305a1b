//! The subcommand `explain`.
use crate::explained_text::{ReadFailure, read_explained};
use std::fs;
use std::process::ExitCode;
use tk_console::input::open;
use tk_console::printed::print_bytes;
use tk_console::refusal::{Misfit, Reason, Refusal};
use tk_console::shown::shown_on_output;
use tk_diagnosis::FileFault;
use tk_explain::{fault_page, file_page, is_number, line_page, read_failure};
use tk_kinds::kind_of;

/// `explain WHAT [LINE]`. Without a line, WHAT can be the number or the name of a fault; otherwise it is a file.
///
/// # Errors
/// Why it stopped.
pub fn explain_command<'a>(
    rt: &HostRuntime,
    what: &'a str,
    line: Option<u64>,
) -> Result<ExitCode, Refusal<'a>> {
    if line.is_some() {
        return explain_file(rt, what, line);
    }
    match fault_page(rt.alloc(), what)? {
        Some(page) => print_page(rt, &page),
        None if is_only_number(rt, what) => Err(Reason::Unfit(Misfit::NoSuchFault).about(what)),
        None => explain_file(rt, what, None),
    }
}

/// Whether it is a number that is not also the name of a file.
fn is_only_number(rt: &HostRuntime, what: &str) -> bool {
    is_number(what) && fs::metadata(rt, what).is_err()
}

/// Explains a file, or one of its lines.
fn explain_file<'a>(
    rt: &HostRuntime,
    name: &'a str,
    line: Option<u64>,
) -> Result<ExitCode, Refusal<'a>> {
    let mut input = open(rt, name)?;
    match read_explained(rt.alloc(), name, line, &mut input) {
        Ok(text) => print_text(rt, name, &text, line),
        Err(ReadFailure::Failed(text)) => Err(unread(name, &text)),
        Err(ReadFailure::NoMemory) => Err(Reason::NoMemory.alone()),
    }
}

/// Prints the explanation of a file with this text, or of one of its lines.
fn print_text<'a>(
    rt: &HostRuntime,
    name: &str,
    text: &[u8],
    line: Option<u64>,
) -> Result<ExitCode, Refusal<'a>> {
    let name = format!(in rt.alloc(); "{}", shown_on_output(rt, name))?;
    let page = match line {
        Some(line) => line_page(rt.alloc(), &name, text, line)?,
        None => file_page(rt.alloc(), &name, text)?,
    };
    print_page(rt, &page.text)
}

/// The refusal of a file that could not be read to its end.
fn unread<'a>(name: &'a str, text: &[u8]) -> Refusal<'a> {
    match read_failure(kind_of(text, name), text) {
        FileFault::Text(fault) => Reason::Text(fault).about(name),
        FileFault::Parameters(fault) => Reason::Parameters(fault).about(name),
    }
}

/// Prints an explanation.
fn print_page<'a>(rt: &HostRuntime, page: &str) -> Result<ExitCode, Refusal<'a>> {
    print_bytes(rt, page.as_bytes())?;
    Ok(ExitCode::SUCCESS)
}
