//! Prints results on standard output as JSON.
use crate::objects::Judgement;
use crate::shown::shown_on_output;
use serde::Serialize;
use serde_json::to_string;
use std::alloc::{AllocError, Global};
use std::fmt::Display;
use std::io::Write;
use tk_writers::WriteFault;

/// Why a result was not printed.
#[derive(Clone, Copy)]
pub enum Unprinted {
    /// A write to standard output failed.
    Unwritten,
    /// Memory ran out.
    NoMemory,
}

impl From<WriteFault> for Unprinted {
    fn from(_fault: WriteFault) -> Unprinted {
        Unprinted::Unwritten
    }
}

impl From<AllocError> for Unprinted {
    fn from(_error: AllocError) -> Unprinted {
        Unprinted::NoMemory
    }
}

/// Prints a value as a JSON object, on a line of its own.
///
/// # Errors
/// Why it was not printed.
pub fn print_json<T: Serialize>(rt: &HostRuntime, value: &T) -> Result<(), Unprinted> {
    print_bytes(rt, json_line(rt.alloc(), value)?.as_bytes())
}

/// A value as a JSON object, with a line end.
///
/// # Errors
/// `AllocError` if memory runs out.
pub fn json_line<T: Serialize>(alloc: Global, value: &T) -> Result<String, AllocError> {
    let Ok(mut text) = to_string(alloc, value) else {
        return Err(AllocError);
    };
    text.push_str("\n")?;
    Ok(text)
}

/// Prints a value on a line of its own.
///
/// # Errors
/// Why it was not printed.
pub fn print_line<T: Display>(rt: &HostRuntime, value: &T) -> Result<(), Unprinted> {
    let text = format!(in rt.alloc(); "{value}\n")?;
    print_bytes(rt, text.as_bytes())
}

/// Prints the name of a file and a colon, before the line of one of several files.
///
/// # Errors
/// Why it was not printed.
pub fn print_name(rt: &HostRuntime, file: Option<&str>) -> Result<(), Unprinted> {
    let Some(file) = file else {
        return Ok(());
    };
    match print!(rt; "{}: ", shown_on_output(rt, file)) {
        Ok(()) => Ok(()),
        Err(_) => Err(Unprinted::Unwritten),
    }
}

/// Prints bytes.
///
/// # Errors
/// `Unwritten` if the write failed.
pub fn print_bytes(rt: &HostRuntime, bytes: &[u8]) -> Result<(), Unprinted> {
    match rt.stdout().write_all(bytes) {
        Ok(()) => Ok(()),
        Err(_) => Err(Unprinted::Unwritten),
    }
}

/// Prints the verdict on a list as a JSON object: its file if it is one of several, and that it is valid, with its
/// values, or its fault.
///
/// # Errors
/// Why it was not printed.
pub fn print_judged<T: Serialize + Drop, F: Serialize + Drop>(
    rt: &HostRuntime,
    file: Option<&str>,
    judged: Result<T, F>,
) -> Result<(), Unprinted> {
    match judged {
        Ok(values) => print_json(
            rt,
            &Judgement {
                file,
                valid: true,
                values,
            },
        ),
        Err(fault) => print_json(
            rt,
            &Judgement {
                file,
                valid: false,
                values: fault,
            },
        ),
    }
}
