//! The arguments of the program.
use std::io::ErrorKind;
use tk_console::refusal::{Reason, Refusal};

/// The arguments, beginning with the name of the program.
///
/// # Errors
/// `Reason::NotText` if an argument is not UTF-8, or `Reason::NoMemory`.
pub fn words_of_call(rt: &HostRuntime) -> Result<Vec<String>, Refusal<'static>> {
    match std::env::args(rt) {
        Ok(words) => Ok(words.collect::<Vec<String>>(rt.alloc())?),
        Err(error) if error.kind() == ErrorKind::OutOfMemory => Err(Reason::NoMemory.alone()),
        Err(_) => Err(Reason::NotText.alone()),
    }
}
