//! The input files of a command, one of which may be standard input.
use crate::file_id::{FileId, id_of};
use crate::refusal::{Reason, Refusal};
use std::fs::{self, File};
use std::io::{self, Read, Stdin};
use std::os::fd::AsFd;
use tk_command_line::STANDARD;
use tk_problem::Problem;
use tk_problem_text::read_problem;
use tk_words::FromRead;

/// The path of standard input.
const STANDARD_PATH: &str = "/dev/stdin";

/// An input file that is open, or standard input.
#[derive(Drop)]
pub enum Input {
    File(File),
    Standard(Stdin),
}

impl Input {
    /// The identity of the file, if it is a regular file.
    pub fn id(&self, rt: &HostRuntime) -> Option<FileId> {
        match self {
            Input::File(file) => id_of(file.metadata()),
            Input::Standard(_) => id_of(fs::metadata(rt, STANDARD_PATH)),
        }
    }
}

impl Read for Input {
    fn read(&mut self, buf: &mut [u8]) -> io::Result<usize> {
        match self {
            Input::File(file) => file.read(buf),
            Input::Standard(stdin) => stdin.read(buf),
        }
    }
}

/// The path of an input file that the command line names. If it is a regular file, it can be opened again by this path.
pub fn path_of(name: &str) -> &str {
    if name == STANDARD {
        STANDARD_PATH
    } else {
        name
    }
}

/// Opens an input file.
///
/// # Errors
/// `Reason::Unopened`, also for standard input if that is closed.
pub fn open<'a>(rt: &HostRuntime, name: &'a str) -> Result<Input, Refusal<'a>> {
    if name == STANDARD {
        return match rt.stdin().as_fd().try_clone_to_owned() {
            Ok(_) => Ok(Input::Standard(rt.stdin())),
            Err(_) => Err(Reason::Unopened.about(name)),
        };
    }
    open_file(rt, name)
}

/// Opens an input file. `-` is a name like any other.
///
/// # Errors
/// `Reason::Unopened`
pub fn open_file<'a>(rt: &HostRuntime, name: &'a str) -> Result<Input, Refusal<'a>> {
    match File::open(rt, name) {
        Ok(file) => Ok(Input::File(file)),
        Err(_) => Err(Reason::Unopened.about(name)),
    }
}

/// Opens a problem file, reads it, and closes it.
///
/// # Errors
/// Why there is no problem.
pub fn problem_in<'a>(rt: &HostRuntime, file: &'a str) -> Result<Problem, Refusal<'a>> {
    let input = open(rt, file)?;
    match read_problem(rt.alloc(), &mut FromRead::new(input)) {
        Ok(problem) => Ok(problem),
        Err(fault) => Err(Reason::Text(fault).about(file)),
    }
}

/// Opens two input files in this order. If the second is standard input, it comes first: if standard input is closed,
/// the other file would get its number.
///
/// # Errors
/// `Reason::Unopened` for the first that cannot be opened.
pub fn open_two<'a>(
    rt: &HostRuntime,
    first: &'a str,
    second: &'a str,
) -> Result<(Input, Input), Refusal<'a>> {
    if second != STANDARD {
        return open_in_order(rt, first, second);
    }
    let (second, first) = open_in_order(rt, second, first)?;
    Ok((first, second))
}

/// Opens two input files, one after the other.
fn open_in_order<'a>(
    rt: &HostRuntime,
    first: &'a str,
    second: &'a str,
) -> Result<(Input, Input), Refusal<'a>> {
    let first = open(rt, first)?;
    Ok((first, open(rt, second)?))
}
