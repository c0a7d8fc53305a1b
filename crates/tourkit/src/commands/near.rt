//! The subcommand `near`.
use std::process::ExitCode;
use tk_console::input::open;
use tk_console::refusal::Refusal;
use tk_console::rows::write_near_object;
use tk_engines::{near_outcome, write_near_lists};
use tk_near::{ListLength, Near};
use tk_words::FromRead;
use tk_writers::{ToWrite, WriteFault};

/// `near PROBLEM [-k N] [--json]`.
///
/// # Errors
/// Why it stopped.
pub fn near_command<'a>(
    rt: &HostRuntime,
    file: &'a str,
    length: ListLength,
    json: bool,
) -> Result<ExitCode, Refusal<'a>> {
    let problem = open(rt, file)?;
    match near_outcome(rt.alloc(), &mut FromRead::new(problem), length.cities) {
        Ok(near) => {
            print(rt, &near, json)?;
            Ok(ExitCode::SUCCESS)
        }
        Err(fault) => Err(Refusal::stopped(file, &fault)),
    }
}

/// Prints near lists, as lines or as JSON.
fn print(rt: &HostRuntime, near: &Near, json: bool) -> Result<(), WriteFault> {
    let mut out = ToWrite::new(rt.stdout());
    if json {
        write_near_object(&mut out, near)
    } else {
        write_near_lists(&mut out, near)
    }
}
