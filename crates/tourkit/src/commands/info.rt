//! The subcommand `info`.
use std::process::ExitCode;
use tk_console::info_object::InfoObject;
use tk_console::input::open;
use tk_console::printed::{Unprinted, print_json};
use tk_console::refusal::Refusal;
use tk_engines::{ProblemInfo, info_outcome, write_info};
use tk_words::FromRead;
use tk_writers::ToWrite;

/// `info PROBLEM [--json]`.
///
/// # Errors
/// Why it stopped.
pub fn info_command<'a>(
    rt: &HostRuntime,
    file: &'a str,
    json: bool,
) -> Result<ExitCode, Refusal<'a>> {
    let problem = open(rt, file)?;
    match info_outcome(rt.alloc(), &mut FromRead::new(problem)) {
        Ok(info) => {
            print(rt, &info, json)?;
            Ok(ExitCode::SUCCESS)
        }
        Err(fault) => Err(Refusal::stopped(file, &fault)),
    }
}

/// Prints what is known of a problem, as lines or as JSON.
fn print(rt: &HostRuntime, info: &ProblemInfo, json: bool) -> Result<(), Unprinted> {
    if json {
        return print_json(rt, &InfoObject::of(rt.alloc(), info)?);
    }
    write_info(&mut ToWrite::new(rt.stdout()), info)?;
    Ok(())
}
