//! The option `--completions`.
use crate::embedded::completions::{BASH, FISH, ZSH};
use std::process::ExitCode;
use tk_command_line::Shell;
use tk_console::printed::print_bytes;
use tk_console::refusal::Refusal;

/// `--completions SHELL`.
///
/// # Errors
/// `Reason::Unwritten` if the completions cannot be written.
pub fn completions_command(rt: &HostRuntime, shell: Shell) -> Result<ExitCode, Refusal<'static>> {
    print_bytes(rt, completions_of(shell))?;
    Ok(ExitCode::SUCCESS)
}

/// The completions for a shell.
fn completions_of(shell: Shell) -> &'static [u8] {
    match shell {
        Shell::Bash => BASH,
        Shell::Zsh => ZSH,
        Shell::Fish => FISH,
    }
}
