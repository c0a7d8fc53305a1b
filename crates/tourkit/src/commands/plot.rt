//! The subcommand `plot`.
ghost use Rattle.std.specs.Prelude.{◌≤◌, length};
ghost use Rattle.tk_problem.specs.declared.limits.TheConstants.{CITY_LIMIT};

use crate::commands::plot_both::plot_both;
use crate::commands::{check, checksol};
use std::process::ExitCode;
use tk_command_line::PlotFiles;
use tk_console::input::{open, open_two};
use tk_console::names::names_in;
use tk_console::refusal::{Reason, Refusal};
use tk_page::page_parts;
use tk_plot::{NodeName, NodeNames, OutputFormat, Plotted, plot_engine};
use tk_words::{FromRead, Source};
use tk_writers::ToWrite;

/// `plot PROBLEM [TOUR | SOLUTION] [OTHER] [--html [--names FILE]]`. The names are read first.
///
/// # Errors
/// Why it stopped.
pub fn plot_command<'a>(
    rt: &HostRuntime,
    files: PlotFiles<'a>,
    html: bool,
) -> Result<ExitCode, Refusal<'a>> {
    let Some(names_file) = files.names else {
        return plot_in(rt, files, format_of(html, &[]));
    };
    let names = names_in(rt, names_file)?;
    match plot_in(rt, files, format_of(html, &names)) {
        // the refusal of an engine names the problem file, since the engine knows no files
        Err(refusal) if matches!(refusal.reason, Reason::Names(_)) => {
            Err(refusal.reason.about(names_file))
        }
        ended => ended,
    }
}

/// The format of a picture, in which the nodes have these names.
fn format_of(html: bool, names: &[NodeName]) -> OutputFormat<'_>
    requires few { length names.now ≤ CITY_LIMIT }
{
    if html {
        OutputFormat::Page(page_parts(), NodeNames { list: names })
    } else {
        OutputFormat::Svg
    }
}

/// Draws the files in a format.
fn plot_in<'a>(
    rt: &HostRuntime,
    files: PlotFiles<'a>,
    form: OutputFormat<'_>,
) -> Result<ExitCode, Refusal<'a>> {
    match (files.claim, files.other) {
        (Some(first), Some(second)) => plot_both(rt, files.problem, first, second, &form),
        (Some(claim), None) => plot_claim(rt, files.problem, claim, form),
        (None, _) => plot_alone(rt, files.problem, form),
    }
}

/// `plot PROBLEM TOUR`, with or without `--html`, or the same for a solution. Both files are opened before either is
/// read.
fn plot_claim<'a>(
    rt: &HostRuntime,
    problem_file: &'a str,
    claim_file: &'a str,
    form: OutputFormat<'_>,
) -> Result<ExitCode, Refusal<'a>> {
    let (problem, claim) = open_two(rt, problem_file, claim_file)?;
    draw(
        rt,
        &mut FromRead::new(problem),
        problem_file,
        &mut FromRead::new(claim),
        Some(claim_file),
        form,
    )
}

/// `plot PROBLEM`, with or without `--html`.
fn plot_alone<'a>(
    rt: &HostRuntime,
    problem_file: &'a str,
    form: OutputFormat<'_>,
) -> Result<ExitCode, Refusal<'a>> {
    let problem = open(rt, problem_file)?;
    draw(
        rt,
        &mut FromRead::new(problem),
        problem_file,
        &mut FromRead::new(b"".as_slice()),
        None,
        form,
    )
}

/// Draws a problem, with the tour or the routes of the second file if there is one. Returns the exit status.
fn draw<'a, P: Source, C: Source>(
    rt: &HostRuntime,
    problem: &mut P,
    problem_file: &'a str,
    claim: &mut C,
    claim_file: Option<&'a str>,
    form: OutputFormat<'_>,
) -> Result<ExitCode, Refusal<'a>> {
    let mut out = ToWrite::new(rt.stdout());
    let mut reported = ToWrite::new(rt.stderr());
    match plot_engine(
        rt.alloc(),
        problem,
        claim,
        claim_file.is_some(),
        form,
        &mut out,
        &mut reported,
    ) {
        Ok(plotted) => Ok(ExitCode::from(status_of(plotted))),
        Err(fault) => {
            let claim_file = claim_file.unwrap_or(problem_file);
            Err(Refusal::stopped_by_claim(problem_file, claim_file, &fault))
        }
    }
}

/// The exit status: 1 if the tour or the routes have a fault, otherwise 0.
pub fn status_of(plotted: Plotted) -> u8 {
    match plotted {
        Plotted::Cities => 0,
        Plotted::Tour(verdict) => check::status_of(verdict),
        Plotted::Routes(verdict) => checksol::status_of(verdict),
    }
}
