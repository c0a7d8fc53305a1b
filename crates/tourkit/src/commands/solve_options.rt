//! A search that options request, without a parameter file.

use std::fs::File;
use std::io::Read;
use tk_command_line::SearchOptions;
use tk_console::input::path_of;
use tk_console::refusal::{Reason, Refusal};
use tk_kinds::{Kind, begins_with_key, kind_of};
use tk_params::{Key, ParamKind, SearchBuilder, SearchSettings};

/// The number of bytes that are read to decide whether a file is a parameter file or a problem file.
const HEAD: usize = 4096;

/// The settings that options request.
///
/// # Errors
/// An option has an invalid value, or memory runs out.
pub fn settings_of(
    rt: &HostRuntime,
    options: &SearchOptions<'_>,
) -> Result<SearchSettings, Refusal<'static>> {
    let sweep = options.final_sweep.then_some("YES");
    let given = [
        ("--runs", Key::Runs, options.runs),
        ("--trials", Key::MaxTrials, options.trials),
        ("--seed", Key::Seed, options.seed),
        ("--candidates", Key::MaxCandidates, options.candidates),
        ("--construction", Key::Construction, options.construction),
        ("--final-sweep", Key::FinalSweep, sweep),
        ("--or-segment", Key::OrSegment, options.or_segment),
    ];
    let mut builder = SearchBuilder::new(rt.alloc());
    for (option, key, value) in &given {
        if let Some(value) = value {
            set_key(&mut builder, option, *key, value)?;
        }
    }
    Ok(builder.build())
}

/// Sets the key of an option, or rejects its value.
fn set_key(
    builder: &mut SearchBuilder,
    option: &'static str,
    key: Key,
    value: &str,
) -> Result<(), Refusal<'static>> {
    match builder.set(key, value.as_bytes()) {
        Ok(()) => Ok(()),
        Err(ParamKind::NoMemory) => Err(Reason::NoMemory.alone()),
        Err(kind) => Err(Reason::Option(kind).about(option)),
    }
}

/// Whether a regular file begins with a key of parameter files.
pub fn is_parameter_file(rt: &HostRuntime, name: &str) -> bool {
    let mut head = [0; HEAD];
    let count = read_head(rt, name, &mut head);
    begins_with_key(head.get(..count).unwrap_or(&[]))
}

/// Whether the first lines of a regular file are those of a problem.
pub fn is_problem_file(rt: &HostRuntime, name: &str) -> bool {
    let mut head = [0; HEAD];
    let count = read_head(rt, name, &mut head);
    kind_of(head.get(..count).unwrap_or(&[]), ".par") == Kind::Problem
}

/// Reads the first bytes of a regular file, which is opened for this alone. Returns their number; 0 if the file cannot
/// be read.
fn read_head(rt: &HostRuntime, name: &str, head: &mut [u8; HEAD]) -> usize {
    match File::open(rt, path_of(name)) {
        Ok(mut file) => file.read(head).unwrap_or(0),
        Err(_) => 0,
    }
}
