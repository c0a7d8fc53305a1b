//! The log of a search: a line for each trial that improves the best result of its run.
use crate::written::InputFiles;
use serde::Serialize;
use std::fs::{self, File};
use std::io::Write;
use std::num::nearest_u64_to_f64;
use std::time::{Clock, Duration};
use tk_console::file_id::{FileId, id_of};
use tk_console::named::Named;
use tk_console::objects::{RouteImprovement, TourImprovement};
use tk_console::printed::json_line;
use tk_console::progress::ProgressLine;
use tk_console::refusal::{KeyMisfit, Reason, Refusal};
use tk_console::report;
use tk_console::search::Search;
use tk_engines::{Progress, RouteProgress};
use tk_params::Key;

/// The streams that results and messages are written to. If one of them is closed, the log may get its number, and then
/// it is rejected, too: otherwise, it would get what is written there.
const STREAMS: [(Named, &str); 2] = [
    (Named::StandardOutput, "/dev/stdout"),
    (Named::StandardError, "/dev/stderr"),
];

/// The log of a search.
#[derive(Drop)]
pub struct Log<'a> {
    rt: &'a HostRuntime,
    name: &'a str,
    /// The log file; `None` if there is none, or if a write has failed.
    file: Option<File>,
    /// The time at which the file was opened.
    begin: Duration,
    /// The run of a search for a tour, and the length of its best tour so far.
    run: u32,
    best: i64,
}

impl<'a> Log<'a> {
    /// Opens the file with this name to append to it, or creates it. Without a name, nothing is written.
    ///
    /// # Errors
    /// Why it is rejected.
    pub fn open(
        rt: &'a HostRuntime,
        search: &Search<'_, 'a>,
        inputs: InputFiles,
        name: Option<&'a str>,
    ) -> Result<Log<'a>, Refusal<'a>> {
        let file = match name {
            Some(name) => Some(open_file(rt, search, inputs, name)?),
            None => None,
        };
        Ok(Log {
            rt,
            name: name.unwrap_or(""),
            file,
            begin: rt.monotonic().unwrap_or(Duration::ZERO),
            run: 0,
            best: i64::MAX,
        })
    }

    /// Writes a line if the trial has improved the best tour of its run.
    pub fn note_tour(&mut self, line: &ProgressLine<'_>, progress: &Progress) {
        if self.file.is_none() || progress.run == self.run && progress.best >= self.best {
            return;
        }
        self.run = progress.run;
        self.best = progress.best;
        let improvement = TourImprovement {
            seconds: self.seconds(),
            run: progress.run,
            trial: progress.trial,
            length: progress.best,
        };
        self.write(line, &improvement);
    }

    /// Writes a line about the best routes of a run, which a trial has found.
    pub fn note_routes(
        &mut self,
        line: &ProgressLine<'_>,
        progress: &RouteProgress,
        routes: usize,
    ) {
        if self.file.is_none() {
            return;
        }
        let improvement = RouteImprovement {
            seconds: self.seconds(),
            run: progress.run,
            trial: progress.trial,
            cost: progress.best,
            routes: routes as u64,
        };
        self.write(line, &improvement);
    }

    /// The seconds since the file was opened, to the microsecond.
    fn seconds(&self) -> f64 {
        let now = self.rt.monotonic().unwrap_or(self.begin);
        let passed = now.saturating_sub(self.begin);
        let whole = passed.as_secs().saturating_mul(1_000_000);
        nearest_u64_to_f64(whole.saturating_add(passed.subsec_micros() as u64)) / 1e6
    }

    /// Writes an object on a line of its own. If that fails, this is reported once, and nothing more is written.
    fn write<T: Serialize>(&mut self, line: &ProgressLine<'_>, object: &T) {
        let Some(file) = &mut self.file else {
            return;
        };
        if !append(self.rt, file, object) {
            self.file = None;
            line.clear();
            report::end_of_log(self.rt, self.name);
        }
    }
}

/// Appends an object on a line of its own. Returns whether that succeeded.
fn append<T: Serialize>(rt: &HostRuntime, file: &mut File, object: &T) -> bool {
    match json_line(rt.alloc(), object) {
        Ok(text) => file.write_all(text.as_bytes()).is_ok(),
        Err(_) => false,
    }
}

/// Opens the log of a search. A file that the search uses for something else is neither changed nor created.
fn open_file<'a>(
    rt: &HostRuntime,
    search: &Search<'_, 'a>,
    inputs: InputFiles,
    name: &'a str,
) -> Result<File, Refusal<'a>> {
    let old = id_of(fs::metadata(rt, name));
    check_other(rt, search, inputs, old)?;
    let opened = File::options().append(true).create(true).open(rt, name);
    let Ok(file) = opened else {
        return Err(Reason::Unopened.about(name));
    };
    if let Err(refusal) = check_other(rt, search, inputs, id_of(file.metadata())) {
        remove_new(rt, name, old);
        return Err(refusal);
    }
    Ok(file)
}

/// Removes a log that did not exist before, at the path to which its name leads.
fn remove_new(rt: &HostRuntime, name: &str, old: Option<FileId>) {
    if old.is_none() {
        if let Ok(path) = fs::canonicalize(rt, name) {
            let _ = fs::remove_file(rt, path.as_str());
        }
    }
}

/// Rejects a log that is another file of the search.
fn check_other<'a>(
    rt: &HostRuntime,
    search: &Search<'_, 'a>,
    inputs: InputFiles,
    log: Option<FileId>,
) -> Result<(), Refusal<'a>> {
    inputs.protect(search, Named::Log, log)?;
    match other_name(rt, search, inputs, log) {
        Some(other) => {
            let misfit = KeyMisfit::SameFile(other);
            Err(Reason::UnfitKey(Named::Log, misfit).about(search.file))
        }
        None => Ok(()),
    }
}

/// The key, option or stream that names the same file as the log, if there is one.
fn other_name(
    rt: &HostRuntime,
    search: &Search<'_, '_>,
    inputs: InputFiles,
    log: Option<FileId>,
) -> Option<Named> {
    log?;
    let found = |name: Option<&str>| name.and_then(|name| id_of(fs::metadata(rt, name)));
    let others = [
        (Key::InitialTourFile, inputs.initial),
        (Key::TourFile, found(search.tour_file)),
        (Key::SolutionFile, found(search.solution_file)),
    ];
    for (key, other) in others {
        if other == log {
            return Some(search.named(key));
        }
    }
    for (stream, path) in STREAMS {
        if found(Some(path)) == log {
            return Some(stream);
        }
    }
    None
}
