//! The observer of a search.
use crate::best::BestFile;
use crate::found::{Found, copied_routes};
use crate::log::Log;
use crate::time_limit::TimeLimit;
use crate::written::InputFiles;
use std::alloc::AllocError;
use tk_console::progress::{ProgressLine, Stage};
use tk_console::search::Search;
use tk_engines::{RouteProgress, RouteRun, RouteWatch, write_route_run_line, write_run_line};
use tk_solve::{Progress, RunReport, Watch};
use tk_writers::ToWrite;

/// Shows the status line on a terminal, prints the lines of runs on standard error, keeps the best result in a file,
/// writes the log, and ends the search when its time is over.
#[derive(Drop)]
pub struct SearchWatch<'a> {
    rt: &'a HostRuntime,
    line: ProgressLine<'a>,
    lines: bool,
    best: BestFile<'a>,
    log: Log<'a>,
    limit: TimeLimit<'a>,
    /// The best routes of the run so far, which the search shows only once. If they are not saved, there are none.
    routes: Vec<Vec<u32>>,
}

impl<'a> SearchWatch<'a> {
    /// An observer of a search that has not begun. It prints the lines of runs if `lines` is true.
    ///
    /// # Errors
    /// `AllocError` if memory runs out.
    pub fn new(
        rt: &'a HostRuntime,
        search: &Search<'_, 'a>,
        inputs: InputFiles,
        lines: bool,
        log: Log<'a>,
    ) -> Result<SearchWatch<'a>, AllocError> {
        Ok(SearchWatch {
            rt,
            line: ProgressLine::new(rt),
            lines,
            best: BestFile::new(rt, search, inputs)?,
            log,
            limit: TimeLimit::new(rt, search.seconds()),
            routes: Vec::new(rt.alloc()),
        })
    }

    /// Notes that the search was ended when its time was over, if it was.
    pub fn report_limit(&self) {
        if self.limit.is_exceeded() {
            self.line.clear();
            self.limit.report();
        }
    }

    /// Removes the file with the best result, once the search has written its output file.
    pub fn end(&self) {
        self.best.remove();
    }

    /// Keeps the text of a result that could not be printed. Returns whether it could be saved.
    pub fn keep_result(&mut self, text: &[u8]) -> bool {
        self.best.keep_result(text)
    }

    /// Copies the best routes of the run, if they are saved. If memory runs out, nothing more is saved.
    fn copy(&mut self, routes: &[Vec<u32>]) {
        if !self.best.is_kept() {
            return;
        }
        match copied_routes(self.rt.alloc(), routes) {
            Ok(copies) => self.routes = copies,
            Err(_) => self.best.give_up(),
        }
    }
}

impl Watch for SearchWatch<'_> {
    ghost shows = { λ _ _ _. Unit {0} };

    fn begin(&mut self, name: &[u8]) {
        self.best.begin(name);
    }

    fn trial(&mut self, progress: &Progress, best: &[u32]) {
        let stage = Stage::of_tour(progress);
        self.limit.trial(&stage);
        self.line.trial(&stage);
        self.log.note_tour(&self.line, progress);
        self.best.show(
            progress.best,
            Found::Tour(best),
            progress.trial == progress.trials,
        );
    }

    fn end_run(&mut self, run: u32, report: &RunReport) {
        if self.lines {
            self.line.clear();
            let _ = write_run_line(&mut ToWrite::new(self.rt.stderr()), run as u64, report);
        }
    }

    fn goes_on(&mut self) -> bool {
        self.limit.goes_on()
    }
}

impl RouteWatch for SearchWatch<'_> {
    ghost shows = { λ _ _ _. Unit {0} };

    fn begin(&mut self, name: &[u8]) {
        self.best.begin(name);
    }

    fn trial(&mut self, progress: &RouteProgress, better: Option<&[Vec<u32>]>) {
        let stage = Stage::of_routes(progress);
        self.limit.trial(&stage);
        self.line.trial(&stage);
        if let Some(routes) = better {
            self.log.note_routes(&self.line, progress, routes.len());
            self.copy(routes);
        }
        self.best
            .show(progress.best, Found::Routes(&self.routes), false);
    }

    fn end_run(&mut self, run: u32, report: &RouteRun) {
        self.best
            .show(report.best, Found::Routes(&self.routes), true);
        self.line.end_run(run);
        if self.lines {
            self.line.clear();
            let _ = write_route_run_line(&mut ToWrite::new(self.rt.stderr()), run as u64, report);
        }
    }

    fn goes_on(&mut self) -> bool {
        self.limit.goes_on()
    }
}
