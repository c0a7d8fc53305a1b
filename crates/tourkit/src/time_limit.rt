//! The time limit of a search.
use std::time::{Clock, Duration};
use tk_console::progress::Stage;
use tk_console::report;

/// A time limit, and where the search was when it was exceeded.
#[derive(Drop)]
pub struct TimeLimit<'a> {
    rt: &'a HostRuntime,
    /// The time from which on no trial begins; `None` if there is no limit.
    end: Option<Duration>,
    /// The trial that ended last.
    last: Option<Stage>,
    is_exceeded: bool,
}

impl<'a> TimeLimit<'a> {
    /// A limit of this many seconds from now. If the clock cannot be read, there is none.
    pub fn new(rt: &'a HostRuntime, seconds: Option<u32>) -> TimeLimit<'a> {
        TimeLimit {
            rt,
            end: end_after(rt, seconds),
            last: None,
            is_exceeded: false,
        }
    }

    /// Takes note of a trial that has ended.
    pub fn trial(&mut self, stage: &Stage) {
        self.last = Some(*stage);
    }

    /// Whether another trial can begin.
    pub fn goes_on(&mut self) -> bool {
        let Some(end) = self.end else {
            return true;
        };
        let Ok(now) = self.rt.monotonic() else {
            return true;
        };
        self.is_exceeded = now >= end;
        !self.is_exceeded
    }

    /// Whether the limit has ended the search.
    pub fn is_exceeded(&self) -> bool {
        self.is_exceeded
    }

    /// Notes after which trial the limit has ended the search.
    pub fn report(&self) {
        if let Some(stage) = &self.last {
            report::end_of_time(self.rt, stage);
        }
    }
}

/// The time after this many seconds from now.
fn end_after(rt: &HostRuntime, seconds: Option<u32>) -> Option<Duration> {
    let seconds = seconds?;
    match rt.monotonic() {
        Ok(now) => Some(now.saturating_add(Duration::from_secs(seconds as u64))),
        Err(_) => None,
    }
}
