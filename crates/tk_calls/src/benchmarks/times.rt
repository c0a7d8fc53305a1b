//! Times, and whether the lines of a run contain them.
use crate::host::Host;
use std::fmt;
use std::time::{Duration, Instant};

/// Whether the lines of a run contain its times. Those of a stored run do not, since no two runs take the same time.
#[derive(Clone, Copy)]
pub enum Times {
    Reported,
    Hidden,
}

/// A time as a line contains it, in the unit of the line; a hidden one is written as `-`.
#[derive(Clone, Copy)]
pub struct Time(Option<u128>);

impl Times {
    /// A time as a line contains it.
    pub fn tell(self, time: u128) -> Time {
        match self {
            Times::Reported => Time(Some(time)),
            Times::Hidden => Time(None),
        }
    }
}

impl fmt::Display for Time {
    fn fmt<W: fmt::Write>(&self, f: &mut fmt::Formatter<W>) -> fmt::Result {
        match self.0 {
            Some(time) => write!(f, "{time}"),
            None => f.write_str("-"),
        }
    }
}

/// Measures a time. If the clock cannot be read, the host notes it, and the time is 0.
#[derive(Drop)]
pub struct Stopwatch {
    begin: Option<Instant>,
}

impl Stopwatch {
    /// Begins now.
    pub fn start(host: &Host<'_>) -> Stopwatch {
        Stopwatch {
            begin: host.value_of(Instant::now(host.rt)),
        }
    }

    /// The time since the start.
    pub fn elapsed(&self, host: &Host<'_>) -> Duration {
        let Some(begin) = &self.begin else {
            return Duration::ZERO;
        };
        match host.value_of(begin.elapsed(host.rt)) {
            Some(elapsed) => elapsed,
            None => Duration::ZERO,
        }
    }
}
