//! The best result of a long search so far, in a file next to the one that the search will write.
use crate::best_place::BestPlace;
use crate::found::{Copied, Found};
use crate::written::InputFiles;
use std::alloc::AllocError;
use std::time::{Clock, Duration};
use tk_console::search::Search;
use tk_writers::ToWrite;

/// The result is first saved after this many seconds, and then at most once in this many seconds.
const PAUSE: u64 = 5;

/// The best tour or the best routes so far, and the place where they are saved.
#[derive(Drop)]
pub struct BestFile<'a> {
    rt: &'a HostRuntime,
    /// Where the result is saved; `None` if it is not saved.
    place: Option<BestPlace<'a>>,
    /// The name of the problem.
    problem: Vec<u8>,
    /// The shortest of the best results of completed runs, and its length or cost.
    ended: Option<Copied>,
    ended_length: i64,
    /// The length or the cost of the result that is saved.
    saved: i64,
    /// The earliest time at which the next one is saved.
    next: Duration,
}

impl<'a> BestFile<'a> {
    /// A file that has not been saved yet.
    ///
    /// # Errors
    /// `AllocError` if memory runs out.
    pub fn new(
        rt: &'a HostRuntime,
        search: &Search<'_, 'a>,
        inputs: InputFiles,
    ) -> Result<BestFile<'a>, AllocError> {
        Ok(BestFile {
            rt,
            place: BestPlace::of(rt, search, inputs)?,
            problem: Vec::new(rt.alloc()),
            ended: None,
            ended_length: i64::MAX,
            saved: i64::MAX,
            next: pause_from(rt),
        })
    }

    /// Notes the name of the problem. Nothing is saved if memory runs out.
    pub fn begin(&mut self, problem: &[u8]) {
        if self.problem.extend_from_slice(problem).is_err() {
            self.place = None;
        }
    }

    /// Whether results are saved.
    pub fn is_kept(&self) -> bool {
        self.place.is_some()
    }

    /// Saves nothing more, because memory has run out.
    pub fn give_up(&mut self) {
        self.place = None;
    }

    /// Takes note of the best result of a run so far, with its length or cost, after a trial or at the end of the run.
    /// Saves the best result of all runs so far if it is shorter than the one that is saved and the pause has passed.
    /// At the end of a run, it is kept in memory or, if one has been saved before, saved.
    pub fn show(&mut self, length: i64, found: Found<'_>, ends: bool) {
        if self.place.is_none() {
            return;
        }
        if ends && length < self.ended_length {
            self.keep(length, found);
        }
        if self.saved > self.ended_length.min(length) {
            self.save_in_time(length, found, ends);
        }
    }

    /// Saves a result if the pause has passed or, at the end of a run, if one has been saved before.
    fn save_in_time(&mut self, length: i64, found: Found<'_>, ends: bool) {
        let Ok(now) = self.rt.monotonic() else {
            return;
        };
        if now >= self.next || ends && self.saved < i64::MAX {
            self.next = now.saturating_add(Duration::from_secs(PAUSE));
            self.save(length, found);
        }
    }

    /// Keeps the best result of a completed run in memory. If memory runs out, nothing more is saved.
    fn keep(&mut self, length: i64, found: Found<'_>) {
        match found.copied(self.rt.alloc()) {
            Ok(copied) => self.ended = Some(copied),
            Err(_) => self.give_up(),
        }
        self.ended_length = length;
    }

    /// Saves the result or, if that is shorter, the one that is kept in memory.
    fn save(&mut self, length: i64, found: Found<'_>) {
        let shortest = self.ended_length.min(length);
        let Some(place) = &mut self.place else {
            return;
        };
        if !place.takes(shortest) {
            return;
        }
        let shorter = match &self.ended {
            Some(ended) if self.ended_length < length => ended.found(),
            _ => found,
        };
        if put(self.rt, place, &self.problem, shortest, shorter) {
            self.saved = shortest;
        }
    }

    /// Saves the text of the result of the search, which could not be printed. Returns whether that succeeded.
    pub fn keep_result(&mut self, text: &[u8]) -> bool {
        let Some(place) = &mut self.place else {
            return false;
        };
        let length = place.length_of(text);
        place.takes(length) && place.put(text)
    }

    /// Removes the file, after the search has written its result.
    pub fn remove(&self) {
        if let Some(place) = &self.place {
            place.remove();
        }
    }
}

/// Saves a result. Returns whether that succeeded.
fn put(
    rt: &HostRuntime,
    place: &mut BestPlace<'_>,
    problem: &[u8],
    length: i64,
    found: Found<'_>,
) -> bool {
    let mut text = ToWrite::new(Vec::new(rt.alloc()));
    length >= 0 && found.write(&mut text, problem, length).is_ok() && place.put(&text.inner)
}

/// The earliest time at which a result is saved, from now.
fn pause_from(rt: &HostRuntime) -> Duration {
    match rt.monotonic() {
        Ok(now) => now.saturating_add(Duration::from_secs(PAUSE)),
        Err(_) => Duration::ZERO,
    }
}
