//! The file next to the output file of a search that keeps its best result so far.
use crate::judged::{Judged, judge};
use crate::part::replace;
use crate::written::InputFiles;
use std::alloc::AllocError;
use std::fs::{self, File};
use std::io::ErrorKind;
use tk_console::file_id::{Stamp, id_of};
use tk_console::named::Named;
use tk_console::report;
use tk_console::search::Search;
use tk_words::FromRead;

/// The place of this file. The file of another search may be there.
#[derive(Drop)]
pub struct BestPlace<'a> {
    rt: &'a HostRuntime,
    name: String,
    /// The output file of the search, whose owner and permissions the file here gets.
    output: &'a str,
    /// The problem file, if it can be read again.
    problem: Option<&'a str>,
    /// Whether the file stays at the end of the search, because the search starts from it.
    stays: bool,
    /// The file that this search has written here.
    own: Option<Stamp>,
    /// The last file of another search that was found here, and its contents.
    other: Option<(Stamp, Judged)>,
}

impl<'a> BestPlace<'a> {
    /// The place of a search; `None` if it has no output file, if that file or the one at the place is not a regular
    /// file, or if the one at the place is the problem file or the parameter file. It may be the file of the initial
    /// tour or solution, which only a shorter result replaces. A file that is already there is reported in a note.
    ///
    /// # Errors
    /// `AllocError` if memory runs out.
    pub fn of(
        rt: &'a HostRuntime,
        search: &Search<'_, 'a>,
        inputs: InputFiles,
    ) -> Result<Option<BestPlace<'a>>, AllocError> {
        let Some(output) = search.written_file() else {
            return Ok(None);
        };
        let name = format!(in rt.alloc(); "{output}.best")?;
        let found = id_of(fs::metadata(rt, &name));
        let is_free = inputs.protect(search, Named::Output, found).is_ok();
        if !is_free || !is_plain(rt, output) || !is_plain(rt, &name) {
            return Ok(None);
        }
        let mut place = BestPlace {
            rt,
            name,
            output,
            problem: inputs.problem.and(Some(search.problem_path())),
            stays: inputs.is_initial(found),
            own: None,
            other: None,
        };
        place.note_other(search);
        Ok(Some(place))
    }

    /// Reports the file that is already here. A tour or routes from which this search starts are not reported, nor is a
    /// file that could not be judged although the problem can be read again.
    fn note_other(&mut self, search: &Search<'_, 'a>) {
        let Some(found) = self.found() else {
            return;
        };
        match self.judged(found) {
            Judged::Tour(length) if !self.stays => {
                report::earlier_tour(self.rt, &self.name, length, search);
            }
            Judged::Routes(cost) if !self.stays => {
                report::earlier_routes(self.rt, &self.name, cost, search);
            }
            Judged::Neither => report::other_best(self.rt, &self.name),
            Judged::Unknown if self.problem.is_none() => report::other_best(self.rt, &self.name),
            _ => {}
        }
    }

    /// The regular file that is here now, if there is one.
    fn found(&self) -> Option<Stamp> {
        match fs::metadata(self.rt, &self.name) {
            Ok(found) => Stamp::of(&found),
            Err(_) => None,
        }
    }

    /// The contents of a file of another search. The last verdict is remembered.
    fn judged(&mut self, found: Stamp) -> Judged {
        if let Some(judged) = self.known(found) {
            return judged;
        }
        let judged = self.judge_file();
        self.other = Some((found, judged));
        judged
    }

    /// The contents of a file of another search, if it is the one that was judged last.
    fn known(&self, found: Stamp) -> Option<Judged> {
        match &self.other {
            Some((stamp, judged)) if *stamp == found => Some(*judged),
            _ => None,
        }
    }

    /// Judges the file here as a solution of the problem.
    fn judge_file(&self) -> Judged {
        match (self.problem, File::open(self.rt, &self.name)) {
            (Some(problem), Ok(file)) => judge(self.rt, problem, &mut FromRead::new(file)),
            _ => Judged::Unknown,
        }
    }

    /// The length or the cost of a result of the search, or `i64::MAX` if it is unknown.
    pub fn length_of(&self, text: &[u8]) -> i64 {
        let judged = match self.problem {
            Some(problem) => judge(self.rt, problem, &mut FromRead::new(text)),
            None => Judged::Unknown,
        };
        judged.length().unwrap_or(i64::MAX)
    }

    /// Whether a result of this length or cost may be written here: there is no file, or one that this search has
    /// written, or one with a longer tour or more expensive routes of the same problem.
    pub fn takes(&mut self, length: i64) -> bool {
        match fs::metadata(self.rt, &self.name) {
            Ok(found) => self.takes_over(Stamp::of(&found), length),
            Err(error) => error.kind() == ErrorKind::NotFound,
        }
    }

    /// Whether a result of this length or cost may replace the file that was found. Only a regular file is replaced.
    fn takes_over(&mut self, found: Option<Stamp>, length: i64) -> bool {
        let Some(found) = found else {
            return false;
        };
        if self.own == Some(found) {
            return true;
        }
        match self.judged(found).length() {
            Some(other) => length < other,
            None => false,
        }
    }

    /// Writes a file with this text here, with the owner and the permissions of the output file if that exists. Returns
    /// whether it succeeded.
    pub fn put(&mut self, text: &[u8]) -> bool {
        let old = fs::metadata(self.rt, self.output).ok();
        let Ok(new) = replace(self.rt, &self.name, text, old.as_ref()) else {
            return false;
        };
        self.own = Stamp::of(&new);
        true
    }

    /// Removes the file that this search has written here, unless the search started from a file here. A file that
    /// another search has written since then stays.
    pub fn remove(&self) {
        if self.own.is_some() && self.found() == self.own && !self.stays {
            let _ = fs::remove_file(self.rt, &self.name);
        }
    }
}

/// Whether a name leads to a regular file, or to nothing that can be found.
fn is_plain(rt: &HostRuntime, name: &str) -> bool {
    fs::metadata(rt, name).map_or(true, |found| found.is_file())
}
