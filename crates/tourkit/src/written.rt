//! Checks the output file of `solve` before the search.
use crate::output::find_place;
use std::fs;
use tk_console::file_id::{FileId, id_of};
use tk_console::named::Named;
use tk_console::refusal::{KeyMisfit, Reason, Refusal};
use tk_console::report;
use tk_console::search::Search;
use tk_params::Key;

/// The files that `solve` reads, as far as they are regular files.
#[derive(Clone, Copy)]
pub struct InputFiles {
    /// The parameter file.
    pub parameters: Option<FileId>,
    /// The problem file.
    pub problem: Option<FileId>,
    /// The file of the initial tour or solution, which may be overwritten, since the result is not longer.
    pub initial: Option<FileId>,
}

impl InputFiles {
    /// Rejects a key or an option, `name`, if it leads to the file that was found, and this is the problem file or the
    /// parameter file, which must not be overwritten.
    ///
    /// # Errors
    /// `Reason::UnfitKey`
    pub fn protect<'a>(
        &self,
        search: &Search<'_, 'a>,
        name: Named,
        found: Option<FileId>,
    ) -> Result<(), Refusal<'a>> {
        let misfit = match found {
            None => return Ok(()),
            _ if found == self.problem => KeyMisfit::SameFile(search.named(Key::ProblemFile)),
            _ if found == self.parameters => KeyMisfit::ParameterFile,
            _ => return Ok(()),
        };
        Err(Reason::UnfitKey(name, misfit).about(search.file))
    }

    /// Whether the file that was found is that of the initial tour or solution.
    pub fn is_initial(&self, found: Option<FileId>) -> bool {
        found.is_some() && found == self.initial
    }
}

/// Rejects an output file that is the parameter file or the problem file, or that cannot be written.
///
/// # Errors
/// Why it is rejected.
pub fn check_written<'a>(
    rt: &HostRuntime,
    search: &Search<'_, 'a>,
    inputs: InputFiles,
) -> Result<(), Refusal<'a>> {
    for key in [Key::TourFile, Key::SolutionFile] {
        if let Some(name) = search.file_of(key) {
            inputs.protect(search, search.named(key), id_of(fs::metadata(rt, name)))?;
            find_place(rt, name)?;
        }
    }
    Ok(())
}

/// Notes, after a search, the file names in a parameter file that are most likely mistakes.
pub fn note_slips(rt: &HostRuntime, search: &Search<'_, '_>) {
    if search.is_by_options() {
        return;
    }
    for key in [
        Key::ProblemFile,
        Key::TourFile,
        Key::SolutionFile,
        Key::InitialTourFile,
    ] {
        if let Some(name) = search.file_of(key) {
            note_slip(rt, key.word(), name);
        }
    }
}

/// Notes a file name that begins with a colon, or that seems to include a comment.
fn note_slip(rt: &HostRuntime, key: &str, name: &str) {
    if name.starts_with(':') {
        report::note(rt, key, name, "the colon");
    } else if name.contains(" #") {
        report::note(rt, key, name, "everything after the #");
    }
}
