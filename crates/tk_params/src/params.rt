//! The parameters that a parameter file specifies.
ghost use Rattle.std.specs.Prelude.{◌≡◌, ◌≤◌, IfSome, length, option_map};
ghost use Rattle.tk_params.specs.Keys.{all_keys};
ghost use Rattle.tk_params.specs.Requested.{IsFileName, requested};
ghost use Rattle.tk_params.specs.SearchOf.{search_is};

use crate::entries::take_file;
use crate::key::Key;
use crate::search_settings::SearchSettings;
use crate::settings::Settings;
use std::marker::Model;

/// The parameters that a parameter file specifies, with defaults for the keys that it does not have. File names are not
/// empty and contain no `$`. There are at most as many ignored keys as keys.
#[derive(Drop)]
pub struct Params {
    problem_file: String,
    tour_file: Option<String>,
    solution_file: Option<String>,
    initial_tour_file: Option<String>,
    search: SearchSettings,
    ignored: Vec<Key>,
}

impl Model for Params {
    ghost use Rattle.tk_params.specs.Requested.{AreWithinLimits, ParamsAre};

    ghost Value = { ParamsAre };

    ghost use Rattle.tk_params.specs.Reader.Stored.{params_in};

    ghost view = { params_in };

    ghost invariant = { λ s. AreWithinLimits (params_in s) };
}

impl Params {
    /// The parameters that the settings specify; `None` if they do not name the problem file.
    pub(crate) fn from_settings(settings: Settings) -> Option<Params>
        ensures { result ≡ requested settings }
    {
        let search = settings.search();
        let (mut entries, ignored) = settings.into_parts();
        let problem_file = take_file(&mut entries, Key::ProblemFile)?;
        Some(Params {
            problem_file,
            tour_file: take_file(&mut entries, Key::TourFile),
            solution_file: take_file(&mut entries, Key::SolutionFile),
            initial_tour_file: take_file(&mut entries, Key::InitialTourFile),
            search,
            ignored,
        })
    }

    /// The problem file.
    pub fn problem_file(&self) -> &str
        ensures value { result.now ≡ self.now.problem_file }
        ensures name { IsFileName result.now }
    {
        &self.problem_file
    }

    /// The file to which the best tour is written, if any.
    pub fn tour_file(&self) -> Option<&str>
        ensures value { option_map (λ s. s.now) result ≡ self.now.tour_file }
        ensures name { IfSome result (λ s. IsFileName s.now) }
    {
        self.tour_file.as_deref()
    }

    /// The file to which the routes are written, if any.
    pub fn solution_file(&self) -> Option<&str>
        ensures value { option_map (λ s. s.now) result ≡ self.now.solution_file }
        ensures name { IfSome result (λ s. IsFileName s.now) }
    {
        self.solution_file.as_deref()
    }

    /// The file of the tour that each run begins with; `None` if the tour is constructed.
    pub fn initial_tour_file(&self) -> Option<&str>
        ensures value { option_map (λ s. s.now) result ≡ self.now.initial_tour_file }
        ensures name { IfSome result (λ s. IsFileName s.now) }
    {
        self.initial_tour_file.as_deref()
    }

    /// The settings of the search.
    pub fn search(&self) -> SearchSettings
        ensures { search_is result ≡ self.now.search }
    {
        self.search
    }

    /// The keys that were read but are not used, in the order of the file. Each occurs once, so there are at most as
    /// many as there are keys.
    pub fn ignored(&self) -> &[Key]
        ensures value { result.now ≡ self.now.ignored }
        ensures few { length result.now ≤ length all_keys }
    {
        &self.ignored
    }
}
