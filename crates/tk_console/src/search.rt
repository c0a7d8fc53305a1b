//! A search that the command line or a parameter file requests: its settings and its files.
ghost use Rattle.std.specs.Prelude.{◌≤◌, length};
ghost use Rattle.tk_params.specs.Keys.{all_keys};

use crate::input::{Input, open, open_file, open_two, path_of};
use crate::named::Named;
use crate::refusal::Refusal;
use tk_command_line::SearchOptions;
use tk_params::{Key, Params, SearchSettings};

/// What requests a search.
#[derive(Clone, Copy)]
pub enum Requester<'p, 'a> {
    /// The keys of a parameter file.
    Keys(&'p Params),
    /// Options, with the settings that they request.
    Options(&'p SearchOptions<'a>, SearchSettings),
}

/// A search, requested by a parameter file or by options.
#[derive(Clone, Copy)]
pub struct Search<'p, 'a> {
    /// What requests it.
    pub requester: Requester<'p, 'a>,
    /// The parameter file or, with options, the problem file.
    pub file: &'a str,
    /// The problem file.
    pub problem: &'a str,
    /// The file of the initial tour or, with options, of the initial solution, if there is one.
    pub initial: Option<&'a str>,
    /// The file for the tour; with options, also for routes.
    pub tour_file: Option<&'a str>,
    /// The file for routes.
    pub solution_file: Option<&'a str>,
}

impl<'a> Search<'a, 'a> {
    /// The search that a parameter file requests.
    pub fn by_keys(file: &'a str, params: &'a Params) -> Search<'a, 'a> {
        Search {
            requester: Requester::Keys(params),
            file,
            problem: params.problem_file(),
            initial: params.initial_tour_file(),
            tour_file: params.tour_file(),
            solution_file: params.solution_file(),
        }
    }
}

impl<'p, 'a> Search<'p, 'a> {
    /// The search that options request. The type of the problem is not known yet, so the same file is for a tour or for
    /// routes.
    pub fn by_options(
        problem: &'a str,
        options: &'p SearchOptions<'a>,
        settings: SearchSettings,
    ) -> Search<'p, 'a> {
        Search {
            requester: Requester::Options(options, settings),
            file: problem,
            problem,
            initial: options.initial(),
            tour_file: options.output,
            solution_file: None,
        }
    }

    /// Whether options request the search.
    pub fn is_by_options(&self) -> bool {
        matches!(self.requester, Requester::Options(..))
    }

    /// The keys that were read but are not used.
    pub fn ignored(&self) -> &'p [Key]
        ensures { length result.now ≤ length all_keys }
    {
        match self.requester {
            Requester::Keys(params) => params.ignored(),
            Requester::Options(..) => &[],
        }
    }

    /// Whether the search of a CVRP is between its routes.
    pub fn is_between_routes(&self) -> bool {
        matches!(self.requester, Requester::Options(options, _) if !options.within_routes)
    }

    /// The number of vehicles that there are for the routes, if the options state it.
    pub fn vehicles(&self) -> Option<u32> {
        match self.requester {
            Requester::Keys(_) => None,
            Requester::Options(options, _) => options.vehicles,
        }
    }

    /// The time limit in seconds, if the options state it.
    pub fn seconds(&self) -> Option<u32> {
        match self.requester {
            Requester::Keys(_) => None,
            Requester::Options(options, _) => options.seconds,
        }
    }

    /// Opens the problem and, if there is one, the initial tour or solution. `-` is standard input on the command line,
    /// and the name of a file in a parameter file.
    ///
    /// # Errors
    /// `Reason::Unopened` for the first file that cannot be opened.
    pub fn open(&self, rt: &HostRuntime) -> Result<(Input, Option<Input>), Refusal<'a>> {
        let Some(initial) = self.initial else {
            return Ok((self.open_one(rt, self.problem)?, None));
        };
        let (problem, initial) = self.open_both(rt, initial)?;
        Ok((problem, Some(initial)))
    }

    /// Opens the problem and the initial tour or solution. On the command line, only one of them can be standard input.
    fn open_both(&self, rt: &HostRuntime, initial: &'a str) -> Result<(Input, Input), Refusal<'a>> {
        if self.is_by_options() {
            return open_two(rt, self.problem, initial);
        }
        let problem = open_file(rt, self.problem)?;
        Ok((problem, open_file(rt, initial)?))
    }

    /// Opens a file by its name.
    fn open_one(&self, rt: &HostRuntime, name: &'a str) -> Result<Input, Refusal<'a>> {
        if self.is_by_options() {
            open(rt, name)
        } else {
            open_file(rt, name)
        }
    }

    /// The file that the search writes, if any.
    pub fn written_file(&self) -> Option<&'a str> {
        self.tour_file.or(self.solution_file)
    }

    /// The path of the problem file.
    pub fn problem_path(&self) -> &'a str {
        if self.is_by_options() {
            path_of(self.problem)
        } else {
            self.problem
        }
    }

    /// The file of a key, if there is one.
    pub fn file_of(&self, key: Key) -> Option<&'a str> {
        match key {
            Key::ProblemFile => Some(self.problem),
            Key::TourFile => self.tour_file,
            Key::SolutionFile => self.solution_file,
            Key::InitialTourFile => self.initial,
            _ => None,
        }
    }

    /// Whether each run begins with a solution.
    fn begins_with_solution(&self) -> bool {
        matches!(self.requester, Requester::Options(options, _) if options.initial_solution.is_some())
    }

    /// The name of a key in messages: that of the option, if options request the search.
    pub fn named(&self, key: Key) -> Named {
        match key {
            Key::ProblemFile if self.is_by_options() => Named::Problem,
            Key::TourFile if self.is_by_options() => Named::Output,
            Key::InitialTourFile if self.begins_with_solution() => Named::InitialSolution,
            Key::InitialTourFile if self.is_by_options() => Named::InitialTour,
            _ => Named::Key(key),
        }
    }
}
