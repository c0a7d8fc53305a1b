//! The options of `solve` for a search without a parameter file.

/// The values of the options, as they were written; `None` for those that were not given.
#[derive(Clone, Copy)]
pub struct SearchOptions<'a> {
    /// `-o`: the file to which the best tour or the routes are written.
    pub output: Option<&'a str>,
    /// `--initial-tour`: the tour that each run begins with.
    pub initial_tour: Option<&'a str>,
    /// `--initial-solution`: the routes that each run begins with.
    pub initial_solution: Option<&'a str>,
    /// `--runs`
    pub runs: Option<&'a str>,
    /// `--trials`: the number of trials per run.
    pub trials: Option<&'a str>,
    /// `--seconds`: the time limit.
    pub seconds: Option<u32>,
    /// `--seed`
    pub seed: Option<&'a str>,
    /// `--candidates`: the length of the near lists.
    pub candidates: Option<&'a str>,
    /// `--construction`: how starting tours are constructed.
    pub construction: Option<&'a str>,
    /// `--or-segment`: the maximum number of cities in a segment that is moved.
    pub or_segment: Option<&'a str>,
    /// `--final-sweep`
    pub final_sweep: bool,
    /// `--vehicles`: the number of vehicles that there are for the routes.
    pub vehicles: Option<u32>,
    /// `--within-routes`: whether savings routes are improved, each by itself.
    pub within_routes: bool,
}

impl<'a> SearchOptions<'a> {
    /// Whether any option was given.
    pub fn are_given(&self) -> bool {
        let values = [
            self.output,
            self.initial_tour,
            self.initial_solution,
            self.runs,
            self.trials,
            self.seed,
            self.candidates,
            self.construction,
            self.or_segment,
        ];
        let flags = [
            self.final_sweep,
            self.within_routes,
            self.seconds.is_some(),
            self.vehicles.is_some(),
        ];
        flags.contains(&true) || values.iter().any(|value| value.is_some())
    }

    /// The file that each run begins with, a tour or routes.
    pub fn initial(&self) -> Option<&'a str> {
        self.initial_tour.or(self.initial_solution)
    }
}
