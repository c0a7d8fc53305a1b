//! The options of a search.
ghost use Rattle.std.specs.Prelude.{◌≤◌};
ghost use Rattle.tk_problem.specs.declared.limits.TheConstants.{CANDIDATE_LIMIT};

use tk_search::SearchRules;

/// The start of a run.
#[derive(Clone, Copy)]
pub enum Start<'a> {
    /// A nearest-neighbour tour: that of run j, counted from 0, begins at city 1 + j mod n.
    Nearest,
    /// The tour of the savings algorithm.
    Savings,
    /// This tour.
    Tour(&'a [u32]),
}

/// The options of a search for a tour.
#[derive(Clone, Copy)]
pub struct TourOptions<'a> {
    /// The start of each run.
    pub start: Start<'a>,
    /// The number of runs, 1 to 10,000.
    pub runs: u32,
    /// The number of trials per run, 1 to 1,000,000. With fewer than 8 cities, a run has one trial.
    pub trials: u32,
    /// The seed of the random numbers. Run j, counted from 0, uses `seed` + j.
    pub seed: u32,
    /// Maximum length of the near lists, 1 to 100.
    pub candidates: u32,
    /// The rules of the descents in the trials.
    pub rules: SearchRules,
    ghost some_runs: { (1 ≤ runs) × (runs ≤ 10000) },
    ghost some_trials: { (1 ≤ trials) × (trials ≤ 1000000) },
    ghost some_candidates: { (1 ≤ candidates) × (candidates ≤ CANDIDATE_LIMIT) },
    ghost segments: { (1 ≤ rules.or_segment) × (rules.or_segment ≤ 3) },
}

/// The options of a search for routes.
#[derive(Clone, Copy)]
pub struct RouteOptions {
    /// Maximum length of the near lists, 1 to 100.
    pub candidates: u32,
    /// Maximum number of nodes in a segment that is moved, 1 to 3.
    pub or_segment: u32,
    ghost some_candidates: { (1 ≤ candidates) × (candidates ≤ CANDIDATE_LIMIT) },
    ghost segments: { (1 ≤ or_segment) × (or_segment ≤ 3) },
}
