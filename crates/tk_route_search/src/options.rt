//! The options of a search for routes.
ghost use Rattle.std.specs.Prelude.{◌≤◌};
ghost use Rattle.tk_problem.specs.declared.limits.TheConstants.{CANDIDATE_LIMIT};

/// The routes that each run begins with.
#[derive(Clone, Copy)]
pub enum RouteStart<'a> {
    /// The cheapest savings routes over near lists of 3, 5, 8, 12, 20, 32, 50 and 100 nodes. If costs are equal, those
    /// of the shortest near lists.
    Ladder,
    /// These routes, without the empty ones.
    Routes(&'a [Vec<u32>]),
}

/// The options of a search for routes.
#[derive(Clone, Copy)]
pub struct SearchOptions<'a> {
    /// The start of each run.
    pub start: RouteStart<'a>,
    /// The number of runs, 1 to 10,000.
    pub runs: u32,
    /// The number of trials per run after its first descent, 1 to 1,000,000.
    pub trials: u32,
    /// The seed of the random numbers. Run j, counted from 0, uses `seed` + j.
    pub seed: u32,
    /// Maximum length of the near lists of a search, 1 to 100.
    pub candidates: u32,
    /// Maximum number of nodes in a segment that is moved, 1 to 3.
    pub or_segment: u32,
    /// Whether each descent is swept: it makes passes, each with all nodes awake, until one makes no move.
    pub final_sweep: bool,
    ghost some_runs: { (1 ≤ runs) × (runs ≤ 10000) },
    ghost some_trials: { (1 ≤ trials) × (trials ≤ 1000000) },
    ghost some_candidates: { (1 ≤ candidates) × (candidates ≤ CANDIDATE_LIMIT) },
    ghost segments: { (1 ≤ or_segment) × (or_segment ≤ 3) },
}
