//! The settings of a search.
ghost use Rattle.std.specs.Prelude.{◌≤◌, IfSome};
ghost use Rattle.std.proofs.Props.{props};
ghost use Rattle.tk_problem.specs.declared.limits.TheConstants.{CANDIDATE_LIMIT};
ghost use Rattle.tk_params.specs.Requested.{IsInLimits};

use crate::value::Construction;

/// The settings of a search for a tour or for routes. The defaults are those of a parameter file.
#[derive(Clone, Copy)]
pub struct SearchSettings {
    /// The number of runs, 1 to 10,000; 10 by default.
    pub runs: u32,
    /// The number of trials per run, 1 to 1,000,000; `None`, the default, means the number of cities, or between routes
    /// ten for each node.
    pub max_trials: Option<u32>,
    /// The seed of the random numbers; 1 by default.
    pub seed: u32,
    /// The length of the near lists, 1 to 100; 5 by default.
    pub max_candidates: u32,
    /// How starting tours are constructed; by nearest neighbours by default. It has no effect on routes.
    pub construction: Construction,
    /// Whether each trial continues until no city has an improving move; no by default.
    pub final_sweep: bool,
    /// Maximum number of cities in a segment that is moved, 1 to 3; 3 by default.
    pub or_segment: u32,
    ghost some_runs: { (1 ≤ runs) × (runs ≤ 10000) },
    ghost some_trials: { IfSome max_trials (IsInLimits 1 1000000) } by { Prim.hlevel props },
    ghost some_candidates: { (1 ≤ max_candidates) × (max_candidates ≤ CANDIDATE_LIMIT) },
    ghost segments: { (1 ≤ or_segment) × (or_segment ≤ 3) },
}
