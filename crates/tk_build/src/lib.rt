//! The public interface of starting tours and of the search, by `pub use`.
//!
//! Its rooms are crates of their own; this one is what callers use.
#![tactic(auto)]

pub use tk_search::{
    Cuts, Search, SearchRules, Totals, TrialReport, best_is_a_tour, best_is_first_of_the_shortest,
    best_is_no_longer_than_the_start, each_trial_counts, few_cities_make_one_trial, kick,
    reports_agree, work_is_bounded,
};
pub use tk_starts::{
    Pair, nearest, nearest_tour, nearest_tours_agree, nearest_tree, parts_are_connected,
    saving_pairs_agree, savings_lists, savings_lists_agree, savings_tour,
};
