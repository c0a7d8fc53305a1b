//! Kicks, and the trials of a search.
#![tactic(auto)]

mod double_bridges;
mod trials;

pub use double_bridges::cuts::Cuts;
pub use double_bridges::kicking::{bridged_length, kick};
pub use trials::descending::SearchRules;
pub use trials::laws::{
    best_is_a_tour, best_is_first_of_the_shortest, best_is_no_longer_than_the_start,
    each_trial_counts, few_cities_make_one_trial, reports_agree, work_is_bounded,
};
pub use trials::searching::Search;
pub use trials::totals::{Totals, TrialReport};
