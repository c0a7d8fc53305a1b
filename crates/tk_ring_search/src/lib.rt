//! The trials of a search between routes, on a ring of customers and copies of the depot.
#![tactic(auto)]

mod kicks;
mod trials;

pub use kicks::drawing::{Drawn, draw_fitting};
pub use kicks::kick::Kick;
pub use trials::judging::Outcome;
pub use trials::laws::{
    best_is_no_longer_than_the_start, each_trial_counts, reports_agree, rings_fit,
    swept_rings_are_optimal, work_is_bounded,
};
pub use trials::searching::RingSearch;
pub use trials::terms::RingTerms;
pub use trials::totals::{RingTotals, RingTrial};
