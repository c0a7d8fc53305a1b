//! The engines of six subcommands, for any source and sink, and the lines that they write.
//!
//! All engines are two halves in a row, and each half is public: the first reads the texts and returns an outcome, and
//! the second writes it. `tour_outcome_of` and `route_outcome_of` are the first half for a
//! problem that has been read, to check many tours or solutions of it.
//!
//! An engine reads all of its texts before it writes a byte. If it stops for a fault other than a write fault, it has
//! written nothing.
#![tactic(auto)]

mod engines;
mod fault;
mod route_fault;

pub use engines::between::{between_engine, between_outcome, search_between};
pub use engines::check::{check_engine, tour_outcome, tour_outcome_of};
pub use engines::info::{info_engine, info_outcome};
pub use engines::matrix::{matrix_engine, matrix_outcome, write_matrix_of};
pub use engines::near::{near_engine, near_outcome, write_near_lists};
pub use engines::route_check::{route_check_engine, route_outcome, route_outcome_of};
pub use engines::search::{search_outcome, search_problem};
pub use engines::search_given::unfit_key;
pub use engines::solve::{search_engine, solve_engine, write_found};
pub use fault::Fault;
pub use route_fault::RouteFault;
pub use tk_outcomes::{
    Area, DistanceInfo, FoundBetween, FoundRoutes, FoundTour, ProblemInfo, RoutingInfo,
    SearchOutcome, TourOutcome, put_coordinate, write_info, write_route_run_line,
    write_route_verdict, write_run_line, write_search_lines, write_tour_outcome,
};
pub use tk_params::{
    Construction, Key, ParamFault, ParamKind, Params, SearchBuilder, SearchSettings,
    decided_params_stay, each_params_text_has_an_answer, each_word_spells_its_key, key_of,
    read_params,
};
pub use tk_route_search::{RouteProgress, RouteRun, RouteWatch};
pub use tk_routes::RouteVerdict;
pub use tk_solve::{NoObserver, Progress, RunReport, Watch};
pub use tk_tour::{TourFault, Verdict};
