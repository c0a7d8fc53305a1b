//! Every name that users of the libraries write, by its path. This program compiles only as long as the libraries
//! export all of them.

/// Texts.
pub mod texts {
    pub use tk_text::{
        Failed, Format, FromRead, GivenPlaces, Keyword, PlacedProblem, PlacesOrigin, PlaneKind,
        Point, Problem, Routing, Sink, SolText, Source, TextFault, TextKind, ToWrite, TourText,
        Weights, WriteFault, read_placed_problem, read_problem, read_solution, read_tour,
        write_matrix, write_solution, write_tour,
    };
}

/// Limits.
pub mod limits {
    pub use tk_text::{
        CANDIDATE_LIMIT, CAPACITY_LIMIT, CITY_LIMIT, COORDINATE_LIMIT, DISTANCE_LIMIT, ENTRY_LIMIT,
        ROUTE_LIMIT, TABLE_LIMIT, TEXT_LIMIT,
    };
}

/// Distances and near lists.
pub mod distances {
    pub use tk_metric::{
        BothAxes, Metric, Near, Planar, Planes, Sub, SwappedAxes, Table, Triangle, near_among,
        near_lists, near_scan, near_sweep, near_tree, near_tree_among, root, root_up,
    };
}

/// Tours.
pub mod tours {
    pub use tk_segments::SegmentTour;
    pub use tk_tour::{
        ArrayTour, Flip, JournalTour, TourFault, TourStore, UndoStore, Verdict, check, length,
    };
}

/// Descents.
pub mod descents {
    pub use tk_descent::{
        EdgeCache, Gains, Offer, Probe, Report, SweptReport, Waking, descend, descend_swept,
        is_local_optimum, look, make,
    };
}

/// Starting tours and searches.
pub mod building {
    pub use tk_build::{
        Cuts, Search, SearchRules, Totals, TrialReport, kick, nearest, nearest_tour, nearest_tree,
        savings_lists, savings_tour,
    };
}

/// Routes.
pub mod routes {
    pub use tk_routes::{Cvrp, RouteReport, RouteVerdict, Routes, check_routes, improve, savings};
}

/// The program as a library.
pub mod engines {
    pub use tk_engines::{
        Construction, Fault, FoundBetween, FoundRoutes, FoundTour, Key, NoObserver, ParamFault,
        ParamKind, Params, Progress, RouteFault, RouteProgress, RouteRun, RouteVerdict, RouteWatch,
        SearchBuilder, SearchOutcome, SearchSettings, TourFault, TourOutcome, Verdict, Watch,
        between_engine, between_outcome, check_engine, key_of, matrix_engine, near_engine,
        read_params, route_check_engine, route_outcome, route_outcome_of, search_between,
        search_engine, search_outcome, search_problem, solve_engine, tour_outcome, tour_outcome_of,
        unfit_key, write_found, write_route_run_line, write_route_verdict, write_run_line,
        write_search_lines, write_tour_outcome,
    };
    pub use tk_plot::{Plotted, plot_engine};
}
