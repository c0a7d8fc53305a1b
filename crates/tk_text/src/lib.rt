//! The texts of the field: TSPLIB 95 problems and tours, CVRPLIB solutions, read and written.
//!
//! Its rooms are crates of their own; this one is what callers use.
#![tactic(auto)]

pub use tk_lists::{
    SolText, TourText, decided_solutions_stay, decided_tours_stay,
    each_solution_text_has_an_answer, each_tour_text_has_an_answer, read_solution, read_tour,
};
pub use tk_problem::{
    CANDIDATE_LIMIT, CAPACITY_LIMIT, CITY_LIMIT, COORDINATE_LIMIT, Cell, DISTANCE_LIMIT,
    ENTRY_LIMIT, FORMATS, Format, LowerWeights, PLANE_KINDS, Places, PlaneKind, Point, Points,
    Problem, ROUTE_LIMIT, Routing, SCALE, TABLE_LIMIT, TEXT_LIMIT, Unit, WeightCursor, Weights,
    WholePoint, limits_are_these_numbers,
};
pub use tk_problem_text::{
    GivenPlaces, PlacedProblem, PlacesOrigin, decided_places_stay, decided_problems_stay,
    each_placed_text_has_an_answer, each_problem_text_has_an_answer, placed_problems_are_problems,
    read_placed_problem, read_problem,
};
pub use tk_words::{
    BUFFER_SIZE, Entry, Failed, FeedResult, FromRead, Keyword, Role, Source, TextFault, TextKind,
    TextReader, blank, buffer_size_is_this_number, decimal, each_word_spells_its_keyword, entry_of,
    feed_piece, integer, keyword_in, letter, minus_one, read_text, spelled, word_byte,
};
pub use tk_writers::{
    Page, Pen, Sink, ToWrite, WriteFault, format_of, write_matrix, write_solution, write_tour,
};
