//! Problem texts (`tk_problem_text` and below).

pub mod read_both_ways;
pub mod reported;
mod sources;
mod whole;
