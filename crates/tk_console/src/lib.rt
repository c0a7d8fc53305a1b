//! The input files of the program, and what it prints: results, JSON objects, refusals, notes and progress.
#![tactic(auto)]

pub mod between_object;
pub mod file_id;
pub mod info_object;
pub mod input;
pub mod message;
pub mod named;
pub mod names;
pub mod objects;
pub mod printed;
pub mod progress;
pub mod refusal;
pub mod refusal_object;
pub mod report;
pub mod rows;
pub mod search;
pub mod shown;
