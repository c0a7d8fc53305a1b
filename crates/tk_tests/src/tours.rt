//! Tours: lists, tours in an array, journals, and tours in segments.
pub mod examples;
pub mod segments;
pub mod worked;
