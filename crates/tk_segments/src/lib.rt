//! A tour in an array that is divided into segments. A long reversal reverses a few segments, and does not move cities.
//!
//! Each segment reads its part of the array forwards or backwards. The sequence consists of these parts, one after
//! another; the tour is a rotation of it. In the names of this crate, the sequence is what is seen or shown, and the id
//! of a segment is its name.
#![tactic(auto)]

mod exchanging;
mod joining;
mod naming;
mod seen;
mod segment;
mod segments;
mod splitting;
mod spots;
mod tour;
mod turning;
mod writing;

pub use tour::SegmentTour;
