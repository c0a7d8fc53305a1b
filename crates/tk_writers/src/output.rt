//! Output: sinks, and pens that write a text piece by piece.
pub mod page;
pub mod pen;
pub mod sink;
