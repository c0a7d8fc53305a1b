//! Texts from a source: sources, readers, and the loop between the two.
pub mod reading;
pub mod source;
pub mod text_reader;
