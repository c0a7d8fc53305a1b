//! Files of the repository that the program prints.
pub mod compare;
pub mod completions;
