//! Numbers: integers, decimals, and how a token is read where a number is expected.
pub mod decimals;
pub mod entries;
pub mod integers;
