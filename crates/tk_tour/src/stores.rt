//! Tour stores: array tours, and journals that undo flips.
pub mod array;
pub mod journal;
pub mod placing;
pub mod reversal;
