//! Why a list is rejected as a tour.
use thiserror::Error;

/// Why a list is rejected as a tour of 2 to 100,000 cities. Positions are counted from 1.
#[derive(Clone, Copy, PartialEq, Eq, Debug, Error)]
pub enum TourFault {
    /// The list has fewer than 2 entries, or more than 100,000.
    #[error("wrong count: a tour has 2 to 100,000 cities")]
    WrongCount,
    /// The entry at this position is 0 or greater than the number of entries.
    #[error("out of range at place {0}")]
    OutOfRange(u32),
    /// The entry at this position also occurs at an earlier one.
    #[error("repeated city at place {0}")]
    RepeatedCity(u32),
    /// Memory ran out.
    #[error("out of memory")]
    NoMemory,
}
