//! Why a parameter file is rejected.
use thiserror::Error;

/// The kind of a fault. The message consists of the number and the name of the kind.
#[derive(Clone, Copy, Debug, PartialEq, Eq, Error)]
pub enum ParamKind {
    /// The line does not begin with a known key.
    #[error("1 UnknownKey")]
    UnknownKey,
    /// The key occurs a second time.
    #[error("2 RepeatedKey")]
    RepeatedKey,
    /// The key does not allow this value.
    #[error("3 BadValue")]
    BadValue,
    /// PROBLEM_FILE is missing.
    #[error("4 MissingProblem")]
    MissingProblem,
    /// A file name contains a `$`.
    #[error("5 DollarInName")]
    DollarInName,
    /// The text, a line or a key is too long.
    #[error("6 TooLong")]
    TooLong,
    /// The source failed.
    #[error("7 Read")]
    Read,
    /// An allocation failed.
    #[error("8 NoMemory")]
    NoMemory,
}

/// Where and why a parameter file is rejected. Lines are counted from 1.
#[derive(Clone, Copy, Debug, PartialEq, Eq, Error)]
#[error("{line}: {kind}")]
pub struct ParamFault {
    pub line: u64,
    pub kind: ParamKind,
}
