//! The fault of a file.
use std::fmt;
use tk_params::ParamFault;
use tk_words::TextFault;

/// The fault of a file.
#[derive(Clone, Copy)]
pub enum FileFault {
    Text(TextFault),
    Parameters(ParamFault),
}

impl FileFault {
    /// The line of the fault.
    pub fn line(&self) -> u64 {
        match self {
            FileFault::Text(fault) => fault.line,
            FileFault::Parameters(fault) => fault.line,
        }
    }
}

/// The line and the fault, as other commands print them.
impl fmt::Display for FileFault {
    fn fmt<W: fmt::Write>(&self, f: &mut fmt::Formatter<W>) -> fmt::Result {
        match self {
            FileFault::Text(fault) => write!(f, "{fault}"),
            FileFault::Parameters(fault) => write!(f, "{fault}"),
        }
    }
}
