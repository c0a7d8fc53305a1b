//! Why an engine stopped.
ghost use Rattle.std.specs.Prelude.{◌≡◌};
ghost use Rattle.tk_engines.specs.Engine.{write_end};

use crate::route_fault::RouteFault;
use thiserror::Error;
use tk_params::Key;
use tk_tour::TourFault;
use tk_words::TextFault;
use tk_writers::WriteFault;

/// Why an engine stopped. It has written nothing, except for what a write fault reports.
#[derive(Clone, Copy, Debug, PartialEq, Eq, Error)]
pub enum Fault {
    /// The problem text has this fault.
    #[error("problem text: {0}")]
    Problem(TextFault),
    /// The tour text has this fault.
    #[error("tour text: {0}")]
    Tour(TextFault),
    /// The solution text has this fault.
    #[error("solution text: {0}")]
    Solution(TextFault),
    /// The initial tour is not a tour of the problem's cities.
    #[error("initial tour: {0}")]
    Initial(TourFault),
    /// The initial solution has this fault.
    #[error("initial solution: {0}")]
    InitialRoutes(RouteFault),
    /// The problem has no routing: it is not a CVRP.
    #[error("not a CVRP")]
    WrongType,
    /// The parameters have a key that does not apply to a problem of this type.
    #[error("{0} does not fit the problem's type")]
    NotForType(Key),
    /// The problem has more than 5,000 nodes, too many for a matrix.
    #[error("too large for a matrix")]
    TooLarge,
    /// The output could not be written.
    #[error("write fault")]
    Write(WriteFault),
    /// An allocation failed.
    #[error("out of memory")]
    NoMemory,
    /// The problem has explicit weights and no coordinates, so its cities cannot be drawn.
    #[error("no coordinates")]
    NoPlaces,
    /// A page has names, but not one for each node of the problem, which has this many.
    #[error("not one name for each node")]
    WrongNames(u32),
}

/// The end of an engine that has written its outcome.
pub(crate) fn end_of(written: Result<(), WriteFault>) -> Result<(), Fault>
    ensures { result ≡ write_end written }
{
    match written {
        Ok(()) => Ok(()),
        Err(fault) => Err(Fault::Write(fault)),
    }
}
