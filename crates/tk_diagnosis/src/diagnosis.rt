//! Diagnoses of faults: what was expected at the line of a fault, what was found there, and what to do.
mod ends;
mod misread;
mod missing;
mod numbers;
mod parameters;
mod routing;
mod solutions;
mod unsupported;
mod words;

use crate::fault::FileFault;
use crate::line_context::{Diagnosis, LineContext};
use std::alloc::AllocError;
use tk_kinds::Kind;
use tk_words::TextKind;

/// The diagnosis of a fault at its line.
///
/// # Errors
/// `AllocError` if memory runs out.
pub fn diagnosis_at(spot: &LineContext<'_>, fault: &FileFault) -> Result<Diagnosis, AllocError> {
    match fault {
        FileFault::Parameters(fault) => parameters::parameter(spot, fault.kind),
        FileFault::Text(fault) if spot.kind == Kind::Solution => {
            Ok(solutions::solution(spot, fault.kind))
        }
        FileFault::Text(fault) => of_text(spot, fault.kind),
    }
}

/// The diagnosis of a fault of a problem or a tour.
fn of_text(spot: &LineContext<'_>, kind: TextKind) -> Result<Diagnosis, AllocError> {
    match kind {
        TextKind::UnknownKeyword => words::unknown(spot),
        TextKind::BadNumber | TextKind::OutOfLimit | TextKind::BadNode => {
            numbers::number(spot, kind)
        }
        _ => Ok(decided(spot, kind)),
    }
}

/// Like `of_text`, for the kinds of faults whose diagnosis takes no memory.
fn decided(spot: &LineContext<'_>, kind: TextKind) -> Diagnosis {
    match kind {
        TextKind::Repeated => words::repeated(spot),
        TextKind::Missing(word) => missing::missing(spot, word),
        TextKind::Unsupported => unsupported::unsupported(spot),
        TextKind::NotSymmetric(row, column) => routing::not_symmetric(spot, row, column),
        TextKind::Truncated => ends::truncated(spot),
        TextKind::TrailingData => ends::trailing(spot),
        TextKind::BadDepot => routing::bad_depot(spot),
        TextKind::DemandOverCapacity(node) => routing::over_capacity(spot, node),
        _ => words::too_long(spot),
    }
}
