//! Reads problem texts with the places of their cities.
ghost use Rattle.std.specs.Prelude.{Ok};
ghost use Rattle.tk_words.specs.Reading.{IsReading};
ghost use Rattle.tk_problem_text.specs.Placed.{placed_is, placed_texts};

use crate::placed_handler::PlacedHandler;
use crate::placed_problem::PlacedProblem;
use std::alloc::Global;
use tk_lines::PieceReader;
use tk_words::{Source, TextFault, TextKind, read_text};

/// Reads a problem text like `read_problem`, and the places of its cities if its weights are explicit: the coordinates
/// of DISPLAY_DATA_SECTION, or without that section, those of NODE_COORD_SECTION.
///
/// # Errors
/// Those of `read_problem`, and the first fault of DISPLAY_DATA_SECTION. Its values are ignored after a header that
/// says that the weights are distances in the plane.
pub fn read_placed_problem<R: Source>(
    alloc: Global,
    source: &mut R,
) -> Result<PlacedProblem, TextFault>
    ensures { IsReading R.Source placed_texts placed_is source.old source.new result }
{
    match PlacedHandler::new(alloc) {
        Ok(form) => read_text(source, PieceReader::new(form)),
        Err(_) => Err(TextFault {
            line: 1,
            kind: TextKind::NoMemory,
        }),
    }
}
