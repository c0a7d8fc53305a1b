//! Reads problem texts.
ghost use Rattle.std.specs.Prelude.{Ok, IfOk};
ghost use Rattle.tk_words.specs.Reading.{IsReading};
ghost use Rattle.tk_problem_text.specs.ProblemOf.{problem_is};
ghost use Rattle.tk_problem_text.specs.Problem.{problem_texts};
ghost use Rattle.tk_problem_text.specs.Names.{IsName};

use crate::problem_handler::ProblemHandler;
use std::alloc::Global;
use tk_lines::PieceReader;
use tk_problem::Problem;
use tk_words::{Source, TextFault, TextKind, read_text};

/// Reads a problem text, no further than its result requires. If it is not read to its end, every text that begins with
/// the bytes read has this result, except for `Read`, if the source fails, and `NoMemory`.
///
/// # Errors
/// The first fault of the text, with its line; `Read` if the source fails before the result is known, and `NoMemory` if
/// memory runs out.
pub fn read_problem<R: Source>(alloc: Global, source: &mut R) -> Result<Problem, TextFault>
    ensures reads { IsReading R.Source problem_texts problem_is source.old source.new result }
    ensures named { IfOk result (λ problem. IsName (problem_is problem).name) }
{
    match ProblemHandler::new(alloc) {
        Ok(form) => read_text(source, PieceReader::new(form)),
        Err(_) => Err(TextFault {
            line: 1,
            kind: TextKind::NoMemory,
        }),
    }
}
