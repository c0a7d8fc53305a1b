//! The answer to a call of a search.
ghost use Rattle.std.specs.Prelude.{◌≤◌, IfErr, IfOk};
ghost use Rattle.tk_for_c.specs.Searches.{IsStopped};
ghost use Rattle.tk_for_c.specs.Texts.{AreWritten};

use crate::answer::{Answer, stopped};
use crate::hand_out::hand_out;
use std::alloc::Global;
use tk_engines::Fault;

/// Writes the text of the tour or of the solution that was found to `file`, and the lines to `out`; or the message to
/// `out`, if there was no search. `problem` is the number of the problem text.
pub(crate) fn answer_of(
    alloc: Global,
    problem: u32,
    solved: Result<(Vec<u8>, Vec<u8>), Fault>,
    out: &mut [u8],
    file: &mut [u8],
) -> Answer
    requires { problem ≤ 2 }
    ensures given { IfOk solved (λ r. AreWritten 0 r.1.items out.old out.new r.0.items file.old file.new result) }
    ensures stopped { IfErr solved (λ f. IsStopped problem f out.old out.new file.old file.new result) }
{
    match solved {
        Ok((text, lines)) => {
            Answer::ended_twice(0, hand_out(&lines, out), hand_out(&text, file))
        }
        Err(fault) => stopped(alloc, problem, &fault, out),
    }
}
