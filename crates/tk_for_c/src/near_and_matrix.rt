//! Near lists and matrices as texts.
ghost use Rattle.std.specs.Prelude.{◌≡◌, ◌≤◌, IfOk, IfErr};
ghost use Rattle.tk_problem.specs.declared.weights.Format.TheVariants.{FullMatrix};
ghost use Rattle.tk_near.specs.ListLengths.{IsListLength};
ghost use Rattle.tk_engines.specs.MatrixOf.{too_large};
ghost use Rattle.tk_for_c.specs.Answers.{IsRightRefusal, IsStop, NeverClashes, NoFault, NoRefusal, fits_any};
ghost use Rattle.tk_for_c.specs.Outcomes.{with_status};
ghost use Rattle.tk_for_c.specs.Texts.{IsMatrixTextOf, IsNearTextOf, IsSomeText, IsTextWritten};

use crate::answer::{Answer, REFUSED, stopped};
use crate::hand_out::hand_out;
use std::alloc::Global;
use tk_engines::{Fault, matrix_engine, near_engine};
use tk_near::ListLength;
use tk_text::{Format, FromRead, ToWrite};

/// The text of the near lists of a problem.
fn near_text(alloc: Global, problem: &[u8], candidates: ListLength) -> Result<Vec<u8>, Fault>
    ensures ok { IfOk result (λ text. IsNearTextOf candidates.cities problem.now text.items) }
    ensures err { IfErr result (IsStop fits_any NeverClashes NoFault NoFault problem.now) }
{
    let mut problem = FromRead::new(problem);
    let mut text = ToWrite::new(Vec::new(alloc));
    match near_engine(alloc, &mut problem, candidates.cities, &mut text) {
        Ok(()) => Ok(text.inner),
        Err(fault) => Err(fault),
    }
}

/// The text of the matrix of a problem.
fn matrix_text(alloc: Global, problem: &[u8]) -> Result<Vec<u8>, Fault>
    ensures ok { IfOk result (λ text. IsMatrixTextOf FullMatrix problem.now text.items) }
    ensures err { IfErr result (IsStop too_large NeverClashes NoFault NoFault problem.now) }
{
    let mut problem = FromRead::new(problem);
    let mut text = ToWrite::new(Vec::new(alloc));
    match matrix_engine(alloc, &mut problem, Format::FullMatrix, &mut text) {
        Ok(()) => Ok(text.inner),
        Err(fault) => Err(fault),
    }
}

/// Writes the near list of each city on a line: its k nearest neighbours, or all other cities if there are fewer. k is
/// 1 to 100; for any other k, the status is 2 without a message. If the text is rejected, `out` gets the message.
pub fn tourkit_near(alloc: Global, problem: &[u8], k: u32, out: &mut [u8]) -> Answer
    ensures given { result.status ≤ 1 → IsTextWritten (IsNearTextOf k problem.now) out.old out.new result }
    ensures known { result.status ≤ 3 }
    ensures refused { result.status ≡ 2 → IsListLength k
        → IsRightRefusal fits_any NeverClashes NoRefusal 1 problem.now result }
    ensures outside { (IsListLength k → ⊥) → result ≡ with_status 2 0 }
    ensures memory { result.status ≡ 3 → result ≡ with_status 3 result.needed }
    ensures message { 2 ≤ result.status → IsSomeText out.old out.new result }
{
    let Some(candidates) = ListLength::of(k) else {
        return Answer::ended(REFUSED, hand_out(b"", out));
    };
    match near_text(alloc, problem, candidates) {
        Ok(text) => Answer::ended(0, hand_out(&text, out)),
        Err(fault) => stopped(alloc, 1, &fault, out),
    }
}

/// Writes a problem of at most 5,000 nodes as one with explicit weights, in a full matrix. If the text is rejected, or
/// the problem has more nodes, `out` gets the message.
pub fn tourkit_matrix(alloc: Global, problem: &[u8], out: &mut [u8]) -> Answer
    ensures given { result.status ≤ 1
        → IsTextWritten (IsMatrixTextOf FullMatrix problem.now) out.old out.new result }
    ensures known { result.status ≤ 3 }
    ensures refused { result.status ≡ 2
        → IsRightRefusal too_large NeverClashes NoRefusal 1 problem.now result }
    ensures memory { result.status ≡ 3 → result ≡ with_status 3 result.needed }
    ensures message { 2 ≤ result.status → IsSomeText out.old out.new result }
{
    match matrix_text(alloc, problem) {
        Ok(text) => Answer::ended(0, hand_out(&text, out)),
        Err(fault) => stopped(alloc, 1, &fault, out),
    }
}
