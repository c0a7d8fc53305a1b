//! The search that a parameter file specifies, for texts in memory.
ghost use Rattle.std.specs.Prelude.{◌≡◌, ◌≢◌, ◌≤◌, IfOk, IfErr, Ok, is_some};
ghost use Rattle.tk_engines.specs.Params.{params_answer};
ghost use Rattle.tk_engines.specs.Solve.{misfit_of, solve_task};
ghost use Rattle.tk_for_c.specs.Outcomes.{with_status};
ghost use Rattle.tk_for_c.specs.Searches.{HoldFiles};
ghost use Rattle.tk_for_c.specs.Solved.{AreParamsRefused, HasParamFault, IsSolveRefused, IsSolveStop, IsSolvedBy};
ghost use Rattle.tk_for_c.specs.Solved.{IsSolvedOf};
ghost use Rattle.tk_for_c.specs.Texts.{IsSomeText};

use crate::answer::{Answer, params_stopped};
use crate::searches::answer_of;
use std::alloc::Global;
use tk_engines::{Fault, NoObserver, ParamFault, Params, read_params, solve_engine};
use tk_text::{FromRead, ToWrite};

/// The parameters of a text.
fn params_of(alloc: Global, text: &[u8]) -> Result<Params, ParamFault>
    ensures ok { IfOk result (λ p. params_answer text.now ≡ Ok p) }
    ensures err { IfErr result (HasParamFault text.now) }
{
    read_params(alloc, &mut FromRead::new(text))
}

/// The text of the tour or of the solution, and the lines that the program prints.
fn solved(
    alloc: Global,
    params: &Params,
    problem: &[u8],
    initial: &[u8],
) -> Result<(Vec<u8>, Vec<u8>), Fault>
    ensures ok { IfOk result (λ r. IsSolvedBy (solve_task params.now) (is_some params.now.initial_tour_file)
        problem.now initial.now (record { file = r.0.items; out = r.1.items })) }
    ensures err { IfErr result (IsSolveStop (misfit_of params.now) (is_some params.now.initial_tour_file)
        problem.now initial.now) }
{
    let mut problem = FromRead::new(problem);
    let mut initial = FromRead::new(initial);
    let mut file = ToWrite::new(Vec::new(alloc));
    let mut out = ToWrite::new(Vec::new(alloc));
    let mut watch = NoObserver;
    match solve_engine(
        alloc,
        params,
        &mut problem,
        &mut initial,
        &mut file,
        &mut out,
        &mut watch,
    ) {
        Ok(()) => Ok((file.inner, out.inner)),
        Err(fault) => Err(fault),
    }
}

/// Searches for a short tour or for short routes, as the parameters specify. `file` gets the text of the tour or of the
/// solution, and `out` the lines that the program prints. `initial` is read if the parameters contain the key
/// INITIAL_TOUR_FILE; apart from that, file names are ignored. If a text is rejected, or a key does not apply to the
/// problem, `out` gets the message.
pub fn tourkit_solve(
    alloc: Global,
    parameters: &[u8],
    problem: &[u8],
    initial: &[u8],
    out: &mut [u8],
    file: &mut [u8],
) -> Answer
    ensures given { result.status ≤ 1
        → HoldFiles (IsSolvedOf parameters.now problem.now initial.now) out.old out.new file.old file.new result }
    ensures known { result.status ≤ 3 }
    ensures parameters { result.status ≡ 2 → result.text ≡ 1 → AreParamsRefused parameters.now result }
    ensures refused { result.status ≡ 2 → result.text ≢ 1
        → IsSolveRefused parameters.now problem.now initial.now result }
    ensures memory { result.status ≡ 3 → result ≡ with_status 3 result.needed }
    ensures message { 2 ≤ result.status → IsSomeText out.old out.new result }
    ensures kept { 2 ≤ result.status → file.new ≡ file.old }
{
    match params_of(alloc, parameters) {
        Ok(params) => answer_of(
            alloc,
            2,
            solved(alloc, &params, problem, initial),
            out,
            file,
        ),
        Err(fault) => params_stopped(alloc, &fault, out),
    }
}
