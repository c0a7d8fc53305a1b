//! The answer of the library's readers to a text, by the kind of file that it is read as.
ghost use Rattle.std.specs.Prelude.{◌≡◌, IfOk};
ghost use Rattle.tk_words.specs.Texts.{answer_of};
ghost use Rattle.tk_problem_text.specs.Problem.{problem_texts};
ghost use Rattle.tk_lists.specs.Tour.{tour_texts};
ghost use Rattle.tk_lists.specs.Solution.{solution_texts};
ghost use Rattle.tk_params.specs.Params.{params_answer};
ghost use Rattle.tk_explain.specs.Answers.{fault_in, fault_of, text_fault, param_fault};

use crate::valid::Valid;
use crate::whole::Whole;
use std::alloc::{AllocError, Global};
use tk_diagnosis::FileFault;
use tk_kinds::Kind;
use tk_lists::{read_solution, read_tour};
use tk_params::{ParamKind, read_params};
use tk_problem_text::read_problem;
use tk_words::TextKind;

/// The answer of a reader: the contents of a file, or its fault.
#[derive(Drop)]
pub enum ReadResult {
    Valid(Valid),
    Invalid(FileFault),
}

impl ReadResult {
    /// The fault, if there is one.
    pub fn fault(&self) -> Option<FileFault>
        ensures { result ≡ fault_in self.now }
    {
        match self {
            ReadResult::Valid(_) => None,
            ReadResult::Invalid(fault) => Some(*fault),
        }
    }
}

/// The answer of the reader of this kind of file.
///
/// # Errors
/// `AllocError` if memory runs out, as for all functions here.
pub fn answer_to(alloc: Global, kind: Kind, text: &[u8]) -> Result<ReadResult, AllocError>
    ensures fault { IfOk result (λ answer. fault_in answer ≡ fault_of kind text.now) }
{
    match kind {
        Kind::Problem => of_problem(alloc, text),
        Kind::Tour => of_tour(alloc, text),
        Kind::Solution => of_solution(alloc, text),
        Kind::Parameters => of_parameters(alloc, text),
    }
}

/// The answer of the reader of problems.
fn of_problem(alloc: Global, text: &[u8]) -> Result<ReadResult, AllocError>
    ensures { IfOk result (λ answer. fault_in answer ≡ text_fault (answer_of problem_texts text.now)) }
{
    match read_problem(alloc, &mut Whole { bytes: text }) {
        Ok(problem) => Ok(ReadResult::Valid(Valid::Problem(problem))),
        Err(fault) if fault.kind == TextKind::NoMemory => Err(AllocError),
        Err(fault) => Ok(ReadResult::Invalid(FileFault::Text(fault))),
    }
}

/// The answer of the reader of tours.
fn of_tour(alloc: Global, text: &[u8]) -> Result<ReadResult, AllocError>
    ensures { IfOk result (λ answer. fault_in answer ≡ text_fault (answer_of tour_texts text.now)) }
{
    match read_tour(alloc, &mut Whole { bytes: text }) {
        Ok(tour) => Ok(ReadResult::Valid(Valid::Tour(tour))),
        Err(fault) if fault.kind == TextKind::NoMemory => Err(AllocError),
        Err(fault) => Ok(ReadResult::Invalid(FileFault::Text(fault))),
    }
}

/// The answer of the reader of solutions.
fn of_solution(alloc: Global, text: &[u8]) -> Result<ReadResult, AllocError>
    ensures { IfOk result (λ answer. fault_in answer ≡ text_fault (answer_of solution_texts text.now)) }
{
    match read_solution(alloc, &mut Whole { bytes: text }) {
        Ok(solution) => Ok(ReadResult::Valid(Valid::Solution(solution))),
        Err(fault) if fault.kind == TextKind::NoMemory => Err(AllocError),
        Err(fault) => Ok(ReadResult::Invalid(FileFault::Text(fault))),
    }
}

/// The answer of the reader of parameter files.
fn of_parameters(alloc: Global, text: &[u8]) -> Result<ReadResult, AllocError>
    ensures { IfOk result (λ answer. fault_in answer ≡ param_fault (params_answer text.now)) }
{
    match read_params(alloc, &mut Whole { bytes: text }) {
        Ok(params) => Ok(ReadResult::Valid(Valid::Parameters(params))),
        Err(fault) if fault.kind == ParamKind::NoMemory => Err(AllocError),
        Err(fault) => Ok(ReadResult::Invalid(FileFault::Parameters(fault))),
    }
}
