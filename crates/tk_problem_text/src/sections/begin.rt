//! How a section of a problem begins.
ghost use Rattle.std.specs.Prelude.{◌≡◌, ◌≤◌, ℕ, true, List, Some, None, if◌then◌else◌, IfOk, IfErr};
ghost use Rattle.tk_problem.specs.declared.limits.TheConstants.{CITY_LIMIT};
ghost use Rattle.tk_words.specs.declared.keyword.Keyword.TheVariants as words;
ghost use Rattle.tk_problem_text.specs.Reader.BegunSections as Begun;
ghost use Rattle.tk_problem_text.specs.Reader.BegunSections.{IsReady, IsBegunSection};
ghost use Rattle.tk_lines.specs.Reader.Handlers.{IsReportedWord};
ghost use Rattle.tk_problem_text.specs.Reader.Parts.{HasParts};
ghost use Rattle.tk_lines.specs.Pieces.{Piece, first_at, Fault};
ghost use Rattle.tk_problem_text.specs.Problem.{size_of, is_known_section, is_explicit, listed_format, section_tests};
ghost use Rattle.tk_problem_text.specs.Problem.{problem_type as problem_type_in};
ghost use Rattle.tk_problem_text.specs.Reader.BegunSections.{RefusesToBegin};

use crate::header_values::{ProblemType, WeightFormat, WeightType};
use crate::parts::Parts;
use crate::sections::coordinates::Coordinates;
use crate::sections::demands::Demands;
use crate::sections::depot::Depot;
use crate::sections::explicit_weights::ExplicitWeights;
use crate::sections::open_section::OpenSection;
use std::alloc::Global;
use tk_problem::{Format, TABLE_LIMIT};
use tk_words::{Keyword, TextKind};

/// Begins the section of a word, after these parts.
///
/// # Errors
/// The first fault of the section's word: `Unsupported`, `Repeated`, `Missing` or `OutOfLimit`, or `NoMemory` if memory
/// runs out.
pub fn begin(alloc: Global, parts: &Parts, word: Keyword) -> Result<OpenSection, TextKind>
    ensures ok { (before : List Piece) (n : ℕ) → HasParts parts.now before
        → IfOk result (IsBegunSection before word n) }
    ensures err { RefusesToBegin parts.now word result }
{
    let Some(came) = came(parts, word) else {
        return Err(TextKind::Unsupported);
    };
    if came {
        return Err(TextKind::Repeated);
    }
    let Some(problem_type) = parts.headers.problem_type else {
        return Err(TextKind::Missing(Keyword::Type));
    };
    let Some(size) = parts.headers.dimension else {
        return Err(TextKind::Missing(Keyword::Dimension));
    };
    begin_known(alloc, parts, word, problem_type, size)
}

/// Whether the section of a word has been read; `None` if problems have no such section.
fn came(parts: &Parts, word: Keyword) -> Option<bool>
    ensures { (ps : List Piece) → HasParts parts.now ps → result ≡ Begun.came ps word }
{
    match word {
        Keyword::NodeCoordSection => Some(parts.places.is_some()),
        Keyword::EdgeWeightSection => Some(parts.lower.is_some()),
        Keyword::DemandSection => Some(parts.demand.is_some()),
        Keyword::DepotSection => Some(parts.depot.is_some()),
        Keyword::DisplayDataSection => Some(parts.has_display),
        _ => None,
    }
}

/// Begins a section that problems can have.
fn begin_known(
    alloc: Global,
    parts: &Parts,
    word: Keyword,
    problem_type: ProblemType,
    size: u32,
) -> Result<OpenSection, TextKind>
    ensures ok { (before : List Piece) → HasParts parts.now before
        → parts.now.headers.problem_type ≡ Some problem_type → size_of before ≡ size → size ≤ CITY_LIMIT
        → is_known_section word ≡ true → IfOk result (IsReady before word) }
    ensures err { (before : List Piece) (n : ℕ) → HasParts parts.now before
        → parts.now.headers.problem_type ≡ Some problem_type → size_of before ≡ size
        → IfErr result (IsReportedWord (λ k. first_at n (section_tests before word) ≡ Some (Fault n k))) }
{
    match word {
        Keyword::NodeCoordSection => begin_places(alloc, size),
        Keyword::EdgeWeightSection => begin_weights(alloc, parts, size),
        Keyword::DemandSection => begin_loads(alloc, problem_type, size),
        Keyword::DepotSection => begin_depot(problem_type, size),
        _ => Ok(OpenSection::Display(size.saturating_mul(3))),
    }
}

fn begin_places(alloc: Global, size: u32) -> Result<OpenSection, TextKind>
    ensures ok { (before : List Piece) → size_of before ≡ size → IfOk result (IsReady before words.NodeCoordSection) }
    ensures err { IfErr result (λ k. k ≡ TextKind.NoMemory) }
{
    Ok(OpenSection::Places(Coordinates::new(alloc, size)?))
}

fn begin_loads(alloc: Global, problem_type: ProblemType, size: u32) -> Result<OpenSection, TextKind>
    ensures ok { (before : List Piece) → problem_type_in before ≡ Some problem_type → size_of before ≡ size
        → IfOk result (IsReady before words.DemandSection) }
    ensures err { (before : List Piece) (n : ℕ) → problem_type_in before ≡ Some problem_type → size_of before ≡ size
        → IfErr result
        (IsReportedWord (λ k. first_at n (section_tests before words.DemandSection) ≡ Some (Fault n k))) }
{
    if problem_type == ProblemType::Tsp {
        return Err(TextKind::Unsupported);
    }
    if size > TABLE_LIMIT {
        return Err(TextKind::OutOfLimit);
    }
    Ok(OpenSection::Loads(Demands::new(alloc, size)?))
}

fn begin_depot(problem_type: ProblemType, size: u32) -> Result<OpenSection, TextKind>
    ensures ok { (before : List Piece) → problem_type_in before ≡ Some problem_type → size_of before ≡ size
        → IfOk result (IsReady before words.DepotSection) }
    ensures err { (before : List Piece) (n : ℕ) → problem_type_in before ≡ Some problem_type
        → IfErr result (IsReportedWord (λ k. first_at n (section_tests before words.DepotSection) ≡ Some (Fault n k))) }
{
    if problem_type == ProblemType::Tsp {
        return Err(TextKind::Unsupported);
    }
    Ok(OpenSection::Home(Depot::new(size)))
}

fn begin_weights(alloc: Global, parts: &Parts, size: u32) -> Result<OpenSection, TextKind>
    ensures ok { (before : List Piece) → HasParts parts.now before → size_of before ≡ size
        → IfOk result (IsReady before words.EdgeWeightSection) }
    ensures err { (before : List Piece) (n : ℕ) → HasParts parts.now before → size_of before ≡ size
        → IfErr result (IsReportedWord (λ k. first_at n (section_tests before words.EdgeWeightSection)
        ≡ Some (Fault n k))) }
{
    let Some(weight_type) = parts.headers.weight_type else {
        return Err(TextKind::Missing(Keyword::EdgeWeightType));
    };
    let Some(weight_format) = parts.headers.weight_format else {
        return Err(TextKind::Missing(Keyword::EdgeWeightFormat));
    };
    let Some(format) = listed(weight_type, weight_format) else {
        return Err(TextKind::Unsupported);
    };
    if size > TABLE_LIMIT {
        return Err(TextKind::OutOfLimit);
    }
    Ok(OpenSection::Explicit(ExplicitWeights::new(alloc, size, format)?))
}

/// The format of weights that are explicit and listed; `None` for other weights.
fn listed(weight_type: WeightType, weight_format: WeightFormat) -> Option<Format>
    ensures { result ≡ (if is_explicit (Some weight_type) then listed_format (Some weight_format) else None) }
{
    match weight_type {
        WeightType::Plane(_) => None,
        WeightType::Explicit => match weight_format {
            WeightFormat::Function => None,
            WeightFormat::Listed(format) => Some(format),
        },
    }
}
