//! The values of a problem's headers.
ghost use Rattle.std.specs.Prelude.{◌≡◌, List, ℕ};
ghost use Rattle.tk_problem_text.specs.HeaderValues as Values;
ghost use Rattle.tk_lines.specs.Reader.ValueScanner.{Scans};

use tk_lines::ValueScanner;
use tk_problem::{FORMATS, Format, PLANE_KINDS, PlaneKind};

/// The types of problems that are supported.
#[derive(Clone, Copy, PartialEq, Eq)]
pub enum ProblemType {
    Tsp,
    Cvrp,
}

/// How distances are given: by coordinates in the plane, or explicitly.
#[derive(Clone, Copy)]
pub enum WeightType {
    Plane(PlaneKind),
    Explicit,
}

/// How explicit weights are given: by a function, or as a list in a format.
#[derive(Clone, Copy)]
pub enum WeightFormat {
    Function,
    Listed(Format),
}

/// The value of TYPE; `None` if it is not supported.
pub fn problem_type_of(value: &ValueScanner) -> Option<ProblemType>
    ensures { (v : List ℕ) → Scans value.now v → result ≡ Values.problem_type_of v }
{
    if value.is(b"TSP") {
        return Some(ProblemType::Tsp);
    }
    if value.is(b"CVRP") {
        return Some(ProblemType::Cvrp);
    }
    None
}

/// The value of EDGE_WEIGHT_TYPE; `None` if it is not supported.
pub fn weight_type_of(value: &ValueScanner) -> Option<WeightType>
    ensures { (v : List ℕ) → Scans value.now v → result ≡ Values.weight_type_of v }
{
    if value.is(b"EXPLICIT") {
        return Some(WeightType::Explicit);
    }
    match plane_of(value) {
        Some(kind) => Some(WeightType::Plane(kind)),
        None => None,
    }
}

fn plane_of(value: &ValueScanner) -> Option<PlaneKind>
    ensures { (v : List ℕ) → Scans value.now v → result ≡ Values.plane_of v }
{
    PLANE_KINDS
        .iter()
        .copied()
        .find(|kind| value.is(kind.word().as_bytes()))
}

/// The value of EDGE_WEIGHT_FORMAT; `None` if it is not supported.
pub fn weight_format_of(value: &ValueScanner) -> Option<WeightFormat>
    ensures { (v : List ℕ) → Scans value.now v → result ≡ Values.weight_format_of v }
{
    if value.is(b"FUNCTION") {
        return Some(WeightFormat::Function);
    }
    match format_of(value) {
        Some(format) => Some(WeightFormat::Listed(format)),
        None => None,
    }
}

fn format_of(value: &ValueScanner) -> Option<Format>
    ensures { (v : List ℕ) → Scans value.now v → result ≡ Values.format_of v }
{
    FORMATS
        .iter()
        .copied()
        .find(|format| value.is(format.word().as_bytes()))
}

/// Whether a value of NODE_COORD_TYPE is supported.
pub fn is_coordinate_type(value: &ValueScanner) -> bool
    ensures { (v : List ℕ) → Scans value.now v → result ≡ Values.is_coordinate_type v }
{
    if value.is(b"TWOD_COORDS") {
        return true;
    }
    value.is(b"NO_COORDS")
}
