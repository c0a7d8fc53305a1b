//! The weights of a problem, and the TSPLIB names of distance types and matrix formats.
ghost use Rattle.std.specs.Prelude.{◌≡◌};
ghost use Rattle.tk_problem.specs.WeightWords;

use crate::points::Points;

/// A distance type of TSPLIB: how distances are computed from coordinates.
#[derive(Clone, Copy, PartialEq, Eq)]
pub enum PlaneKind {
    Euc2d,
    Ceil2d,
    Man2d,
    Max2d,
    Att,
}

/// The distance types, in the order of the enum.
pub const PLANE_KINDS: [PlaneKind; 5] = [
    PlaneKind::Euc2d,
    PlaneKind::Ceil2d,
    PlaneKind::Man2d,
    PlaneKind::Max2d,
    PlaneKind::Att,
];

impl PlaneKind {
    /// The TSPLIB name of the distance type.
    pub fn word(self) -> &'static str
        ensures { result.now ≡ WeightWords.plane_word self }
    {
        match self {
            PlaneKind::Euc2d => "EUC_2D",
            PlaneKind::Ceil2d => "CEIL_2D",
            PlaneKind::Man2d => "MAN_2D",
            PlaneKind::Max2d => "MAX_2D",
            PlaneKind::Att => "ATT",
        }
    }
}

/// A matrix format of TSPLIB: the order in which explicit weights are written.
#[derive(Clone, Copy, PartialEq, Eq)]
pub enum Format {
    FullMatrix,
    UpperRow,
    LowerRow,
    UpperDiagRow,
    LowerDiagRow,
    UpperCol,
    LowerCol,
    UpperDiagCol,
    LowerDiagCol,
}

/// The formats, in the order of the enum.
pub const FORMATS: [Format; 9] = [
    Format::FullMatrix,
    Format::UpperRow,
    Format::LowerRow,
    Format::UpperDiagRow,
    Format::LowerDiagRow,
    Format::UpperCol,
    Format::LowerCol,
    Format::UpperDiagCol,
    Format::LowerDiagCol,
];

impl Format {
    /// The TSPLIB name of the format.
    pub fn word(self) -> &'static str
        ensures { result.now ≡ WeightWords.format_word self }
    {
        match self {
            Format::FullMatrix => "FULL_MATRIX",
            Format::UpperRow => "UPPER_ROW",
            Format::LowerRow => "LOWER_ROW",
            Format::UpperDiagRow => "UPPER_DIAG_ROW",
            Format::LowerDiagRow => "LOWER_DIAG_ROW",
            Format::UpperCol => "UPPER_COL",
            Format::LowerCol => "LOWER_COL",
            Format::UpperDiagCol => "UPPER_DIAG_COL",
            Format::LowerDiagCol => "LOWER_DIAG_COL",
        }
    }
}

/// A distance type and the points of the cities, or explicit weights: the lower triangle, row by row, without its
/// diagonal.
#[derive(Drop)]
pub enum Weights {
    Points(PlaneKind, Points),
    Lower(Vec<u32>),
}
