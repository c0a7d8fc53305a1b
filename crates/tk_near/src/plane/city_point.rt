//! Cities with their coordinates.
ghost use Rattle.std.specs.Prelude.{◌≡◌, IfOk};
ghost use Rattle.tk_near.specs.CityPoint.{IsNumberedRow, x_gap};

use std::alloc::{AllocError, Global};
use tk_distance::Planar;
use tk_problem::Point;

/// A city with its coordinates.
#[derive(Clone, Copy, Drop)]
pub struct CityPoint {
    pub place: Point,
    pub city: u32,
}

impl CityPoint {
    /// The difference in x.
    pub fn gap_x(self, other: CityPoint) -> u64
        ensures { result ≡ x_gap self other }
    {
        self.place.x.abs_diff(other.place.x)
    }
}

/// The cities with their coordinates, in the order of their numbers.
///
/// # Errors
/// `AllocError` if memory runs out.
pub fn row_of<P: Planar>(alloc: Global, m: &P) -> Result<Vec<CityPoint>, AllocError>
    ensures { IfOk result (λ v. IsNumberedRow (P.size_of m.now) (P.place_of m.now) v.items) }
{
    let mut row = Vec::with_capacity(alloc, m.size() as usize)?;
    for c in 1..m.size() + 1 {
        let place = m.place(c);
        row.push(CityPoint { place, city: c })?;
    }
    Ok(row)
}
