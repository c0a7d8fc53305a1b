//! The nearest-neighbour tour of a table: by a tree in the plane, otherwise by a scan.
ghost use Rattle.std.specs.Prelude.{IfOk};
ghost use Rattle.tk_distance.specs.Cities.{IsCity};
ghost use Rattle.tk_distance.specs.Tables.{table_distance, table_size};
ghost use Rattle.tk_tour.specs.Tour.{IsTour};
ghost use Rattle.tk_starts.specs.NearestTour.{IsNearestTour};

use super::by_tree::nearest_tree;
use super::scan::nearest;
use std::alloc::{AllocError, Global};
use tk_distance::Table;

/// The nearest-neighbour tour of the cities of a table.
///
/// # Errors
/// `AllocError` if memory runs out.
pub fn nearest_tour(alloc: Global, table: &Table<'_>, start: u32) -> Result<Vec<u32>, AllocError>
    requires { IsCity (table_size table.now) start }
    ensures nearest { IfOk result (λ v. IsNearestTour (table_distance table.now) (table_size table.now) start v.items) }
    ensures tour { IfOk result (λ v. IsTour (table_size table.now) v.items) }
{
    match table {
        Table::Planes(planes) => match planes.euclid() {
            Some(euclid) => nearest_tree(alloc, &euclid, start),
            None => nearest_tree(alloc, planes, start),
        },
        Table::Triangle(triangle) => nearest(alloc, triangle, start),
    }
}
