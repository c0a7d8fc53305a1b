//! The near lists of a table: by a k-d tree in the plane, otherwise by a scan.
ghost use Rattle.std.specs.Prelude.{◌≤◌, ◌<◌, IfOk};
ghost use Rattle.tk_problem.specs.declared.limits.TheConstants.{CANDIDATE_LIMIT};
ghost use Rattle.tk_distance.specs.Tables.{table_size, table_distance};
ghost use Rattle.tk_near.specs.Near.{AreNearLists};

use crate::near::{Near, near_scan};
use crate::plane::tree::near_tree;
use std::alloc::{AllocError, Global};
use tk_distance::Table;

/// The near lists of the cities of a table, with k cities each.
///
/// # Errors
/// `AllocError` if memory runs out.
pub fn near_lists(alloc: Global, table: &Table<'_>, k: u32) -> Result<Near, AllocError>
    requires low { 1 ≤ k }
    requires limit { k ≤ CANDIDATE_LIMIT }
    requires high { k < table_size table.now }
    ensures { IfOk result (AreNearLists (table_distance table.now) (table_size table.now) k) }
{
    match table {
        Table::Planes(planes) => match planes.euclid() {
            Some(euclid) => near_tree(alloc, &euclid, k),
            None => near_tree(alloc, planes, k),
        },
        Table::Triangle(triangle) => near_scan(alloc, triangle, k),
    }
}
