//! The tours that runs begin with.
ghost use Rattle.std.specs.Prelude.{◌≡◌, ◌+◌, ◌%◌, ◌≤◌, IfOk, MatchOption, option_map};
ghost use Rattle.tk_distance.specs.Tables.{table_size, table_distance};
ghost use Rattle.tk_near.specs.Near.{near_of};
ghost use Rattle.tk_tour.specs.ArrayTours.{order_of};
ghost use Rattle.tk_starts.specs.NearestTour.{IsNearestTour};
ghost use Rattle.tk_solve.specs.Starts.{IsSavedFor, common_of};

use crate::options::Start;
use std::alloc::{AllocError, Global};
use tk_distance::{Metric, Table};
use tk_near::Near;
use tk_starts::{nearest_tour, savings_tour};
use tk_tour::ArrayTour;

/// The savings tour of the cities of a table, if runs begin with it; otherwise an empty list.
pub(crate) fn savings_start(
    alloc: Global,
    table: &Table<'_>,
    near: &Near,
    start: Start<'_>,
) -> Result<Vec<u32>, AllocError>
    requires some { 1 ≤ table_size table.now }
    requires size { near.now.size ≡ table_size table.now }
    ensures { IfOk result (λ v. IsSavedFor (table_distance table.now) (near_of near.now)
        (table_size table.now) v.items start.entry) }
{
    match start {
        Start::Savings => match table {
            Table::Planes(planes) => savings_tour(alloc, planes, near),
            Table::Triangle(triangle) => savings_tour(alloc, triangle, near),
        },
        _ => Ok(Vec::new(alloc)),
    }
}

/// The tour that all runs begin with; `None` if each begins with a nearest-neighbour tour of its own.
pub(crate) fn common_start<'a>(start: Start<'a>, savings: &'a [u32]) -> Option<&'a [u32]>
    ensures { option_map (λ c. c.now) result ≡ common_of savings.now start.entry }
{
    match start {
        Start::Nearest => None,
        Start::Savings => Some(savings),
        Start::Tour(cities) => Some(cities),
    }
}

/// The tour that run j, counted from 0, begins with: the common one or, if there is none, the nearest-neighbour tour
/// from city 1 + j mod n.
pub(crate) fn start_of(
    alloc: Global,
    table: &Table<'_>,
    common: Option<&[u32]>,
    j: u32,
) -> Result<ArrayTour, AllocError>
    requires some { 1 ≤ table_size table.now }
    ensures start { IfOk result (λ t. MatchOption common.entry
        (IsNearestTour (table_distance table.now) (table_size table.now) (1 + j % table_size table.now) (order_of t))
        (λ c. order_of t ≡ c.now)) }
{
    let made = match common {
        Some(cities) => ArrayTour::from_list(alloc, cities),
        None => ArrayTour::from_list(alloc, &nearest_tour(alloc, table, 1 + j % table.size())?),
    };
    made.or(Err(AllocError))
}
