//! Arrays of numbers for any table of distances: its distances, its near lists, and the verdict on a list.
ghost use Rattle.std.specs.Prelude.{◌≡◌, ◌≢◌, ◌≤◌, ◌*◌, ◌-◌, min, length};
ghost use Rattle.tk_metric.specs.Tables.{table_distance, table_size};
ghost use Rattle.tk_for_c.specs.Arrays.{AreDistances, AreNearIn, HasVerdict, IsArrayStatus};
ghost use Rattle.tk_for_c.specs.Outcomes.{with_status};

use crate::answer::{Answer, NO_MEMORY, NO_ROOM};
use std::alloc::Global;
use tk_metric::{Metric, Table, near_lists};
use tk_near::ListLength;
use tk_tour::{Verdict, check, length};

/// Writes the distances of all pairs of cities of a metric, row by row.
fn fill_rows<M: Metric>(metric: &M, out: &mut [i64])
    requires some { 1 ≤ M.size_of metric.now }
    requires size { length out.old ≡ M.size_of metric.now * M.size_of metric.now }
    ensures { AreDistances (M.size_of metric.now) (M.distance metric.now) out.new }
{
    let n = metric.size() as usize;
    for i in 0..out.len() {
        out[i] = metric.dist((i / n) as u32 + 1, (i % n) as u32 + 1);
    }
}

/// Writes the distances of all pairs of cities of a table, row by row.
pub(crate) fn fill_distances(table: &Table<'_>, out: &mut [i64])
    requires some { 1 ≤ table_size table.now }
    requires size { length out.old ≡ table_size table.now * table_size table.now }
    ensures { AreDistances (table_size table.now) (table_distance table.now) out.new }
{
    match table {
        Table::Planes(planes) => fill_rows(planes, out),
        Table::Triangle(triangle) => fill_rows(triangle, out),
    }
}

/// Writes the near lists of a table one after another, each with `candidates` cities, or all other cities if there are
/// fewer. If `out` has another size, nothing is written, and the status is 4.
pub(crate) fn near_in(
    alloc: Global,
    table: &Table<'_>,
    candidates: ListLength,
    out: &mut [u32],
) -> Answer
    requires some { 2 ≤ table_size table.now }
    ensures given { result.status ≡ 0
        → AreNearIn (table_size table.now) (table_distance table.now) candidates.cities out.new }
    ensures room { result.status ≡ 4
        → result ≡ with_status 4 (table_size table.now * min candidates.cities (table_size table.now - 1)) }
    ensures status { IsArrayStatus (length out.old) result }
    ensures kept { 2 ≤ result.status → out.new ≡ out.old }
    ensures unrefused { result.status ≢ 2 }
{
    let n = table.size();
    let width = candidates.cities.min(n - 1);
    let needed = n as usize * width as usize;
    if out.len() != needed {
        return Answer::ended(NO_ROOM, needed);
    }
    match near_lists(alloc, table, width) {
        Ok(near) => {
            out.copy_from_slice(near.entries());
            Answer::ended(0, needed)
        }
        Err(_) => Answer::ended(NO_MEMORY, 0),
    }
}

/// The result of checking a list as a tour of a metric's cities.
fn verdict_by<M: Metric>(alloc: Global, metric: &M, cities: &[u32]) -> Answer
    ensures given { result.status ≤ 1 → HasVerdict (M.size_of metric.now) (M.distance metric.now) cities.now result }
    ensures known { result.status ≤ 3 }
    ensures unrefused { result.status ≢ 2 }
    ensures unwritten { result.needed ≡ 0 }
    ensures memory { result.status ≡ 3 → result ≡ with_status 3 0 }
{
    match check(alloc, metric.size(), cities) {
        Ok(Verdict::Tour) => Answer::of_length(length(metric, cities).unsigned_abs()),
        Ok(Verdict::WrongCount) => Answer::found(20, 0),
        Ok(Verdict::OutOfRange(place)) => Answer::found(21, place),
        Ok(Verdict::RepeatedCity(place)) => Answer::found(22, place),
        Err(_) => Answer::ended(NO_MEMORY, 0),
    }
}

/// The result of checking a list as a tour of a table's cities.
pub(crate) fn verdict_in(alloc: Global, table: &Table<'_>, cities: &[u32]) -> Answer
    ensures given { result.status ≤ 1
        → HasVerdict (table_size table.now) (table_distance table.now) cities.now result }
    ensures known { result.status ≤ 3 }
    ensures unrefused { result.status ≢ 2 }
    ensures unwritten { result.needed ≡ 0 }
    ensures memory { result.status ≡ 3 → result ≡ with_status 3 0 }
{
    match table {
        Table::Planes(planes) => verdict_by(alloc, planes, cities),
        Table::Triangle(triangle) => verdict_by(alloc, triangle, cities),
    }
}
