//! Cities with their coordinates in two arrays, in units of 10^-9.
ghost use Rattle.std.specs.Prelude.{◌≡◌, ◌≢◌, ◌≤◌, ◌<◌, ◌*◌, ◌-◌, min, length, IfOk, IfSome, IfNone};
ghost use Rattle.tk_problem.specs.declared.limits.TheConstants.{CITY_LIMIT};
ghost use Rattle.tk_near.specs.ListLengths.{IsListLength};
ghost use Rattle.tk_metric.specs.PlaneOf.{city_distance};
ghost use Rattle.tk_metric.specs.Tables.{table_distance, table_size};
ghost use Rattle.tk_for_c.specs.Arrays.{IsArrayStatus};
ghost use Rattle.tk_for_c.specs.Outcomes.{with_status};
ghost use Rattle.tk_text.specs.Places.{IsNearOrigin};
ghost use Rattle.tk_for_c.specs.Points.{ArePlaces, ArePointsNear, CanBePlaces, IsPointsCheck, kind_number, place_at};

use crate::answer::{Answer, NO_MEMORY, REFUSED};
use crate::tables::{near_in, verdict_in};
use std::alloc::{AllocError, Global};
use tk_metric::{Planes, Table};
use tk_near::ListLength;
use tk_text::{CITY_LIMIT, COORDINATE_LIMIT, PlaneKind, Point, Points, SCALE};

/// The distance type with this number, which is 0 to 4; otherwise `None`.
fn kind_of(kind: u32) -> Option<PlaneKind>
    ensures some { IfSome result (λ type. kind_number type ≡ kind) }
    ensures limit { IfSome result (λ _. kind ≤ 4) }
    ensures none { IfNone result (5 ≤ kind) }
{
    match kind {
        0 => Some(PlaneKind::Euc2d),
        1 => Some(PlaneKind::Ceil2d),
        2 => Some(PlaneKind::Man2d),
        3 => Some(PlaneKind::Max2d),
        4 => Some(PlaneKind::Att),
        _ => None,
    }
}

/// Maximum magnitude of a coordinate, in units of 10^-9.
const FAR: u64 = COORDINATE_LIMIT * SCALE as u64;

/// The point with the coordinates at an index; `None` if one of them is beyond the limit.
fn place_in(xs: &[i64], ys: &[i64], i: usize) -> Option<Point>
    requires inside { i < length xs.now }
    requires count { length ys.now ≡ length xs.now }
    ensures place { IfSome result (λ place. place ≡ place_at xs.now ys.now i) }
    ensures some { IfSome result (λ _. IsNearOrigin (place_at xs.now ys.now i)) }
    ensures none { IfNone result (IsNearOrigin (place_at xs.now ys.now i) → ⊥) }
{
    let (x, y) = (xs[i], ys[i]);
    if x.unsigned_abs() > FAR || y.unsigned_abs() > FAR {
        return None;
    }
    Some(Point { x, y })
}

/// The points with these coordinates; `None` unless there are 2 to 100,000 points, with as many `ys` as `xs`, and all
/// coordinates are within the limit.
fn places_of(alloc: Global, xs: &[i64], ys: &[i64]) -> Result<Option<Points>, AllocError>
    ensures places { IfOk result (λ found. IfSome found (ArePlaces xs.now ys.now)) }
    ensures low { IfOk result (λ found. IfSome found (λ places. 2 ≤ length places)) }
    ensures high { IfOk result (λ found. IfSome found (λ places. length places ≤ CITY_LIMIT)) }
    ensures some { IfOk result (λ found. IfSome found (λ _. CanBePlaces xs.now ys.now)) }
    ensures none { IfOk result (λ found. IfNone found (CanBePlaces xs.now ys.now → ⊥)) }
{
    if xs.len() < 2 || xs.len() > CITY_LIMIT as usize || ys.len() != xs.len() {
        return Ok(None);
    }
    let mut points = Points::at_origin(alloc, xs.len())?;
    for i in 0..xs.len() {
        let Some(place) = place_in(xs, ys, i) else {
            return Ok(None);
        };
        points.set(i, place)?;
    }
    Ok(Some(points))
}

/// The distances between these points, by a distance type.
fn table_of(kind: PlaneKind, places: &Points) -> Table<'_>
    requires { length places.now ≤ CITY_LIMIT }
    ensures size { table_size result ≡ length places.now }
    ensures distances { table_distance result ≡ city_distance kind places.now }
{
    Table::Planes(Planes::new(kind, places))
}

/// Like `tourkit_near_cities`, but for 2 to 100,000 cities with coordinates in units of 10^-9, of magnitude at most
/// 10^18. `kind` is 0 for EUC_2D, 1 for CEIL_2D, 2 for MAN_2D, 3 for MAX_2D and 4 for ATT. For anything else, the
/// status is 2.
pub fn tourkit_near_points(
    alloc: Global,
    kind: u32,
    xs: &[i64],
    ys: &[i64],
    k: u32,
    out: &mut [u32],
) -> Answer
    ensures given { result.status ≡ 0 → ArePointsNear kind xs.now ys.now k out.new }
    ensures room { result.status ≡ 4 → result ≡ with_status 4 (length xs.now * min k (length xs.now - 1)) }
    ensures status { IsArrayStatus (length out.old) result }
    ensures kept { 2 ≤ result.status → out.new ≡ out.old }
    ensures refused { result.status ≡ 2 → result ≡ with_status 2 0 }
    ensures justified { result.status ≡ 2 → IsListLength k → kind ≤ 4 → CanBePlaces xs.now ys.now → ⊥ }
    ensures candidates { result.status ≢ 2 → IsListLength k }
    ensures kinds { result.status ≢ 2 → kind ≤ 4 }
    ensures places { result.status ≢ 2 → result.status ≢ 3 → CanBePlaces xs.now ys.now }
{
    let Some(candidates) = ListLength::of(k) else {
        return Answer::ended(REFUSED, 0);
    };
    let Some(kind) = kind_of(kind) else {
        return Answer::ended(REFUSED, 0);
    };
    match places_of(alloc, xs, ys) {
        Ok(Some(places)) => near_in(alloc, &table_of(kind, &places), candidates, out),
        Ok(None) => Answer::ended(REFUSED, 0),
        Err(_) => Answer::ended(NO_MEMORY, 0),
    }
}

/// Like `tourkit_check_cities`, but for cities as in `tourkit_near_points`.
pub fn tourkit_check_points(
    alloc: Global,
    kind: u32,
    xs: &[i64],
    ys: &[i64],
    cities: &[u32],
) -> Answer
    ensures given { result.status ≤ 1 → IsPointsCheck kind xs.now ys.now cities.now result }
    ensures known { result.status ≤ 3 }
    ensures refused { 2 ≤ result.status → result ≡ with_status result.status 0 }
    ensures justified { result.status ≡ 2 → kind ≤ 4 → CanBePlaces xs.now ys.now → ⊥ }
    ensures kinds { result.status ≢ 2 → kind ≤ 4 }
    ensures places { result.status ≢ 2 → result.status ≢ 3 → CanBePlaces xs.now ys.now }
{
    let Some(kind) = kind_of(kind) else {
        return Answer::ended(REFUSED, 0);
    };
    match places_of(alloc, xs, ys) {
        Ok(Some(places)) => verdict_in(alloc, &table_of(kind, &places), cities),
        Ok(None) => Answer::ended(REFUSED, 0),
        Err(_) => Answer::ended(NO_MEMORY, 0),
    }
}
