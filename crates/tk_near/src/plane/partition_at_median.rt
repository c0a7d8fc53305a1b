//! Brings the half of some cities that comes first in x or in y to the front.
//!
//! How evenly the cities are divided decides how long a search of a tree takes, but not what it finds. Therefore, the
//! contracts state only that no city is lost.
ghost use Rattle.std.specs.Prelude.{◌≤◌, IsPermutation, length};

use crate::plane::city_point::CityPoint;

/// Rows of at most this length are sorted.
const FEW: usize = 12;

/// Rows of at least this length choose their pivot from nine cities.
const MANY: usize = 64;

/// Whether a city comes before another in y, or in x, with ties broken by number.
#[inline]
fn comes_first(p: CityPoint, q: CityPoint, is_tall: bool) -> bool {
    let (a, b) = if is_tall {
        (p.place.y, q.place.y)
    } else {
        (p.place.x, q.place.x)
    };
    (a < b) | ((a == b) & (p.city < q.city))
}

/// The median of three cities.
fn middle_of_three(a: CityPoint, b: CityPoint, c: CityPoint, is_tall: bool) -> CityPoint {
    let is_rising = comes_first(a, b, is_tall);
    if comes_first(b, c, is_tall) == is_rising {
        b
    } else if comes_first(c, a, is_tall) == is_rising {
        a
    } else {
        c
    }
}

/// A pivot, which is near the median in most rows: the median of three cities, or the median of three such medians in a
/// long row.
fn pivot_of(row: &[CityPoint], is_tall: bool) -> CityPoint
    requires { 1 ≤ length row.now }
{
    let last = row.len() - 1;
    if row.len() < MANY {
        return middle_of_three(row[0], row[row.len() / 2], row[last], is_tall);
    }
    let step = row.len() / 8;
    let a = middle_of_three(row[0], row[step], row[2 * step], is_tall);
    let b = middle_of_three(row[3 * step], row[4 * step], row[5 * step], is_tall);
    let c = middle_of_three(row[6 * step], row[7 * step], row[last], is_tall);
    middle_of_three(a, b, c, is_tall)
}

/// Brings the cities that come before a city to the front, and returns their number.
fn part(row: &mut [CityPoint], middle: CityPoint, is_tall: bool) -> usize
    ensures count { result ≤ length row.old }
    ensures moved { IsPermutation row.old row.new }
{
    let mut count = 0;
    for i in 0..row.len() {
        let is_first = comes_first(row[i], middle, is_tall);
        row.swap(i, count);
        if is_first {
            count += 1;
        }
    }
    count
}

fn sort(row: &mut [CityPoint], is_tall: bool)
    ensures { IsPermutation row.old row.new }
{
    if is_tall {
        row.sort_unstable_by_key(|p| (p.place.y, p.city));
    } else {
        row.sort_unstable_by_key(|p| (p.place.x, p.city));
    }
}

/// Brings the first `count` of the cities to the front, by a quickselect (C. A. R. Hoare, 1961). A short row is sorted,
/// and so is what remains after the last round.
fn select(row: &mut [CityPoint], count: usize, is_tall: bool, rounds: u32)
    ensures { IsPermutation row.old row.new }
{
    if rounds == 0 || row.len() <= FEW {
        sort(row, is_tall);
        return;
    }
    let middle = pivot_of(row, is_tall);
    let before = part(row, middle, is_tall);
    let (front, back) = row.split_at_mut(before);
    if count < before {
        select(front, count, is_tall, rounds - 1);
    } else {
        select(back, count - before, is_tall, rounds - 1);
    }
}

/// Brings the lower half of the cities to the front, in y or in x.
pub fn partition_at_median(row: &mut [CityPoint], is_tall: bool)
    ensures { IsPermutation row.old row.new }
{
    select(row, row.len() / 2, is_tall, 40);
}
