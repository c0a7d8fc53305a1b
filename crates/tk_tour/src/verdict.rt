//! The check whether a list is a tour.
ghost use Rattle.std.specs.Prelude.{◌≡◌, ◌≤◌, ◌<◌, ◌^◌, ◌-◌, ℕ, IfOk, length, slice_index};
ghost use Rattle.tk_problem.specs.declared.limits.TheConstants.{CITY_LIMIT};
ghost use Rattle.tk_tour.specs.Reversal.{IsInverse};
ghost use Rattle.tk_tour.specs.Verdict.{IsVerdict, IsPlacedWhere};

use std::alloc::{AllocError, Global};

/// The verdict on a list that should be a tour of n cities: a tour, or its first fault. The count is checked first, and
/// then, position by position, the range before repetitions. Positions are counted from 1.
#[derive(Clone, Copy, PartialEq, Eq, Debug)]
pub enum Verdict {
    /// The list contains each of the cities 1 to n once.
    Tour,
    /// The list does not have n entries.
    WrongCount,
    /// The entry at this position is not from 1 to n.
    OutOfRange(u32),
    /// The entry at this position also occurs at an earlier one.
    RepeatedCity(u32),
}

// The position of a city that has not occurred yet.
const FREE: u32 = u32::MAX;

/// The verdict on a list that should be a tour of as many cities as it has entries. Writes the position of each city c,
/// counted from 0, to `place[c - 1]`, up to the first fault. All entries of `place` must be `u32::MAX` before.
pub fn place_cities(cities: &[u32], place: &mut [u32]) -> Verdict
    requires size { length cities.now ≤ CITY_LIMIT }
    requires place_size { length place.old ≡ length cities.now }
    requires free { (k : ℕ) → k < length place.old → slice_index place.old k ≡ 2 ^ 32 - 1 }
    ensures verdict { IsVerdict (length cities.now) cities.now result }
    ensures placed { IsPlacedWhere result (IsInverse cities.now place.new) }
{
    for k in 0..cities.len() {
        let city = cities[k] as usize;
        if city == 0 || city > cities.len() {
            return Verdict::OutOfRange(k as u32 + 1);
        }
        if place[city - 1] != FREE {
            return Verdict::RepeatedCity(k as u32 + 1);
        }
        place[city - 1] = k as u32;
    }
    Verdict::Tour
}

/// The verdict on a list that should be a tour of n cities.
///
/// # Errors
/// `AllocError` if memory runs out.
pub fn check(alloc: Global, n: u32, cities: &[u32]) -> Result<Verdict, AllocError>
    requires size { n ≤ CITY_LIMIT }
    ensures { IfOk result (λ v. IsVerdict n cities.now v) }
{
    if cities.len() != n as usize {
        return Ok(Verdict::WrongCount);
    }
    let mut place = vec![in alloc; FREE; n as usize]?;
    Ok(place_cities(cities, &mut place))
}
