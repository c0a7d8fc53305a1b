//! The length of near lists.
ghost use Rattle.std.specs.Prelude.{◌≡◌, IfSome, IsSome};
ghost use Rattle.tk_near.specs.ListLengths.{IsListLength};

use tk_problem::CANDIDATE_LIMIT;

/// The length of a near list, from 1 to 100 cities.
#[derive(Clone, Copy)]
pub struct ListLength {
    pub cities: u32,
    ghost within: { IsListLength cities },
}

impl ListLength {
    /// The list length, or `None` unless it is from 1 to 100.
    pub fn of(cities: u32) -> Option<ListLength>
        ensures some { IfSome result (λ length. length.cities ≡ cities) }
        ensures all { IsListLength cities → IsSome result }
    {
        if 1 <= cities && cities <= CANDIDATE_LIMIT {
            Some(ListLength { cities })
        } else {
            None
        }
    }
}
