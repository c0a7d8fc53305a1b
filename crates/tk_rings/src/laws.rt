//! What the definitions of rings say. The functions do no work: each is a theorem, stated by its contract.
ghost use Rattle.std.specs.Prelude.{◌≡◌, ℕ, true, false, Bool, ◌++◌, ◌≤◌, sum_by, All, length};
ghost use Rattle.tk_distance.specs.Holding.{IsDistinct};
ghost use Rattle.tk_descent.specs.Offers.{Makes};
ghost use Rattle.tk_rings.specs.After.{after};
ghost use Rattle.tk_tour.specs.Tour.{SameCycle};
ghost use Rattle.tk_rings.specs.Rings.{fits};

use tk_descent::Offer;

/// A law: on a ring that fits, the load of each path without a copy of the depot is at most the capacity, wherever the
/// ring begins and in both directions.
pub fn paths_fit(capacity: u64, ring: &[u32], path: &[u32], rest: &[u32])
    ensures { (load : ℕ → ℕ) (is_depot : ℕ → Bool) → fits capacity load is_depot ring.now ≡ true
        → SameCycle ring.now (path.now ++ rest.now) → All (λ c. is_depot c ≡ false) path.now
        → sum_by load path.now ≤ capacity }
{}

/// A law: whether a ring fits depends neither on where it begins nor on its direction.
pub fn same_cycles_fit(capacity: u64, ring: &[u32], other: &[u32])
    requires { SameCycle ring.now other.now }
    ensures { (load : ℕ → ℕ) (is_depot : ℕ → Bool)
        → fits capacity load is_depot other.now ≡ fits capacity load is_depot ring.now }
{}

/// A law: the ring after the move of an offer is what the move makes, except for where it begins and for its direction.
pub fn moves_make_after(ring: &[u32], offer: &Offer, made: &[u32])
    requires distinct { IsDistinct ring.now }
    requires some { 3 ≤ length ring.now }
    requires makes { Makes 3 offer.now ring.now made.now }
    ensures { SameCycle made.now (after ring.now offer.now) }
{}
