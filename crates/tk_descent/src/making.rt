//! Moves of offers, by flips.
ghost use Rattle.std.specs.Prelude.{◌≡◌, ℕ, ◌+◌, ◌*◌, ◌/◌, ◌≤◌, length};
ghost use Rattle.tk_tour.specs.Tour.{next_city};
ghost use Rattle.tk_descent.specs.Offers.{Makes, EndsIn};
ghost use Rattle.tk_descent.specs.Machine.{IsOfferOn};
ghost use Rattle.tk_descent.specs.declared.offer.Offer.TheVariants.{Or};

use crate::offer::Offer;
use crate::on_tour::{next, size};
use tk_tour::TourStore;
use tk_tour::laws::{move_reversed, move_straight};

/// Moves a segment that runs forwards from x to e.
fn move_forward<S: TourStore>(tour: &mut S, a: u32, x: u32, e: u32, b: u32, y: u32, w: u32)
    requires offer { IsOfferOn 3 (Or a x e b y w) (S.cities tour.old) }
    requires cities { EndsIn (length (S.cities tour.old)) (Or a x e b y w) }
    requires forward { next_city (S.cities tour.old) a ≡ x }
    ensures made { (m : ℕ) → IsOfferOn m (Or a x e b y w) (S.cities tour.old)
        → Makes m (Or a x e b y w) (S.cities tour.old) (S.cities tour.new) }
    ensures rises { S.swap_count tour.old ≤ S.swap_count tour.new }
    ensures swaps { S.swap_count tour.new ≤ S.swap_count tour.old + 3 * (length (S.cities tour.old) / 4) }
    ensures flips { S.flip_count tour.new ≤ S.flip_count tour.old + 3 }
    ensures size { length (S.cities tour.new) ≡ length (S.cities tour.old) }
    ensures kept { S.FlipsOnly tour.old tour.new }
{
    if next(tour, y) != w {
        move_reversed(tour, a, x, e, b, w, y);
    } else if x == e {
        move_reversed(tour, a, x, e, b, y, w);
    } else {
        move_straight(tour, a, x, e, b, y, w);
    }
}

/// Makes the move of an offer, by at most three flips.
pub fn make<S: TourStore>(tour: &mut S, offer: &Offer)
    requires offer { IsOfferOn 3 offer.now (S.cities tour.old) }
    requires cities { EndsIn (length (S.cities tour.old)) offer.now }
    ensures made { (m : ℕ) → IsOfferOn m offer.now (S.cities tour.old)
        → Makes m offer.now (S.cities tour.old) (S.cities tour.new) }
    ensures rises { S.swap_count tour.old ≤ S.swap_count tour.new }
    ensures swaps { S.swap_count tour.new ≤ S.swap_count tour.old + 3 * (length (S.cities tour.old) / 4) }
    ensures flips { S.flip_count tour.new ≤ S.flip_count tour.old + 3 }
    ensures size { length (S.cities tour.new) ≡ length (S.cities tour.old) }
    ensures kept { S.FlipsOnly tour.old tour.new }
{
    match *offer {
        Offer::Two { a, b, c, d } => {
            let _ = tour.flip(a, b, c, d);
        }
        Offer::Or { a, x, e, b, y, w } => {
            if next(tour, a) == x {
                move_forward(tour, a, x, e, b, y, w);
            } else {
                move_forward(tour, b, e, x, a, w, y);
            }
        }
    }
}
