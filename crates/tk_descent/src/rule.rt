//! Rules: constraints on tours that a descent respects.
ghost use Rattle.std.specs.Prelude.{◌≡◌, ◌↔◌, ℕ, Bool, true, List, length};
ghost use Rattle.tk_distance.specs.Holding.{IsDistinct};
ghost use Rattle.tk_descent.specs.Machine.{IsOfferOn};
ghost use Rattle.tk_descent.specs.Offers.{EndsIn, Makes, everything};
ghost use Rattle.tk_descent.specs.WakeMachine.{each_cycle};
ghost use Rattle.tk_descent.specs.declared.offer.Offer.{Offer};

use crate::offer::Offer;
use tk_tour::TourStore;

/// A constraint on tours that a descent respects. For example, a tour may be a ring of routes, one after another with
/// copies of the depot in between, and the constraint is that no route exceeds the capacity. The TSP has no constraint:
/// it is the rule [`Everything`].
///
/// A rule has a definition, `Fits`, and a test, [`Rule::allows`]. `Fits` defines which tours respect the constraint.
/// The test decides about an offer on a tour that fits, before the move is made. The law `exact` ties the two: the
/// offer is allowed exactly if the tour after its move fits.
///
/// Hence all tours of a descent under a rule fit if the first one does. And if a city has no allowed offer with
/// positive gain, then none of its moves makes a shorter tour that fits.
///
/// A rule is for tours in a store of type `S`. Its test may use what such a store keeps along with a tour. `Suits`
/// states which stores keep what this rule needs; flips do not change whether a store does.
pub trait Rule<S: TourStore> {
    /// The store keeps what the test needs, besides the tour itself.
    ghost Suits: { Self → S → Type 0 };

    /// The tour, a list of its cities, fits: it respects the constraint. By the law, neither the first city of the list
    /// nor its direction can matter for a tour after a move.
    ghost Fits: { Self → List ℕ → Type 0 };

    /// What [`Rule::allows`] returns for an offer on a tour that fits.
    ghost allowed: { Self → List ℕ → Offer → Bool };

    /// Whether an offer is allowed on a tour that fits, which means that the tour after its move fits. A look asks this
    /// only about offers with positive gain.
    fn allows(&self, tour: &S, offer: &Offer) -> bool
        requires suits { Suits self.now tour.now }
        requires fits { Fits self.now (S.cities tour.now) }
        requires on_tour { IsOfferOn 3 offer.now (S.cities tour.now) }
        requires cities { EndsIn (length (S.cities tour.now)) offer.now }
        ensures { result ≡ allowed self.now (S.cities tour.now) offer.now };

    /// The law that flips leave a store suitable.
    ghost suits_more: { (r : Self) (s t : S) → Suits r s → S.FlipsOnly s t → Suits r t };

    /// The law that ties the test to the definition: if the move of the offer o makes the tour D of a tour C that fits,
    /// then o is allowed on C exactly if D fits. The segment of an Or-opt move has at most three cities.
    ghost exact: { (r : Self) (o : Offer) (C D : List ℕ) → IsDistinct C → Fits r C → Makes 3 o C D
        → (allowed r C o ≡ true) ↔ Fits r D };
}

/// The rule of the TSP: every tour fits, and every offer is allowed.
#[derive(Clone, Copy)]
pub struct Everything;

impl<S: TourStore> Rule<S> for Everything {
    ghost Suits = { λ r s. Unit {0} };

    ghost Fits = { λ r. each_cycle };

    ghost allowed = { λ r. everything };

    #[inline(always)]
    fn allows(&self, _tour: &S, _offer: &Offer) -> bool {
        true
    }

    ghost suits_more = { λ r s t h k. h };

    ghost exact = { λ r o C D h k m. (λ e. tt, λ e. Rattle.std.specs.Prelude.refl) };
}
