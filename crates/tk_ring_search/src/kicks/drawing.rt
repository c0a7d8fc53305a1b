//! Draws of kicks, until a ring fits after one.
ghost use Rattle.std.specs.Prelude.{◌≡◌};
ghost use Rattle.tk_rings.specs.Capacities.{IsFitting};
ghost use Rattle.tk_rings.specs.LoadedRings.{cities_in, demands_in};
ghost use Rattle.tk_ring_search.specs.Drawing.{AreDraws};

use crate::kicks::kick::Kick;
use rand_core::Rng;
use tk_rings::{Capacity, LoadedRing};
use tk_tour::{TourStore, UndoStore};

/// The maximum number of draws for one kick.
const DRAWS: u32 = 1_000;

/// A kick after which a ring fits, and how many kicks were drawn.
#[derive(Clone, Copy)]
pub struct Drawn {
    /// The last kick drawn, or `None` if the ring would not fit after any of them.
    pub kick: Option<Kick>,
    /// The number of kicks drawn, at most 1,000.
    pub draws: u32,
}

/// Draws kicks of a ring that fits until it also fits after one, at most 1,000 of them. Of a ring of fewer than 8
/// elements it draws none.
pub fn draw_fitting<S: UndoStore, R: Rng>(
    ring: &LoadedRing<'_, S>,
    vehicles: &Capacity<'_>,
    rng: &mut R,
) -> Drawn
    requires suits { demands_in ring.now ≡ vehicles.now.demands.now }
    requires fits { IsFitting vehicles.now.capacity vehicles.now.demands.now (cities_in ring.now) }
    ensures { AreDraws vehicles.now.capacity vehicles.now.demands.now (cities_in ring.now) (R.stream rng.old)
        result (R.stream rng.new) }
{
    let n = ring.size();
    let most = if n < 8 { 0 } else { DRAWS };
    for draws in 0..most {
        let kick = Kick::draw(rng, n);
        if kick.fits(ring, vehicles) {
            return Drawn {
                kick: Some(kick),
                draws: draws + 1,
            };
        }
    }
    Drawn {
        kick: None,
        draws: most,
    }
}
