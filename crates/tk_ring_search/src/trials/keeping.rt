//! The end of a trial.
ghost use Rattle.std.specs.Prelude.{◌≡◌, ◌≤◌, length};
ghost use Rattle.tk_tour.specs.JournalTours.{settled_order, slots_of};
ghost use Rattle.tk_rings.specs.LoadedRings.{cities_in, demands_in, flips_in, ring_in, swaps_in};
ghost use Rattle.tk_ring_search.specs.Best.{best_of};
ghost use Rattle.tk_ring_search.specs.Judging.{Settles};
ghost use Rattle.tk_ring_search.specs.declared.trials.judging.Outcome.TheVariants.{Undone};

use crate::trials::best::Best;
use crate::trials::judging::Outcome;
use tk_rings::LoadedRing;
use tk_tour::UndoStore;

/// Ends a trial by its outcome: copies a better ring to the best, undoes the trial, or copies the best ring back. The
/// ring is settled then.
pub(crate) fn settle<S: UndoStore>(ring: &mut LoadedRing<'_, S>, best: &mut Best, outcome: Outcome)
    requires size { length (cities_in ring.old) ≡ length (best_of best.old) }
    requires room { outcome ≡ Undone → flips_in ring.old ≤ slots_of (ring_in ring.old) }
    ensures settles { Settles outcome (settled_order (ring_in ring.old)) (cities_in ring.old) (best_of best.old)
        (cities_in ring.new) (best_of best.new) }
    ensures settled { (settled_order (ring_in ring.new) ≡ cities_in ring.new) × (flips_in ring.new ≡ 0) }
    ensures demands { demands_in ring.new ≡ demands_in ring.old }
    ensures same { (swaps_in ring.new ≡ swaps_in ring.old)
        × (slots_of (ring_in ring.new) ≡ slots_of (ring_in ring.old)) }
{
    match outcome {
        Outcome::Idle | Outcome::Kept => ring.settle(),
        Outcome::Better => {
            best.take(ring.tour());
            ring.settle();
        }
        Outcome::Undone => {
            let _ = ring.rewind();
        }
        Outcome::Restored => ring.take_order(best.elements()),
    }
}
