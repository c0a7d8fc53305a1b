//! The end of a trial: its result becomes the best tour, or the best tour is restored.
ghost use Rattle.std.specs.Prelude.{◌≡◌, ◌≤◌, ◌<◌, ◌+◌, true, false, length};
ghost use Rattle.tk_tour.specs.Counters.{saturated};
ghost use Rattle.tk_tour.specs.JournalTours.{cities_of, swaps_of, undo_swaps_of, flips_of, copied_of};
ghost use Rattle.tk_tour.specs.JournalTours.{slots_of, flips_since, settled_order, swaps_to_rewind};
ghost use Rattle.tk_search.specs.Best.{best_of, copied_to};
ghost use Rattle.tk_search.specs.Settled.{IsAtBest};

use crate::trials::best::Best;
use tk_tour::{JournalTour, UndoStore};

/// If the tour is better, makes it the best; otherwise restores the best by undoing the flips, or by a copy if the
/// journal has overflowed.
pub(crate) fn keep_better<S: UndoStore>(tour: &mut JournalTour<S>, best: &mut Best, better: bool)
    requires size { length (cities_of tour.old) ≡ length (best_of best.old) }
    requires settled { flips_since tour.old ≤ slots_of tour.old → settled_order tour.old ≡ best_of best.old }
    ensures replaced { better ≡ true → best_of best.new ≡ cities_of tour.old }
    ensures kept { better ≡ false → best_of best.new ≡ best_of best.old }
    ensures at_best { IsAtBest tour.new best.new }
    ensures swaps { swaps_of tour.new ≡ swaps_of tour.old }
    ensures flips { flips_of tour.new ≡ flips_of tour.old }
    ensures slots { slots_of tour.new ≡ slots_of tour.old }
    ensures taken { better ≡ true → (undo_swaps_of tour.new ≡ undo_swaps_of tour.old)
        × (copied_to best.new ≡ saturated (copied_to best.old + length (best_of best.old)))
        × (copied_of tour.new ≡ copied_of tour.old) }
    ensures rewound { better ≡ false → flips_since tour.old ≤ slots_of tour.old
        → (undo_swaps_of tour.new ≡ saturated (undo_swaps_of tour.old + swaps_to_rewind tour.old))
        × (copied_to best.new ≡ copied_to best.old) × (copied_of tour.new ≡ copied_of tour.old) }
    ensures restored { better ≡ false → slots_of tour.old < flips_since tour.old
        → (undo_swaps_of tour.new ≡ undo_swaps_of tour.old)
        × (copied_to best.new ≡ copied_to best.old)
        × (copied_of tour.new ≡ saturated (copied_of tour.old + length (best_of best.old))) }
{
    if better {
        best.take(tour.tour());
        tour.settle();
    } else if !tour.rewind() {
        tour.take_order(best.cities());
    }
}
