//! Tours whose flips can be undone.
ghost use Rattle.std.specs.Prelude.{◌≡◌, ◌≤◌, ◌<◌, ◌+◌, ◌-◌, ◌*◌, ◌/◌, ◌^◌, ℕ, length};
ghost use Rattle.tk_distance.specs.Cities.{IsCity};
ghost use Rattle.tk_tour.specs.Counters.{saturated};
ghost use Rattle.tk_tour.specs.Reversal.{reversed_places};
ghost use Rattle.tk_tour.specs.Tour.{IsSizedTour};

use crate::store::{Flip, TourStore};

/// A tour store that can undo its flips and take over the order of a list. It counts the swaps of undone flips and the
/// cities that were copied, along with its flips and their swaps.
pub trait UndoStore: TourStore + Drop {
    /// The number of swaps counted for undone flips.
    ghost undo_count: { Self → ℕ };

    /// The number of cities that were copied into the tour.
    ghost copy_count: { Self → ℕ };

    /// Reverses the positions of a flip again, which undoes it if it was the last one. The swaps are counted apart from
    /// those of flips.
    fn undo(&mut self, flip: &Flip)
        requires first { IsCity (length (Self.cities self.old)) flip.now.first }
        requires count { 2 * flip.now.count ≤ length (Self.cities self.old) }
        ensures places { Self.cities self.new
            ≡ reversed_places (flip.now.first - 1) flip.now.count (Self.cities self.old) }
        ensures undo_swaps { undo_count self.new ≡ saturated (undo_count self.old + flip.now.count / 2) }
        ensures others { (Self.swap_count self.new ≡ Self.swap_count self.old)
            × (Self.flip_count self.new ≡ Self.flip_count self.old) × (copy_count self.new ≡ copy_count self.old) };

    /// Takes over the order of a list of the same cities.
    fn take_order(&mut self, cities: &[u32])
        requires tour { IsSizedTour cities.now }
        requires size { length cities.now ≡ length (Self.cities self.old) }
        ensures order { Self.cities self.new ≡ cities.now }
        ensures copied { copy_count self.new ≡ saturated (copy_count self.old + length cities.now) }
        ensures others { (Self.swap_count self.new ≡ Self.swap_count self.old)
            × (Self.flip_count self.new ≡ Self.flip_count self.old) × (undo_count self.new ≡ undo_count self.old) };

    /// Writes the cities to a list of the same length, in their order.
    fn write_order(&self, cities: &mut [u32])
        requires size { length cities.old ≡ length (Self.cities self.now) }
        ensures order { cities.new ≡ Self.cities self.now };

    /// The number of swaps counted for undone flips.
    fn undo_swaps(&self) -> u64
        ensures { result ≡ undo_count self.now };

    /// The number of cities that were copied into the tour.
    fn copied(&self) -> u64
        ensures { result ≡ copy_count self.now };

    /// Resets all counters to 0.
    fn reset_counts(&mut self)
        ensures order { Self.cities self.new ≡ Self.cities self.old }
        ensures counts { (Self.swap_count self.new ≡ 0) × (undo_count self.new ≡ 0) × (Self.flip_count self.new ≡ 0)
            × (copy_count self.new ≡ 0) };

    ghost flips_keep: { (s t : Self) → Self.FlipsOnly s t → (undo_count t ≡ undo_count s)
        × (copy_count t ≡ copy_count s) };

    ghost counts_fit: { (s : Self) → (Self.swap_count s < 2 ^ 64) × (Self.flip_count s < 2 ^ 64)
        × (undo_count s < 2 ^ 64) };
}
