//! A tour that can return to the order in which it was settled.
ghost use Rattle.std.specs.Prelude.{◌≡◌, ◌≤◌, ◌<◌, ◌+◌, ◌^◌, ◌↔◌, [], IfOk, ◌++◌, ◌∷◌, IsTrue, true, false, length};
ghost use Rattle.std.specs.Prelude.{vec_len};
ghost use Rattle.std.specs.Vec.{vec_capacity};
ghost use Rattle.tk_tour.specs.Counters.{saturated};
ghost use Rattle.tk_tour.specs.Journal.{AreFlipsOf, swaps_to_undo};
ghost use Rattle.tk_tour.specs.Tour.{IsSizedTour};

use crate::store::{Flip, Neighbourhood, TourStore};
use crate::stores::array::ArrayTour;
use crate::undo::UndoStore;
use std::alloc::{AllocError, Global};

// Records the flip that follows `flips` others, if there is room for it.
fn remember(journal: &mut Vec<Flip>, slots: u32, flips: u64, flip: Flip)
    requires room { slots ≤ vec_capacity journal.old }
    requires within { vec_len journal.old ≤ slots }
    requires complete { flips ≤ slots → vec_len journal.old ≡ flips }
    ensures room { slots ≤ vec_capacity journal.new }
    ensures within { vec_len journal.new ≤ slots }
    ensures complete { flips + 1 ≤ slots → vec_len journal.new ≡ flips + 1 }
    ensures recorded { flips < slots → journal.new.items ≡ journal.old.items ++ flip ∷ [] }
    ensures full { slots ≤ flips → journal.new.items ≡ journal.old.items }
{
    if flips < slots as u64 {
        journal.push_reserved(flip);
    }
}

/// A tour with a journal of its flips since it was last settled, so that they can be undone.
#[derive(Drop)]
pub struct JournalTour<S: UndoStore> {
    tour: S,
    journal: Vec<Flip>,
    slots: u32,
    flips: u64,
    ghost room: { slots ≤ vec_capacity journal },
    ghost within: { vec_len journal ≤ slots },
    ghost complete: { flips ≤ slots → vec_len journal ≡ flips },
    ghost in_range: { AreFlipsOf (length (S.cities tour)) journal.items },
    ghost undoes_its_own: { saturated (S.undo_count tour + swaps_to_undo journal.items) ≤ S.swap_count tour },
    ghost fits: { flips < 2 ^ 64 },
}

impl<S: UndoStore> TourStore for JournalTour<S> {
    ghost use Rattle.tk_tour.specs.JournalTours.{cities_of, swaps_of, flips_since, KeepsSettled, KeepsSettled-refl};
    ghost use Rattle.tk_tour.specs.JournalTours.{KeepsSettled-trans};

    ghost cities = { cities_of };

    ghost swap_count = { swaps_of };

    ghost flip_count = { flips_since };

    ghost FlipsOnly = { KeepsSettled };

    fn size(&self) -> u32 {
        self.tour.size()
    }

    fn next(&self, c: u32) -> u32 {
        self.tour.next(c)
    }

    fn prev(&self, c: u32) -> u32 {
        self.tour.prev(c)
    }

    fn neighbours(&self, c: u32) -> (u32, u32) {
        self.tour.neighbours(c)
    }

    fn neighbourhood(&self, c: u32) -> Neighbourhood {
        self.tour.neighbourhood(c)
    }

    fn at(&self, k: u32) -> u32 {
        self.tour.at(k)
    }

    fn position(&self, c: u32) -> u32 {
        self.tour.position(c)
    }

    fn swaps(&self) -> u64 {
        self.tour.swaps()
    }

    fn flips(&self) -> u64 {
        self.flips
    }

    fn flip(&mut self, a: u32, b: u32, c: u32, d: u32) -> Flip {
        let flip = self.tour.flip(a, b, c, d);
        remember(&mut self.journal, self.slots, self.flips, flip);
        self.flips = self.flips.saturating_add(1);
        flip
    }

    ghost flips_none = { KeepsSettled-refl S.counts_fit };

    ghost flips_more = { KeepsSettled-trans };

    ghost is_tour = { λ s. S.is_tour s.tour };
}

impl<S: UndoStore> JournalTour<S> {
    ghost use Rattle.tk_tour.specs.ArrayTours.{order_of};
    ghost use Rattle.tk_tour.specs.JournalTours.{tour_of, cities_of, swaps_of, undo_swaps_of, flips_of, copied_of};
    ghost use Rattle.tk_tour.specs.JournalTours.{SameFlips, slots_of, flips_since, IsLost, settled_order};
    ghost use Rattle.tk_tour.specs.JournalTours.{swaps_to_rewind};

    /// The tour, settled, with all counters at 0 and with a journal that has room for `slots` flips.
    ///
    /// # Errors
    /// `AllocError` if memory runs out; the tour is dropped then.
    pub fn new(alloc: Global, tour: S, slots: u32) -> Result<JournalTour<S>, AllocError>
        ensures order { IfOk result (λ t. cities_of t ≡ S.cities tour) }
        ensures settled { IfOk result (λ t. settled_order t ≡ S.cities tour) }
        ensures swaps { IfOk result (λ t. swaps_to_rewind t ≡ 0) }
        ensures slots { IfOk result (λ t. slots_of t ≡ slots) }
        ensures flips { IfOk result (λ t. flips_since t ≡ 0) }
        ensures counts { IfOk result (λ t. (swaps_of t ≡ 0) × (undo_swaps_of t ≡ 0) × (flips_of t ≡ 0)
            × (copied_of t ≡ 0)) }
    {
        let mut tour = tour;
        tour.reset_counts();
        let journal = Vec::with_capacity(alloc, slots as usize)?;
        Ok(JournalTour {
            tour,
            journal,
            slots,
            flips: 0,
        })
    }

    /// The tour in its current order. Its swaps counted for undone flips are at most those counted for flips.
    pub fn tour(&self) -> &S
        ensures tour { result.now ≡ tour_of self.now }
        ensures undo_swaps { S.undo_count result.now ≤ S.swap_count result.now }
    {
        &self.tour
    }

    /// Whether the journal has overflowed since the tour was last settled.
    pub fn lost(&self) -> bool
        ensures { IsTrue result ↔ IsLost self.now }
    {
        self.flips > self.slots as u64
    }

    /// Makes the current order the one that `rewind` restores.
    pub fn settle(&mut self)
        ensures tour { tour_of self.new ≡ tour_of self.old }
        ensures settled { settled_order self.new ≡ cities_of self.old }
        ensures swaps { swaps_to_rewind self.new ≡ 0 }
        ensures flips { flips_since self.new ≡ 0 }
        ensures slots { slots_of self.new ≡ slots_of self.old }
    {
        self.journal.clear();
        self.flips = 0;
    }

    /// Undoes the flips since the tour was last settled, and returns `true`. If the journal has overflowed since then,
    /// changes nothing and returns `false`.
    pub fn rewind(&mut self) -> bool
        ensures lost { IsTrue result ↔ (flips_since self.old ≤ slots_of self.old) }
        ensures order { IsTrue result → cities_of self.new ≡ settled_order self.old }
        ensures settled { IsTrue result → settled_order self.new ≡ settled_order self.old }
        ensures flips { IsTrue result → flips_since self.new ≡ 0 }
        ensures undo_swaps { IsTrue result
            → undo_swaps_of self.new ≡ saturated (undo_swaps_of self.old + swaps_to_rewind self.old) }
        ensures rewound { IsTrue result → swaps_to_rewind self.new ≡ 0 }
        ensures counts { (swaps_of self.new ≡ swaps_of self.old) × (flips_of self.new ≡ flips_of self.old)
            × (copied_of self.new ≡ copied_of self.old) }
        ensures slots { slots_of self.new ≡ slots_of self.old }
        ensures unchanged { result ≡ false → self.new ≡ self.old }
    {
        if self.lost() {
            return false;
        }
        while let Some(flip) = self.journal.pop() {
            self.tour.undo(&flip);
            self.flips -= 1;
        }
        true
    }

    /// Takes over the order of another tour with the same number of cities, and settles it.
    pub fn restore(&mut self, other: &ArrayTour)
        requires { length (cities_of self.old) ≡ length (order_of other.now) }
        ensures order { cities_of self.new ≡ order_of other.now }
        ensures settled { settled_order self.new ≡ order_of other.now }
        ensures swaps { swaps_to_rewind self.new ≡ 0 }
        ensures flips { flips_since self.new ≡ 0 }
        ensures copied { copied_of self.new ≡ saturated (copied_of self.old + length (order_of other.now)) }
        ensures others { SameFlips self.old self.new }
        ensures slots { slots_of self.new ≡ slots_of self.old }
    {
        self.take_order(other.order());
    }

    /// Takes over the order of a list of the same cities, and settles it.
    pub fn take_order(&mut self, cities: &[u32])
        requires tour { IsSizedTour cities.now }
        requires size { length (cities_of self.old) ≡ length cities.now }
        ensures order { cities_of self.new ≡ cities.now }
        ensures settled { settled_order self.new ≡ cities.now }
        ensures swaps { swaps_to_rewind self.new ≡ 0 }
        ensures flips { flips_since self.new ≡ 0 }
        ensures copied { copied_of self.new ≡ saturated (copied_of self.old + length cities.now) }
        ensures others { SameFlips self.old self.new }
        ensures slots { slots_of self.new ≡ slots_of self.old }
    {
        self.tour.take_order(cities);
        self.settle();
    }
}
