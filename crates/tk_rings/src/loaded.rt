//! Rings with sums along them, by which the load of each path is known at once.
ghost use Rattle.std.specs.Prelude.{◌≡◌, ℕ, ◌≤◌, ◌<◌, ◌+◌, ◌*◌, ◌^◌, ◌↔◌, IfOk, IsTrue, true, false, length};
ghost use Rattle.tk_tour.specs.Counters.{saturated};
ghost use Rattle.tk_tour.specs.JournalTours.{cities_of};
ghost use Rattle.tk_tour.specs.Tour.{IsSizedTour};
ghost use Rattle.tk_rings.specs.Sums.{AreSumsAlong, IsAhead, IsSpan, IsSpanBack};
ghost use Rattle.tk_rings.specs.Loads.{HasLoads};
ghost use Rattle.tk_rings.specs.Walking.{AreEndsIn};
ghost use Rattle.tk_rings.specs.declared.stretch.Stretch.{Stretch};

use crate::sums::Sums;
use crate::walk::Walk;
use std::alloc::{AllocError, Global};
use tk_tour::{Flip, JournalTour, Neighbourhood, TourStore, UndoStore};

/// A ring of customers and copies of the depot that is changed by flips, which can be undone, together with sums of the
/// demands along it. By these, the load of each path is known at once. The elements 1, 2, .. of the ring are the
/// customers; the others are copies of the depot.
#[derive(Drop)]
pub struct LoadedRing<'a, S: UndoStore> {
    ring: JournalTour<S>,
    demands: &'a [u32],
    sums: Sums,
    ghost along: { AreSumsAlong demands.now (cities_of ring) sums },
}

impl<'a, S: UndoStore> TourStore for LoadedRing<'a, S> {
    ghost use Rattle.tk_rings.specs.LoadedRings.{cities_in, swaps_in, flips_in, KeepsLoaded, KeepsLoaded-refl};
    ghost use Rattle.tk_rings.specs.LoadedRings.{KeepsLoaded-trans};

    ghost cities = { cities_in };

    ghost swap_count = { swaps_in };

    ghost flip_count = { flips_in };

    ghost FlipsOnly = { KeepsLoaded };

    fn size(&self) -> u32 {
        self.ring.size()
    }

    fn next(&self, c: u32) -> u32 {
        self.ring.next(c)
    }

    fn prev(&self, c: u32) -> u32 {
        self.ring.prev(c)
    }

    fn neighbours(&self, c: u32) -> (u32, u32) {
        self.ring.neighbours(c)
    }

    fn neighbourhood(&self, c: u32) -> Neighbourhood {
        self.ring.neighbourhood(c)
    }

    fn at(&self, k: u32) -> u32 {
        self.ring.at(k)
    }

    fn position(&self, c: u32) -> u32 {
        self.ring.position(c)
    }

    fn swaps(&self) -> u64 {
        self.ring.swaps()
    }

    fn flips(&self) -> u64 {
        self.ring.flips()
    }

    fn flip(&mut self, a: u32, b: u32, c: u32, d: u32) -> Flip {
        let n = self.ring.size();
        let flip = self.ring.flip(a, b, c, d);
        let from = flip.first - 1;
        let to = from + flip.count;
        if to <= n {
            self.sums.fill(&self.ring, self.demands, from, to);
        } else {
            self.sums.fill(&self.ring, self.demands, 0, n);
        }
        flip
    }

    ghost flips_none = { KeepsLoaded-refl S.counts_fit };

    ghost flips_more = { KeepsLoaded-trans };

    ghost is_tour = { λ s. S.is_tour s.ring.tour };
}

impl<'a, S: UndoStore> LoadedRing<'a, S> {
    ghost use Rattle.tk_rings.specs.LoadedRings.{ring_in, demands_in, cities_in};
    ghost use Rattle.tk_tour.specs.JournalTours.{tour_of, swaps_of, undo_swaps_of, flips_of, copied_of};
    ghost use Rattle.tk_tour.specs.JournalTours.{SameFlips, IsLost, slots_of, flips_since, settled_order};
    ghost use Rattle.tk_tour.specs.JournalTours.{swaps_to_rewind};

    /// A ring, settled, with all counters at 0, with a journal that has room for `slots` flips, and with the demands of
    /// the customers.
    ///
    /// # Errors
    /// `AllocError` if memory runs out; the ring is dropped then.
    pub fn new(
        alloc: Global,
        ring: S,
        slots: u32,
        demands: &'a [u32],
    ) -> Result<LoadedRing<'a, S>, AllocError>
        ensures order { IfOk result (λ t. cities_in t ≡ S.cities ring) }
        ensures settled { IfOk result (λ t. settled_order (ring_in t) ≡ S.cities ring) }
        ensures demands { IfOk result (λ t. demands_in t ≡ demands.entry.now) }
        ensures swaps { IfOk result (λ t. swaps_to_rewind (ring_in t) ≡ 0) }
        ensures slots { IfOk result (λ t. slots_of (ring_in t) ≡ slots) }
        ensures flips { IfOk result (λ t. flips_since (ring_in t) ≡ 0) }
        ensures counts { IfOk result (λ t. (swaps_of (ring_in t) ≡ 0) × (undo_swaps_of (ring_in t) ≡ 0)
            × (flips_of (ring_in t) ≡ 0) × (copied_of (ring_in t) ≡ 0)) }
    {
        let n = ring.size();
        let ring = JournalTour::new(alloc, ring, slots)?;
        let mut sums = Sums::new(alloc, n)?;
        sums.fill(&ring, demands, 0, n);
        Ok(LoadedRing {
            ring,
            demands,
            sums,
        })
    }

    /// The ring in its current order. Its swaps counted for undone flips are at most those counted for flips.
    pub fn tour(&self) -> &S
        ensures tour { result.now ≡ tour_of (ring_in self.now) }
        ensures undo_swaps { S.undo_count result.now ≤ S.swap_count result.now }
    {
        self.ring.tour()
    }

    /// Whether the journal has overflowed since the ring was last settled.
    pub fn lost(&self) -> bool
        ensures { IsTrue result ↔ IsLost (ring_in self.now) }
    {
        self.ring.lost()
    }

    /// Makes the current order the one that `rewind` restores.
    pub fn settle(&mut self)
        ensures tour { tour_of (ring_in self.new) ≡ tour_of (ring_in self.old) }
        ensures settled { settled_order (ring_in self.new) ≡ cities_in self.old }
        ensures swaps { swaps_to_rewind (ring_in self.new) ≡ 0 }
        ensures flips { flips_since (ring_in self.new) ≡ 0 }
        ensures slots { slots_of (ring_in self.new) ≡ slots_of (ring_in self.old) }
        ensures demands { demands_in self.new ≡ demands_in self.old }
    {
        self.ring.settle();
    }

    /// Undoes the flips since the ring was last settled, and returns `true`. If the journal has overflowed since then,
    /// changes nothing and returns `false`.
    pub fn rewind(&mut self) -> bool
        ensures lost { IsTrue result ↔ (flips_since (ring_in self.old) ≤ slots_of (ring_in self.old)) }
        ensures order { IsTrue result → cities_in self.new ≡ settled_order (ring_in self.old) }
        ensures settled { IsTrue result → settled_order (ring_in self.new) ≡ settled_order (ring_in self.old) }
        ensures flips { IsTrue result → flips_since (ring_in self.new) ≡ 0 }
        ensures undo_swaps { IsTrue result → undo_swaps_of (ring_in self.new)
            ≡ saturated (undo_swaps_of (ring_in self.old) + swaps_to_rewind (ring_in self.old)) }
        ensures rewound { IsTrue result → swaps_to_rewind (ring_in self.new) ≡ 0 }
        ensures counts { (swaps_of (ring_in self.new) ≡ swaps_of (ring_in self.old))
            × (flips_of (ring_in self.new) ≡ flips_of (ring_in self.old))
            × (copied_of (ring_in self.new) ≡ copied_of (ring_in self.old)) }
        ensures slots { slots_of (ring_in self.new) ≡ slots_of (ring_in self.old) }
        ensures demands { demands_in self.new ≡ demands_in self.old }
        ensures unchanged { result ≡ false → self.new ≡ self.old }
    {
        if self.lost() {
            return false;
        }
        let n = self.ring.size();
        let is_rewound = self.ring.rewind();
        self.sums.fill(&self.ring, self.demands, 0, n);
        is_rewound
    }

    /// Takes over the order of a list of the same elements, and settles it.
    pub fn take_order(&mut self, elements: &[u32])
        requires tour { IsSizedTour elements.now }
        requires size { length (cities_in self.old) ≡ length elements.now }
        ensures order { cities_in self.new ≡ elements.now }
        ensures settled { settled_order (ring_in self.new) ≡ elements.now }
        ensures swaps { swaps_to_rewind (ring_in self.new) ≡ 0 }
        ensures flips { flips_since (ring_in self.new) ≡ 0 }
        ensures copied { copied_of (ring_in self.new)
            ≡ saturated (copied_of (ring_in self.old) + length elements.now) }
        ensures others { SameFlips (ring_in self.old) (ring_in self.new) }
        ensures slots { slots_of (ring_in self.new) ≡ slots_of (ring_in self.old) }
        ensures demands { demands_in self.new ≡ demands_in self.old }
    {
        self.ring.take_order(elements);
        self.sums
            .fill(&self.ring, self.demands, 0, self.ring.size());
    }

    /// The load of the positions p to q before the first copy of the depot, or of all of them if there is none, and
    /// whether there is one. Positions are counted from 0.
    #[inline]
    fn span(&self, p: u32, q: u32) -> (u64, bool)
        requires { (p ≤ q) × (q < length (cities_in self.now)) }
        ensures { IsSpan (demands_in self.now) (cities_in self.now) p q result.0 result.1 }
    {
        let Sums {
            loads,
            counts,
            copies,
        } = &self.sums;
        let (start, end) = (p as usize, q as usize + 1);
        let first = counts[start];
        if first < counts[end] {
            (loads[copies[first as usize] as usize] - loads[start], true)
        } else {
            (loads[end] - loads[start], false)
        }
    }

    /// The load of the positions p to q behind the last copy of the depot, or of all of them if there is none, and
    /// whether there is one. Positions are counted from 0.
    #[inline]
    fn span_back(&self, p: u32, q: u32) -> (u64, bool)
        requires { (p ≤ q) × (q < length (cities_in self.now)) }
        ensures { IsSpanBack (demands_in self.now) (cities_in self.now) p q result.0 result.1 }
    {
        let Sums {
            loads,
            counts,
            copies,
        } = &self.sums;
        let (start, end) = (p as usize, q as usize + 1);
        let next = counts[end];
        if counts[start] < next {
            (
                loads[end] - loads[copies[next as usize - 1] as usize + 1],
                true,
            )
        } else {
            (loads[end] - loads[start], false)
        }
    }

    /// The load on the walk forward from a position to another, as `ahead` returns it. Positions are counted from 0.
    #[inline]
    fn ahead_forward(&self, from: u32, to: u32) -> (u64, bool)
        requires { (from < length (cities_in self.now)) × (to < length (cities_in self.now)) }
        ensures ahead { IsAhead (demands_in self.now) (cities_in self.now) true from to result.0 result.1 }
        ensures light { result.0 ≤ 2 ^ 32 * 100000 }
    {
        if from <= to {
            return self.span(from, to);
        }
        let (load, parted) = self.span(from, self.ring.size() - 1);
        if parted {
            return (load, true);
        }
        let (more, parted) = self.span(0, to);
        (load + more, parted)
    }

    /// The load on the walk backward from a position to another, as `ahead` returns it. Positions are counted from 0.
    #[inline]
    fn ahead_backward(&self, from: u32, to: u32) -> (u64, bool)
        requires { (from < length (cities_in self.now)) × (to < length (cities_in self.now)) }
        ensures ahead { IsAhead (demands_in self.now) (cities_in self.now) false from to result.0 result.1 }
        ensures light { result.0 ≤ 2 ^ 32 * 100000 }
    {
        if to <= from {
            return self.span_back(to, from);
        }
        let (load, parted) = self.span_back(0, from);
        if parted {
            return (load, true);
        }
        let (more, parted) = self.span_back(to, self.ring.size() - 1);
        (load + more, parted)
    }

    /// The load on a walk before its first copy of the depot, or on all of it if it has none, and whether it has one.
    #[inline]
    pub(crate) fn ahead(&self, walk: Walk) -> (u64, bool)
        requires { AreEndsIn (length (cities_in self.now)) walk }
        ensures load { (q : ℕ) (s : Stretch) → HasLoads q (demands_in self.now) (cities_in self.now) walk s
            → (s.head ≡ result.0) × (s.parted ≡ result.1) }
        ensures light { result.0 ≤ 2 ^ 32 * 100000 }
    {
        let (from, to) = (
            self.ring.position(walk.from) - 1,
            self.ring.position(walk.to) - 1,
        );
        if walk.forward {
            self.ahead_forward(from, to)
        } else {
            self.ahead_backward(from, to)
        }
    }
}
