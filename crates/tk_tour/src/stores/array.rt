//! A tour as an array: the order of its cities and the position of each.
ghost use Rattle.std.specs.Prelude.{◌≡◌, ◌≤◌, ◌<◌, ◌+◌, ◌-◌, ◌*◌, ◌/◌, ◌^◌, ℕ, List, length};
ghost use Rattle.tk_distance.specs.Cities.{IsCity};
ghost use Rattle.tk_tour.specs.Tour.{IsSizedTour};
ghost use Rattle.tk_tour.specs.Reversal.{IsInverse, reversed_places};
ghost use Rattle.tk_tour.specs.Counters.{saturated};

use crate::fault::TourFault;
use crate::sides::{Positions, shorter_side};
use crate::store::{Flip, TourStore};
use crate::stores::placing::place_each;
use crate::stores::reversal::reverse_places;
use crate::undo::UndoStore;
use crate::verdict::{Verdict, place_cities};
use std::alloc::{AllocError, Global};
use tk_problem::CITY_LIMIT;

/// A tour of 2 to 100,000 cities, as the list of its cities and the position of each.
#[derive(Drop)]
pub struct ArrayTour {
    order: Vec<u32>,
    place: Vec<u32>,
    swaps: u64,
    undo_swaps: u64,
    flips: u64,
    copied: u64,
    ghost tour: { IsSizedTour order.items },
    ghost inverse: { IsInverse order.items place.items },
    ghost fits: { (swaps < 2 ^ 64) × (undo_swaps < 2 ^ 64) × (flips < 2 ^ 64) },
}

impl Positions for ArrayTour {
    ghost use Rattle.tk_tour.specs.ArrayTours.{order_of};

    ghost cities = { order_of };

    fn city_count(&self) -> u32 {
        self.order.len() as u32
    }

    fn city_after(&self, c: u32) -> u32 {
        let k = self.place_of(c) as usize;
        if k + 1 == self.order.len() {
            self.order[0]
        } else {
            self.order[k + 1]
        }
    }

    fn place_of(&self, c: u32) -> u32 {
        self.place[c as usize - 1]
    }

    ghost is_tour = { λ s. s.tour };
}

impl TourStore for ArrayTour {
    ghost use Rattle.tk_tour.specs.ArrayTours.{order_of, swaps_of, flips_of, FlipsAlone, FlipsAlone-refl};
    ghost use Rattle.tk_tour.specs.ArrayTours.{FlipsAlone-trans};
    ghost use Rattle.tk_tour.specs.Moves.{BeginsInside, CanFlip, IsShorterSide, ReplacesSteps, TwoOptMove};

    ghost cities = { order_of };

    ghost swap_count = { swaps_of };

    ghost flip_count = { flips_of };

    ghost FlipsOnly = { FlipsAlone };

    fn size(&self) -> u32 {
        self.city_count()
    }

    fn next(&self, c: u32) -> u32 {
        self.city_after(c)
    }

    fn prev(&self, c: u32) -> u32 {
        let k = self.place_of(c) as usize;
        if k == 0 {
            self.order[self.order.len() - 1]
        } else {
            self.order[k - 1]
        }
    }

    fn at(&self, k: u32) -> u32 {
        self.order[k as usize - 1]
    }

    fn position(&self, c: u32) -> u32 {
        self.place_of(c) + 1
    }

    fn swaps(&self) -> u64 {
        self.swaps
    }

    fn flips(&self) -> u64 {
        self.flips
    }

    // the clauses of the trait, and `inner`: of two equally long sides, it reverses the inner one
    fn flip(&mut self, a: u32, b: u32, c: u32, d: u32) -> Flip
        requires { CanFlip (order_of self.old) a b c d }
        ensures made { TwoOptMove (order_of self.old) (order_of self.new) a b c d }
        ensures steps { ReplacesSteps (order_of self.old) (order_of self.new) a b c d }
        ensures places { order_of self.new ≡ reversed_places (result.first - 1) result.count (order_of self.old) }
        ensures undone { reversed_places (result.first - 1) result.count (order_of self.new) ≡ order_of self.old }
        ensures first { IsCity (length (order_of self.old)) result.first }
        ensures side { IsShorterSide (order_of self.old) result.count a b c d }
        ensures shorter { 2 * result.count ≤ length (order_of self.old) }
        ensures inner { 2 * result.count ≡ length (order_of self.old)
            → BeginsInside (order_of self.old) (result.first - 1) a b c }
        ensures swaps { swaps_of self.new ≡ saturated (swaps_of self.old + result.count / 2) }
        ensures rises { swaps_of self.old ≤ swaps_of self.new }
        ensures flips { flips_of self.new ≡ saturated (flips_of self.old + 1) }
        ensures size { length (order_of self.new) ≡ length (order_of self.old) }
        ensures kept { FlipsAlone self.old self.new }
    {
        let (first, count) = shorter_side(self, a, b, c, d);
        self.reverse(first as usize, count as usize);
        self.swaps = self.swaps.saturating_add(count as u64 / 2);
        self.flips = self.flips.saturating_add(1);
        Flip {
            first: first + 1,
            count,
        }
    }

    ghost flips_none = { FlipsAlone-refl };

    ghost flips_more = { FlipsAlone-trans };

    ghost is_tour = { λ s. s.tour };
}

impl UndoStore for ArrayTour {
    ghost use Rattle.tk_tour.specs.ArrayTours.{undo_swaps_of, copied_of, FlipsAlone-kept, ArrayTour-fits};

    ghost undo_count = { undo_swaps_of };

    ghost copy_count = { copied_of };

    fn undo(&mut self, flip: &Flip) {
        ArrayTour::undo(self, flip);
    }

    fn take_order(&mut self, cities: &[u32]) {
        self.order.copy_from_slice(cities);
        place_each(&self.order, &mut self.place);
        self.copied = self.copied.saturating_add(cities.len() as u64);
    }

    fn write_order(&self, cities: &mut [u32]) {
        cities.copy_from_slice(&self.order);
    }

    fn undo_swaps(&self) -> u64 {
        ArrayTour::undo_swaps(self)
    }

    fn copied(&self) -> u64 {
        ArrayTour::copied(self)
    }

    fn reset_counts(&mut self) {
        self.swaps = 0;
        self.undo_swaps = 0;
        self.flips = 0;
        self.copied = 0;
    }

    ghost flips_keep = { FlipsAlone-kept };

    ghost counts_fit = { ArrayTour-fits };
}

impl ArrayTour {
    ghost use Rattle.std.specs.Prelude.{OnOk, IfOk, IfErr};
    ghost use Rattle.tk_tour.specs.ArrayTours.{order_of, swaps_of, undo_swaps_of, flips_of, copied_of, SameFlips};
    ghost use Rattle.tk_tour.specs.Fault.{HasTourFault};
    ghost use Rattle.tk_tour.specs.Printed.{IsPrintedForm};

    /// A tour in the order of the list, with all counters at 0.
    ///
    /// # Errors
    /// `WrongCount` for fewer than 2 cities or more than 100,000; then `NoMemory` if memory runs out; then the first
    /// fault of the list, position by position, at each of them `OutOfRange` before `RepeatedCity`.
    pub fn from_list(alloc: Global, cities: &[u32]) -> Result<ArrayTour, TourFault>
        ensures tour { OnOk result (IsSizedTour cities.now) }
        ensures order { IfOk result (λ t. order_of t ≡ cities.now) }
        ensures counts { IfOk result (λ t. (swaps_of t ≡ 0) × (undo_swaps_of t ≡ 0) × (flips_of t ≡ 0)
            × (copied_of t ≡ 0)) }
        ensures fault { IfErr result (λ e. HasTourFault cities.now e) }
    {
        let n = cities.len();
        if n < 2 || n > CITY_LIMIT as usize {
            return Err(TourFault::WrongCount);
        }
        let Ok(order) = Vec::from_slice(alloc, cities) else {
            return Err(TourFault::NoMemory);
        };
        let Ok(mut place) = vec![in alloc; u32::MAX; n] else {
            return Err(TourFault::NoMemory);
        };
        match place_cities(cities, &mut place) {
            Verdict::Tour => Ok(ArrayTour {
                order,
                place,
                swaps: 0,
                undo_swaps: 0,
                flips: 0,
                copied: 0,
            }),
            Verdict::WrongCount => Err(TourFault::WrongCount),
            Verdict::OutOfRange(p) => Err(TourFault::OutOfRange(p)),
            Verdict::RepeatedCity(p) => Err(TourFault::RepeatedCity(p)),
        }
    }

    // Reverses `count` positions from `first` on, counted from 0 and modulo the number of cities.
    fn reverse(&mut self, first: usize, count: usize)
        requires first { first < length self.old.order.items }
        requires count { count ≤ length self.old.order.items }
        ensures order { self.new.order.items ≡ reversed_places first count self.old.order.items }
        ensures counts { (self.new.swaps ≡ self.old.swaps) × (self.new.undo_swaps ≡ self.old.undo_swaps)
            × (self.new.flips ≡ self.old.flips) × (self.new.copied ≡ self.old.copied) }
    {
        reverse_places(&mut self.order, &mut self.place, first, count);
    }

    /// Reverses the positions of a flip again, which undoes it if it was the last one. The swaps are counted apart from
    /// those of flips.
    pub fn undo(&mut self, flip: &Flip)
        requires first { IsCity (length (order_of self.old)) flip.now.first }
        requires count { flip.now.count ≤ length (order_of self.old) }
        ensures places { order_of self.new ≡ reversed_places (flip.now.first - 1) flip.now.count (order_of self.old) }
        ensures undo_swaps { undo_swaps_of self.new ≡ saturated (undo_swaps_of self.old + flip.now.count / 2) }
        ensures others { (swaps_of self.new ≡ swaps_of self.old) × (flips_of self.new ≡ flips_of self.old)
            × (copied_of self.new ≡ copied_of self.old) }
    {
        self.reverse(flip.first as usize - 1, flip.count as usize);
        self.undo_swaps = self.undo_swaps.saturating_add(flip.count as u64 / 2);
    }

    /// The cities in their order.
    pub fn order(&self) -> &[u32]
        ensures { result.now ≡ order_of self.now }
    {
        self.order.as_slice()
    }

    /// The number of swaps counted for undone flips.
    pub fn undo_swaps(&self) -> u64
        ensures { result ≡ undo_swaps_of self.now }
    {
        self.undo_swaps
    }

    /// The number of cities that were copied into the tour.
    pub fn copied(&self) -> u64
        ensures { result ≡ copied_of self.now }
    {
        self.copied
    }

    /// Takes over the order of another tour with the same number of cities.
    pub fn copy_from(&mut self, other: &ArrayTour)
        requires { length (order_of self.old) ≡ length (order_of other.now) }
        ensures order { order_of self.new ≡ order_of other.now }
        ensures copied { copied_of self.new ≡ saturated (copied_of self.old + length (order_of self.old)) }
        ensures others { SameFlips self.old self.new }
    {
        self.order.copy_from_slice(&other.order);
        self.place.copy_from_slice(&other.place);
        self.copied = self.copied.saturating_add(other.order.len() as u64);
    }

    /// The canonical form of the cycle: it begins with city 1 and the smaller of its two neighbours.
    ///
    /// # Errors
    /// `AllocError` if memory runs out.
    pub fn canonical(&self, alloc: Global) -> Result<Vec<u32>, AllocError>
        ensures printed { IfOk result (λ cities. IsPrintedForm (order_of self.now) cities.items) }
        ensures only { IfOk result (λ cities. (list : List ℕ) → IsPrintedForm (order_of self.now) list
            → list ≡ cities.items) }
    {
        let mut cities = Vec::from_slice(alloc, &self.order)?;
        let mut first = self.place_of(1) as usize;
        if self.prev(1) < self.next(1) {
            cities.reverse();
            first = cities.len() - 1 - first;
        }
        cities.rotate_left(first);
        Ok(cities)
    }
}
