//! A tour store in an array that is divided into segments.
ghost use Rattle.std.specs.Prelude.{◌≡◌, ◌≤◌, ◌<◌, ◌+◌, ◌-◌, ◌*◌, ◌/◌, ◌^◌, OnOk, IfOk, IfErr, length};
ghost use Rattle.tk_segments.specs.SeenTours.{list_of, room_of, segment_count_of};
ghost use Rattle.tk_segments.specs.Writes.{AreEnough, ArePaid};
ghost use Rattle.tk_segments.specs.declared.tour.TheConstants.{MOST};
ghost use Rattle.tk_problem.specs.declared.limits.TheConstants.{CITY_LIMIT};
ghost use Rattle.tk_tour.specs.Fault.{HasTourFault, IsTourSize};
ghost use Rattle.tk_tour.specs.Reversal.{IsInverse};
ghost use Rattle.tk_tour.specs.Tour.{IsSizedTour};

use crate::seen::SeenTour;
use crate::segments::Segments;
use std::alloc::Global;
use tk_problem::CITY_LIMIT;
use tk_tour::{
    Flip, Neighbourhood, Positions, TourFault, TourStore, UndoStore, Verdict, place_cities,
    shorter_side,
};

/// Maximum number of segments.
pub const MOST: u32 = 250;

// The maximum number of positions whose reversal swaps cities, in a tour of n cities.
fn short_for(n: u32) -> u32
    requires size { n ≤ CITY_LIMIT }
    ensures limits { AreEnough n result MOST }
{
    (n / 124).max(499) + 1
}

// The position of each city in the list, counted from 0, or the fault of the list.
fn places_of(alloc: Global, cities: &[u32]) -> Result<Vec<u32>, TourFault>
    requires size { IsTourSize (length cities.now) }
    ensures tour { OnOk result (IsSizedTour cities.now) }
    ensures inverse { IfOk result (λ place. IsInverse cities.now place.items) }
    ensures fault { IfErr result (λ e. HasTourFault cities.now e) }
{
    let Ok(mut place) = vec![in alloc; u32::MAX; cities.len()] else {
        return Err(TourFault::NoMemory);
    };
    match place_cities(cities, &mut place) {
        Verdict::Tour => Ok(place),
        Verdict::WrongCount => Err(TourFault::WrongCount),
        Verdict::OutOfRange(p) => Err(TourFault::OutOfRange(p)),
        Verdict::RepeatedCity(p) => Err(TourFault::RepeatedCity(p)),
    }
}

/// A tour of 2 to 100,000 cities: an array divided into a bounded number of segments, each read forwards or backwards.
#[derive(Drop)]
pub struct SegmentTour {
    seen: SeenTour,
    swaps: u64,
    undo_swaps: u64,
    flips: u64,
    copied: u64,
    writes: u64,
    ghost paid: { ArePaid (length (list_of seen)) (room_of seen) writes (segment_count_of seen) (swaps + undo_swaps) },
    ghost fits: { (swaps < 2 ^ 64) × (undo_swaps < 2 ^ 64) × (flips < 2 ^ 64) },
    ghost writes_fit: { writes < 2 ^ 64 },
}

impl TourStore for SegmentTour {
    ghost use Rattle.tk_segments.specs.SegmentTours.{seen_order, seen_swaps, seen_flips, SeenFlips, SeenFlips-refl};
    ghost use Rattle.tk_segments.specs.SegmentTours.{SeenFlips-trans};

    ghost cities = { seen_order };

    ghost swap_count = { seen_swaps };

    ghost flip_count = { seen_flips };

    ghost FlipsOnly = { SeenFlips };

    fn size(&self) -> u32 {
        self.seen.size()
    }

    fn next(&self, c: u32) -> u32 {
        self.seen.next(c)
    }

    fn prev(&self, c: u32) -> u32 {
        self.seen.prev(c)
    }

    fn neighbours(&self, c: u32) -> (u32, u32) {
        self.seen.neighbours(c)
    }

    fn neighbourhood(&self, c: u32) -> Neighbourhood {
        self.seen.neighbourhood(c)
    }

    fn at(&self, k: u32) -> u32 {
        self.seen.at(k - 1)
    }

    fn position(&self, c: u32) -> u32 {
        self.seen.place_of(c) + 1
    }

    fn swaps(&self) -> u64 {
        self.swaps
    }

    fn flips(&self) -> u64 {
        self.flips
    }

    fn flip(&mut self, a: u32, b: u32, c: u32, d: u32) -> Flip {
        let (first, count) = shorter_side(&self.seen, a, b, c, d);
        self.reverse(first, count);
        self.flips = self.flips.saturating_add(1);
        Flip {
            first: first + 1,
            count,
        }
    }

    ghost flips_none = { SeenFlips-refl };

    ghost flips_more = { SeenFlips-trans };

    ghost is_tour = { λ s. s.seen.tour };
}

impl UndoStore for SegmentTour {
    ghost use Rattle.tk_segments.specs.SegmentTours.{seen_order, seen_swaps, seen_undo_swaps, seen_flips, seen_copied};
    ghost use Rattle.tk_segments.specs.SegmentTours.{writes_of, write_cost, seen_array, most_of, SeenFlips-kept};
    ghost use Rattle.tk_segments.specs.SegmentTours.{SegmentTour-fits};
    ghost use Rattle.tk_distance.specs.Cities.{IsCity};
    ghost use Rattle.tk_tour.specs.Reversal.{reversed_places};
    ghost use Rattle.tk_tour.specs.Counters.{saturated};
    ghost use Rattle.tk_segments.specs.Writes.{changed};

    ghost undo_count = { seen_undo_swaps };

    ghost copy_count = { seen_copied };

    fn undo(&mut self, flip: &Flip)
        requires first { IsCity (length (seen_order self.old)) flip.now.first }
        requires count { 2 * flip.now.count ≤ length (seen_order self.old) }
        ensures places { seen_order self.new
            ≡ reversed_places (flip.now.first - 1) flip.now.count (seen_order self.old) }
        ensures undo_swaps { seen_undo_swaps self.new ≡ saturated (seen_undo_swaps self.old + flip.now.count / 2) }
        ensures others { (seen_swaps self.new ≡ seen_swaps self.old) × (seen_flips self.new ≡ seen_flips self.old)
            × (seen_copied self.new ≡ seen_copied self.old) }
        ensures writes { writes_of self.new ≡ saturated (writes_of self.old + write_cost self.old flip.now.count) }
        ensures written { changed (seen_array self.old) (seen_array self.new) ≤ write_cost self.old flip.now.count }
        ensures most { most_of self.new ≡ most_of self.old }
    {
        let written = self.seen.undo(flip.first - 1, flip.count);
        self.writes = self.writes.saturating_add(written);
        self.undo_swaps = self.undo_swaps.saturating_add(flip.count as u64 / 2);
    }

    fn take_order(&mut self, cities: &[u32])
        requires tour { IsSizedTour cities.now }
        requires size { length cities.now ≡ length (seen_order self.old) }
        ensures order { seen_order self.new ≡ cities.now }
        ensures copied { seen_copied self.new ≡ saturated (seen_copied self.old + length cities.now) }
        ensures others { (seen_swaps self.new ≡ seen_swaps self.old) × (seen_flips self.new ≡ seen_flips self.old)
            × (seen_undo_swaps self.new ≡ seen_undo_swaps self.old) }
        ensures writes { writes_of self.new ≡ writes_of self.old }
        ensures most { most_of self.new ≡ most_of self.old }
    {
        self.seen.take_order(cities);
        self.copied = self.copied.saturating_add(cities.len() as u64);
    }

    fn write_order(&self, cities: &mut [u32]) {
        self.seen.write_order(cities);
    }

    fn undo_swaps(&self) -> u64 {
        self.undo_swaps
    }

    fn copied(&self) -> u64 {
        self.copied
    }

    fn reset_counts(&mut self)
        ensures order { seen_order self.new ≡ seen_order self.old }
        ensures counts { (seen_swaps self.new ≡ 0) × (seen_undo_swaps self.new ≡ 0) × (seen_flips self.new ≡ 0)
            × (seen_copied self.new ≡ 0) }
        ensures writes { writes_of self.new ≡ 0 }
        ensures most { most_of self.new ≡ most_of self.old }
    {
        self.seen.rewrite();
        self.swaps = 0;
        self.undo_swaps = 0;
        self.flips = 0;
        self.copied = 0;
        self.writes = 0;
    }

    ghost flips_keep = { SeenFlips-kept };

    ghost counts_fit = { SegmentTour-fits };
}

impl SegmentTour {
    ghost use Rattle.tk_segments.specs.SegmentTours.{seen_order, seen_swaps, seen_undo_swaps, seen_flips, seen_copied};
    ghost use Rattle.tk_segments.specs.SegmentTours.{writes_of, write_cost, seen_array, segments_of, most_of};
    ghost use Rattle.tk_tour.specs.Reversal.{reversed_places};
    ghost use Rattle.tk_tour.specs.Counters.{saturated};
    ghost use Rattle.tk_segments.specs.Writes.{changed};

    /// A tour in the order of the list, with all counters at 0, and with limits that suit its size.
    ///
    /// # Errors
    /// `WrongCount` for fewer than 2 cities or more than 100,000, otherwise the first fault of the list, position by
    /// position: `OutOfRange` before `RepeatedCity`. `NoMemory` if memory runs out.
    pub fn from_list(alloc: Global, cities: &[u32]) -> Result<SegmentTour, TourFault>
        ensures tour { OnOk result (IsSizedTour cities.now) }
        ensures order { IfOk result (λ t. seen_order t ≡ cities.now) }
        ensures counts { IfOk result (λ t. (seen_swaps t ≡ 0) × (seen_undo_swaps t ≡ 0) × (seen_flips t ≡ 0)
            × (seen_copied t ≡ 0) × (writes_of t ≡ 0)) }
        ensures segments { IfOk result (λ t. (segments_of t ≡ 1) × (most_of t ≤ MOST)) }
        ensures fault { IfErr result (λ e. HasTourFault cities.now e) }
    {
        let n = cities.len();
        if n > CITY_LIMIT as usize {
            return Err(TourFault::WrongCount);
        }
        SegmentTour::with_limits(alloc, cities, short_for(n as u32), MOST)
    }

    /// A tour in the order of the list, with all counters at 0. It has at most `most` segments, and reversals of more
    /// than `short` positions reverse segments.
    ///
    /// # Errors
    /// `WrongCount` for fewer than 2 cities or more than 100,000, otherwise the first fault of the list, position by
    /// position: `OutOfRange` before `RepeatedCity`. `NoMemory` if memory runs out.
    pub fn with_limits(
        alloc: Global,
        cities: &[u32],
        short: u32,
        most: u32,
    ) -> Result<SegmentTour, TourFault>
        requires limits { AreEnough (length cities.now) short most }
        requires most { most ≤ CITY_LIMIT }
        ensures tour { OnOk result (IsSizedTour cities.now) }
        ensures order { IfOk result (λ t. seen_order t ≡ cities.now) }
        ensures counts { IfOk result (λ t. (seen_swaps t ≡ 0) × (seen_undo_swaps t ≡ 0) × (seen_flips t ≡ 0)
            × (seen_copied t ≡ 0) × (writes_of t ≡ 0)) }
        ensures segments { IfOk result (λ t. (segments_of t ≡ 1) × (most_of t ≡ most)) }
        ensures fault { IfErr result (λ e. HasTourFault cities.now e) }
    {
        let n = cities.len();
        if n < 2 || n > CITY_LIMIT as usize {
            return Err(TourFault::WrongCount);
        }
        let Ok(order) = Vec::from_slice(alloc, cities) else {
            return Err(TourFault::NoMemory);
        };
        let Ok(spare) = vec![in alloc; 0u32; n] else {
            return Err(TourFault::NoMemory);
        };
        let Ok(segments) = Segments::new(alloc, n as u32, most) else {
            return Err(TourFault::NoMemory);
        };
        let place = places_of(alloc, cities)?;
        Ok(SegmentTour {
            seen: SeenTour::new(order, place, spare, segments, short),
            swaps: 0,
            undo_swaps: 0,
            flips: 0,
            copied: 0,
            writes: 0,
        })
    }

    // Reverses `count` positions of the list, from position `first` (counted from 0) on, and counts the swaps and the
    // writes.
    fn reverse(&mut self, first: u32, count: u32)
        requires first { first < length (seen_order self.old) }
        requires count { 2 * count ≤ length (seen_order self.old) }
        ensures order { seen_order self.new ≡ reversed_places first count (seen_order self.old) }
        ensures swaps { seen_swaps self.new ≡ saturated (seen_swaps self.old + count / 2) }
        ensures writes { writes_of self.new ≡ saturated (writes_of self.old + write_cost self.old count) }
        ensures written { changed (seen_array self.old) (seen_array self.new) ≤ write_cost self.old count }
        ensures size { length (seen_array self.new) ≡ length (seen_array self.old) }
        ensures others { (seen_flips self.new ≡ seen_flips self.old)
            × (seen_undo_swaps self.new ≡ seen_undo_swaps self.old)
            × (seen_copied self.new ≡ seen_copied self.old) × (most_of self.new ≡ most_of self.old) }
    {
        let written = self.seen.reverse(first, count);
        self.writes = self.writes.saturating_add(written);
        self.swaps = self.swaps.saturating_add(count as u64 / 2);
    }

    /// How many array positions have been written since the counters were last reset, to make and undo flips and to
    /// rewrite the whole array for them: at most two for each swap. The cities that `take_order` copies are counted by
    /// `copied` instead.
    pub fn writes(&self) -> u64
        ensures count { result ≡ writes_of self.now }
        ensures paid { result ≤ 2 * (seen_swaps self.now + seen_undo_swaps self.now) }
    {
        self.writes
    }

    /// The number of segments. A flip splits, reverses or visits at most as many segments as the tour can have.
    pub fn segments(&self) -> usize
        ensures count { result ≡ segments_of self.now }
        ensures few { (1 ≤ result) × (result ≤ most_of self.now) }
    {
        self.seen.segment_count()
    }
}
