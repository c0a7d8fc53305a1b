//! The segments in the order of the sequence, and how the segment of an array position is found.
ghost use Rattle.std.specs.Prelude.{◌≡◌, ◌≤◌, ◌<◌, ◌+◌, ◌-◌, ◌*◌, ℕ, List, IfOk, false, length, vec_len};
ghost use Rattle.std.specs.Vec.{vec_capacity};
ghost use Rattle.tk_problem.specs.declared.limits.TheConstants.{CITY_LIMIT};
ghost use Rattle.tk_tour.specs.Reversal.{begun_at, reversed_places};
ghost use Rattle.tk_segments.specs.Segments.{AreFound, AreLaidOut, AreNamed, IsAfterPlace, IsSpot, Shows, shown};

use crate::joining::{join_segments, parted_at};
use crate::naming::name_segments;
use crate::segment::Segment;
use crate::spots::{Spot, after, before, neighbours, spot_at, spot_of};
use crate::turning::{begin_seen, turn_rest, turn_seen};
use std::alloc::{AllocError, Global};

// One segment with all array positions, read forwards.
fn whole(size: u32) -> Segment
    ensures { (result.low ≡ 0) × (result.high ≡ size) × (result.start ≡ 0) × (result.id ≡ 0) × (result.next ≡ 0)
        × (result.back ≡ false) }
{
    Segment {
        low: 0,
        high: size,
        start: 0,
        id: 0,
        next: 0,
        back: false,
    }
}

/// At most `most` segments of an array of `size` positions, in the order of the sequence. `home` has the index of each
/// id. `table` has an id for each bucket of 32 array positions: that of the segment with the first of them.
#[derive(Drop)]
pub struct Segments {
    pub segments: Vec<Segment>,
    home: Vec<u32>,
    table: Vec<u32>,
    pub size: u32,
    pub most: u32,
    ghost laid: { AreLaidOut size segments.items },
    ghost named: { AreNamed segments.items home.items },
    ghost found: { AreFound size 32 segments.items home.items table.items },
    ghost room: { most ≤ vec_capacity segments },
    ghost few: { vec_len segments ≤ most },
    ghost homes: { length home.items ≡ most },
    ghost buckets: { size ≤ 32 * length table.items },
    ghost limits: { (0 < size) × (size ≤ CITY_LIMIT) × (0 < most) × (most ≤ CITY_LIMIT) },
}

impl Segments {
    /// One segment, which reads the whole array forwards.
    ///
    /// # Errors
    /// `AllocError` if memory runs out.
    pub fn new(alloc: Global, size: u32, most: u32) -> Result<Segments, AllocError>
        requires size { (0 < size) × (size ≤ CITY_LIMIT) }
        requires most { (0 < most) × (most ≤ CITY_LIMIT) }
        ensures shown { IfOk result
            (λ r. (order : List ℕ) → length order ≡ size → shown order r.segments.items ≡ order) }
        ensures one { IfOk result (λ r. vec_len r.segments ≡ 1) }
        ensures limits { IfOk result (λ r. (r.size ≡ size) × (r.most ≡ most)) }
    {
        let mut segments = Vec::with_capacity(alloc, most as usize)?;
        segments.push_reserved(whole(size));
        let home = vec![in alloc; 0u32; most as usize]?;
        let table = vec![in alloc; 0u32; size.div_ceil(32) as usize]?;
        Ok(Segments {
            segments,
            home,
            table,
            size,
            most,
        })
    }

    /// Makes it one segment again, which reads the whole array forwards.
    pub fn reset(&mut self)
        ensures shown { (order : List ℕ) → length order ≡ self.old.size → shown order self.new.segments.items ≡ order }
        ensures one { vec_len self.new.segments ≡ 1 }
        ensures limits { (self.new.size ≡ self.old.size) × (self.new.most ≡ self.old.most) }
    {
        self.segments.clear();
        self.segments.push_reserved(whole(self.size));
        self.home[0] = 0;
        self.table.fill(0);
    }

    /// The spot of an array position, and its position in the sequence.
    pub fn spot_of(&self, place: u32) -> (Spot, u32)
        requires { place < self.now.size }
        ensures spot { IsSpot self.now.segments.items result.1 result.0 }
        ensures place { result.0.place ≡ place }
        ensures inside { result.1 < self.now.size }
    {
        spot_of(&self.segments, &self.home, &self.table, self.size, place)
    }

    /// The spot at position v of the sequence.
    pub fn spot_at(&self, v: u32) -> Spot
        requires { v < self.now.size }
        ensures { IsSpot self.now.segments.items v result }
    {
        spot_at(&self.segments, self.size, v)
    }

    /// The spot after a spot, on the cycle.
    pub fn after(&self, spot: Spot) -> Spot
        requires spot { (v : ℕ) × (IsSpot self.now.segments.items v spot) }
        ensures { (v w : ℕ) → IsSpot self.now.segments.items v spot → IsAfterPlace self.now.size v w
            → IsSpot self.now.segments.items w result }
    {
        after(&self.segments, self.size, spot)
    }

    /// The spot before a spot, on the cycle.
    pub fn before(&self, spot: Spot) -> Spot
        requires spot { (v : ℕ) × (IsSpot self.now.segments.items v spot) }
        ensures { (v w : ℕ) → IsSpot self.now.segments.items w spot → IsAfterPlace self.now.size v w
            → IsSpot self.now.segments.items v result }
    {
        before(&self.segments, self.size, spot)
    }

    /// The spots after and before a spot, on the cycle.
    pub fn neighbours(&self, spot: Spot) -> (Spot, Spot)
        requires spot { (v : ℕ) × (IsSpot self.now.segments.items v spot) }
        ensures after { (v w : ℕ) → IsSpot self.now.segments.items v spot → IsAfterPlace self.now.size v w
            → IsSpot self.now.segments.items w result.0 }
        ensures before { (v w : ℕ) → IsSpot self.now.segments.items w spot → IsAfterPlace self.now.size v w
            → IsSpot self.now.segments.items v result.1 }
    {
        neighbours(&self.segments, self.size, spot)
    }

    /// Reverses the positions of the sequence from `first` to `last - 1`.
    pub fn turn(&mut self, first: u32, last: u32)
        requires range { (first < last) × (last ≤ self.old.size) }
        requires room { vec_len self.old.segments + 2 ≤ self.old.most }
        ensures shown { Shows self.old.size (reversed_places first (last - first))
            self.old.segments.items self.new.segments.items }
        ensures more { vec_len self.new.segments ≤ vec_len self.old.segments + 2 }
        ensures limits { (self.new.size ≡ self.old.size) × (self.new.most ≡ self.old.most) }
    {
        let k = turn_seen(&mut self.segments, &mut self.table, self.size, first, last);
        name_segments(&self.segments, &mut self.home, k);
    }

    /// Rotates the sequence to begin at position v, and then reverses it from position `first` to the end.
    pub fn begin_and_turn(&mut self, v: u32, first: u32)
        requires v_in { v < self.old.size }
        requires range { first < self.old.size }
        requires room { vec_len self.old.segments + 2 ≤ self.old.most }
        ensures shown { Shows self.old.size (λ xs. reversed_places first (self.old.size - first) (begun_at v xs))
            self.old.segments.items self.new.segments.items }
        ensures more { vec_len self.new.segments ≤ vec_len self.old.segments + 2 }
        ensures limits { (self.new.size ≡ self.old.size) × (self.new.most ≡ self.old.most) }
    {
        begin_seen(&mut self.segments, &mut self.table, self.size, v);
        turn_rest(&mut self.segments, &mut self.table, self.size, first);
        name_segments(&self.segments, &mut self.home, 0);
    }

    /// Joins the segment with the highest id to the one from which it was split, if they are neighbours on the cycle,
    /// read in the same direction. Returns the old position in the sequence of what is first in it now.
    pub fn join(&mut self) -> u32
        ensures first { result < self.old.size }
        ensures shown { Shows self.old.size (begun_at result) self.old.segments.items self.new.segments.items }
        ensures fewer { (1 ≤ vec_len self.new.segments) × (vec_len self.new.segments ≤ vec_len self.old.segments) }
        ensures limits { (self.new.size ≡ self.old.size) × (self.new.most ≡ self.old.most) }
    {
        let Some(k) = parted_at(&self.segments, &self.home, self.size) else {
            return 0;
        };
        let (first, named) = join_segments(&mut self.segments, &mut self.table, self.size, k);
        name_segments(&self.segments, &mut self.home, named);
        first
    }
}
