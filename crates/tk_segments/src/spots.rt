//! Spots: an array position together with its segment.
ghost use Rattle.std.specs.Prelude.{◌≡◌, ◌≤◌, ◌<◌, ◌+◌, ◌-◌, ◌*◌, ◌^◌, ℕ, length, slice_index_or};
ghost use Rattle.tk_problem.specs.declared.limits.TheConstants.{CITY_LIMIT};
ghost use Rattle.tk_segments.specs.Segments.{AreLaidOut, AreNamed, CanBeFound, IsAfterPlace, IsSpot, size_before};
ghost use Rattle.tk_segments.specs.declared.segment.Segment.{Segment};

use crate::segment::{Segment, offset_in, place_in};

/// An array position, and the index of the segment that contains it.
#[derive(Clone, Copy, Drop)]
pub struct Spot {
    pub index: usize,
    pub place: u32,
}

impl Spot {
    // The spot of the array position before it.
    fn lower(self) -> Spot
        requires { 0 < self.place }
        ensures { result ≡ record self { place = self.place - 1 } }
    {
        Spot {
            place: self.place - 1,
            ..self
        }
    }

    // The spot of the array position after it.
    fn upper(self) -> Spot
        requires { self.place + 1 < 2 ^ 32 }
        ensures { result ≡ record self { place = self.place + 1 } }
    {
        Spot {
            place: self.place + 1,
            ..self
        }
    }
}

/// The index of the segment with position v of the sequence.
pub fn index_at(segments: &[Segment], size: u32, v: u32) -> usize
    requires laid { AreLaidOut size segments.now }
    requires v_in { v < size }
    ensures index_in { result < length segments.now }
    ensures from { size_before result segments.now ≤ v }
    ensures to { v < size_before (result + 1) segments.now }
{
    let mut low = 0;
    let mut high = segments.len();
    while high - low > 1 {
        let middle = low + (high - low) / 2;
        if segments[middle].start <= v {
            low = middle;
        } else {
            high = middle;
        }
    }
    low
}

/// The spot at position v of the sequence.
pub fn spot_at(segments: &[Segment], size: u32, v: u32) -> Spot
    requires laid { AreLaidOut size segments.now }
    requires v_in { v < size }
    ensures { IsSpot segments.now v result }
{
    let index = index_at(segments, size, v);
    let segment = segments[index];
    Spot {
        index,
        place: place_in(segment, v - segment.start),
    }
}

// The index of the segment that contains an array position.
fn index_of(segments: &[Segment], home: &[u32], table: &[u32], size: u32, place: u32) -> usize
    requires laid { AreLaidOut size segments.now }
    requires named { AreNamed segments.now home.now }
    requires found { CanBeFound size 32 segments.now table.now }
    requires homes { length segments.now ≤ length home.now }
    requires buckets { size ≤ 32 * length table.now }
    requires place_in { place < size }
    ensures index { result < length segments.now }
    ensures holds { (d : Segment) → ((slice_index_or segments.now result d).low ≤ place)
        × (place < (slice_index_or segments.now result d).high) }
{
    let mut index = home[table[place as usize / 32] as usize] as usize;
    while segments[index].high <= place {
        index = home[segments[index].next as usize] as usize;
    }
    index
}

/// The spot of an array position, and its position in the sequence.
pub fn spot_of(
    segments: &[Segment],
    home: &[u32],
    table: &[u32],
    size: u32,
    place: u32,
) -> (Spot, u32)
    requires size { size ≤ CITY_LIMIT }
    requires laid { AreLaidOut size segments.now }
    requires named { AreNamed segments.now home.now }
    requires found { CanBeFound size 32 segments.now table.now }
    requires homes { length segments.now ≤ length home.now }
    requires buckets { size ≤ 32 * length table.now }
    requires place_in { place < size }
    ensures spot { IsSpot segments.now result.1 result.0 }
    ensures place { result.0.place ≡ place }
    ensures inside { result.1 < size }
{
    let index = index_of(segments, home, table, size, place);
    let segment = segments[index];
    (
        Spot { index, place },
        segment.start + offset_in(segment, place),
    )
}

/// The spot after a spot, on the cycle.
pub fn after(segments: &[Segment], size: u32, spot: Spot) -> Spot
    requires size { size ≤ CITY_LIMIT }
    requires laid { AreLaidOut size segments.now }
    requires spot { (v : ℕ) × (IsSpot segments.now v spot) }
    ensures { (v w : ℕ) → IsSpot segments.now v spot → IsAfterPlace size v w → IsSpot segments.now w result }
{
    let segment = segments[spot.index];
    if segment.back {
        if spot.place > segment.low {
            return spot.lower();
        }
    } else if spot.place + 1 < segment.high {
        return spot.upper();
    }
    let index = if spot.index + 1 == segments.len() {
        0
    } else {
        spot.index + 1
    };
    Spot {
        index,
        place: place_in(segments[index], 0),
    }
}

/// The spot before a spot, on the cycle.
pub fn before(segments: &[Segment], size: u32, spot: Spot) -> Spot
    requires size { size ≤ CITY_LIMIT }
    requires laid { AreLaidOut size segments.now }
    requires spot { (v : ℕ) × (IsSpot segments.now v spot) }
    ensures { (v w : ℕ) → IsSpot segments.now w spot → IsAfterPlace size v w → IsSpot segments.now v result }
{
    let segment = segments[spot.index];
    if segment.back {
        if spot.place + 1 < segment.high {
            return spot.upper();
        }
    } else if spot.place > segment.low {
        return spot.lower();
    }
    let index = if spot.index == 0 {
        segments.len() - 1
    } else {
        spot.index - 1
    };
    let segment = segments[index];
    Spot {
        index,
        place: place_in(segment, segment.high - segment.low - 1),
    }
}

/// The spots after and before a spot, on the cycle.
pub fn neighbours(segments: &[Segment], size: u32, spot: Spot) -> (Spot, Spot)
    requires size { size ≤ CITY_LIMIT }
    requires laid { AreLaidOut size segments.now }
    requires spot { (v : ℕ) × (IsSpot segments.now v spot) }
    ensures after { (v w : ℕ) → IsSpot segments.now v spot → IsAfterPlace size v w → IsSpot segments.now w result.0 }
    ensures before { (v w : ℕ) → IsSpot segments.now w spot → IsAfterPlace size v w → IsSpot segments.now v result.1 }
{
    let segment = segments[spot.index];
    if segment.low < spot.place && spot.place + 1 < segment.high {
        let (lower, upper) = (spot.lower(), spot.upper());
        return if segment.back {
            (lower, upper)
        } else {
            (upper, lower)
        };
    }
    (after(segments, size, spot), before(segments, size, spot))
}
