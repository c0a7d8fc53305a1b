//! Parts of the sequence are reversed, and the sequence is rotated.
ghost use Rattle.std.specs.Prelude.{◌≡◌, ◌≤◌, ◌<◌, ◌+◌, ◌-◌, ◌*◌, ℕ, List, length, map, reverse, sum_by, vec_len};
ghost use Rattle.std.specs.List.{All};
ghost use Rattle.std.specs.Vec.{vec_capacity};
ghost use Rattle.tk_problem.specs.declared.limits.TheConstants.{CITY_LIMIT};
ghost use Rattle.tk_tour.specs.Reversal.{begun_at, reversed_places};
ghost use Rattle.tk_segments.specs.Segments.{AreLaidOut, CanBeFound, HaveNames, SameBefore, Shows, StayFound, placed};
ghost use Rattle.tk_segments.specs.Segments.{segment_size, size_before, turned_segment};

use crate::segment::Segment;
use crate::splitting::cut_segments;

// Reverses the order of the segments, and the direction of each.
fn turn_round(segments: &mut [Segment])
    ensures { segments.new ≡ map turned_segment (reverse segments.old) }
{
    segments.reverse();
    for k in 0..segments.len() {
        segments[k].back = !segments[k].back;
    }
}

// Sets the starts of the segments in the sequence, one after another from v on.
fn place_segments(segments: &mut [Segment], v: u32)
    requires sizes { All (λ r. r.low ≤ r.high) segments.old }
    requires fits { v + sum_by segment_size segments.old ≤ CITY_LIMIT }
    ensures { segments.new ≡ placed v segments.old }
{
    let mut v = v;
    for k in 0..segments.len() {
        let segment = segments[k];
        segments[k].start = v;
        v += segment.high - segment.low;
    }
}

// Reverses what the segments from index i to j - 1 show, which begins at position `first` of the sequence.
fn turn_segments(segments: &mut [Segment], size: u32, i: usize, j: usize, first: u32)
    requires range { (i ≤ j) × (j ≤ length segments.old) }
    requires size { size ≤ CITY_LIMIT }
    requires laid { AreLaidOut size segments.old }
    requires first { first ≡ size_before i segments.old }
    ensures shown { Shows size (reversed_places first (size_before j segments.old - first)) segments.old segments.new }
    ensures laid { AreLaidOut size segments.new }
    ensures same_length { length segments.new ≡ length segments.old }
    ensures names { HaveNames segments.old → HaveNames segments.new }
    ensures same { SameBefore i segments.old segments.new }
    ensures found { (table : List ℕ) → CanBeFound size 32 segments.old table → CanBeFound size 32 segments.new table }
{
    let part = &mut segments[i..j];
    turn_round(part);
    place_segments(part, first);
}

/// Reverses the positions of the sequence from `first` to `last - 1`. Returns an index before which no segment has
/// changed.
pub fn turn_seen(
    segments: &mut Vec<Segment>,
    table: &mut [u32],
    size: u32,
    first: u32,
    last: u32,
) -> usize
    requires size { size ≤ CITY_LIMIT }
    requires many { vec_len segments.old < CITY_LIMIT }
    requires laid { AreLaidOut size segments.old.items }
    requires buckets { size ≤ 32 * length table.old }
    requires range { (first < last) × (last ≤ size) }
    requires room { vec_len segments.old + 2 ≤ vec_capacity segments.old }
    ensures shown { Shows size (reversed_places first (last - first)) segments.old.items segments.new.items }
    ensures kept { StayFound size 32 segments.old.items segments.new.items table.old table.new }
    ensures more { (vec_len segments.old ≤ vec_len segments.new) × (vec_len segments.new ≤ vec_len segments.old + 2) }
    ensures capacity { vec_capacity segments.new ≡ vec_capacity segments.old }
    ensures same { SameBefore result segments.old.items segments.new.items }
{
    let i = cut_segments(segments, table, size, first);
    let j = cut_segments(segments, table, size, last);
    turn_segments(segments, size, i, j, first);
    i.saturating_sub(1)
}

/// Reverses the sequence from position `first` to the end.
pub fn turn_rest(segments: &mut Vec<Segment>, table: &mut [u32], size: u32, first: u32)
    requires size { size ≤ CITY_LIMIT }
    requires many { vec_len segments.old ≤ CITY_LIMIT }
    requires laid { AreLaidOut size segments.old.items }
    requires buckets { size ≤ 32 * length table.old }
    requires first_in { first < size }
    requires room { vec_len segments.old < vec_capacity segments.old }
    ensures shown { Shows size (reversed_places first (size - first)) segments.old.items segments.new.items }
    ensures kept { StayFound size 32 segments.old.items segments.new.items table.old table.new }
    ensures more { (vec_len segments.old ≤ vec_len segments.new) × (vec_len segments.new ≤ vec_len segments.old + 1) }
    ensures capacity { vec_capacity segments.new ≡ vec_capacity segments.old }
{
    let i = cut_segments(segments, table, size, first);
    let j = segments.len();
    turn_segments(segments, size, i, j, first);
}

/// Rotates the sequence to begin with the k-th segment.
pub fn begin_segment(segments: &mut [Segment], size: u32, k: usize)
    requires index { k ≤ length segments.old }
    requires size { size ≤ CITY_LIMIT }
    requires laid { AreLaidOut size segments.old }
    ensures shown { Shows size (begun_at (size_before k segments.old)) segments.old segments.new }
    ensures laid { AreLaidOut size segments.new }
    ensures same_length { length segments.new ≡ length segments.old }
    ensures names { HaveNames segments.old → HaveNames segments.new }
    ensures found { (table : List ℕ) → CanBeFound size 32 segments.old table → CanBeFound size 32 segments.new table }
{
    segments.rotate_left(k);
    place_segments(segments, 0);
}

/// Rotates the sequence to begin at position v.
pub fn begin_seen(segments: &mut Vec<Segment>, table: &mut [u32], size: u32, v: u32)
    requires size { size ≤ CITY_LIMIT }
    requires many { vec_len segments.old ≤ CITY_LIMIT }
    requires laid { AreLaidOut size segments.old.items }
    requires buckets { size ≤ 32 * length table.old }
    requires v_in { v ≤ size }
    requires room { vec_len segments.old < vec_capacity segments.old }
    ensures shown { Shows size (begun_at v) segments.old.items segments.new.items }
    ensures kept { StayFound size 32 segments.old.items segments.new.items table.old table.new }
    ensures more { (vec_len segments.old ≤ vec_len segments.new) × (vec_len segments.new ≤ vec_len segments.old + 1) }
    ensures capacity { vec_capacity segments.new ≡ vec_capacity segments.old }
{
    let k = cut_segments(segments, table, size, v);
    begin_segment(segments, size, k);
}
