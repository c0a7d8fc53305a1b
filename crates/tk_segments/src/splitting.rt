//! Segments are split, so that one begins at a given position of the sequence.
ghost use Rattle.std.specs.Prelude.{◌≡◌, ◌≤◌, ◌<◌, ◌+◌, ◌-◌, ◌*◌, ℕ, List, true, false, length, slice_index_or};
ghost use Rattle.std.specs.Prelude.{vec_len};
ghost use Rattle.std.specs.List.{insert};
ghost use Rattle.std.specs.Vec.{vec_capacity};
ghost use Rattle.tk_problem.specs.declared.limits.TheConstants.{CITY_LIMIT};
ghost use Rattle.tk_segments.specs.Segments.{AreLaidOut, IsSplit, IsWithin, SameBefore, StayFound};
ghost use Rattle.tk_segments.specs.Segments.{segment_size, shown, size_before};
ghost use Rattle.tk_segments.specs.declared.segment.Segment.{Segment};

use crate::naming::note_segment;
use crate::segment::{Segment, parts_of};
use crate::spots::index_at;

// Inserts a segment before the k-th one.
fn insert_segment(segments: &mut Vec<Segment>, k: usize, segment: Segment)
    requires index { k ≤ vec_len segments.old }
    requires room { vec_len segments.old < vec_capacity segments.old }
    ensures items { segments.new.items ≡ insert segments.old.items k segment }
    ensures capacity { vec_capacity segments.new ≡ vec_capacity segments.old }
{
    segments.push_reserved(segment);
    segments[k..].rotate_right(1);
}

// Splits the k-th segment in two; the second part begins d positions after the first.
fn split_segment(segments: &mut Vec<Segment>, k: usize, d: u32)
    requires index { k < vec_len segments.old }
    requires room { vec_len segments.old < vec_capacity segments.old }
    requires many { vec_len segments.old ≤ CITY_LIMIT }
    requires inside { (segment : Segment) → segment ≡ slice_index_or segments.old.items k segment
        → (0 < d) × (d < segment_size segment) × (segment.start + d ≤ CITY_LIMIT) }
    ensures split { IsSplit segments.old.items segments.new.items k d }
    ensures capacity { vec_capacity segments.new ≡ vec_capacity segments.old }
{
    let segment = segments[k];
    let (one, two) = parts_of(segment, d, segments.len() as u32);
    segments[k] = one;
    insert_segment(segments, k + 1, two);
}

// The part with the new id, which has the higher array positions, of a segment split into the k-th and the next one.
fn new_part(segments: &[Segment], size: u32, k: usize) -> Segment
    requires laid { AreLaidOut size segments.now }
    requires index { k + 1 < length segments.now }
    ensures behind { (d : Segment) → (slice_index_or segments.now k d).back ≡ true → result ≡ slice_index_or
        segments.now k d }
    ensures ahead { (d : Segment) → (slice_index_or segments.now k d).back ≡ false
        → result ≡ slice_index_or segments.now (k + 1) d }
    ensures within { IsWithin size result }
{
    let segment = segments[k];
    if segment.back {
        segment
    } else {
        segments[k + 1]
    }
}

/// Splits a segment, if necessary, so that one begins at position v of the sequence. Returns the index of that segment,
/// or the number of segments if v is `size`.
pub fn cut_segments(segments: &mut Vec<Segment>, table: &mut [u32], size: u32, v: u32) -> usize
    requires size { size ≤ CITY_LIMIT }
    requires many { vec_len segments.old ≤ CITY_LIMIT }
    requires laid { AreLaidOut size segments.old.items }
    requires buckets { size ≤ 32 * length table.old }
    requires v_in { v ≤ size }
    requires room { vec_len segments.old < vec_capacity segments.old }
    ensures index { result ≤ vec_len segments.new }
    ensures begins { size_before result segments.new.items ≡ v }
    ensures shown { (order : List ℕ) → shown order segments.new.items ≡ shown order segments.old.items }
    ensures kept { StayFound size 32 segments.old.items segments.new.items table.old table.new }
    ensures before { (i : ℕ) → i ≤ vec_len segments.old → size_before i segments.old.items ≤ v
        → size_before i segments.new.items ≡ size_before i segments.old.items }
    ensures more { (vec_len segments.old ≤ vec_len segments.new) × (vec_len segments.new ≤ vec_len segments.old + 1) }
    ensures capacity { vec_capacity segments.new ≡ vec_capacity segments.old }
    ensures same { SameBefore (result - 1) segments.old.items segments.new.items }
{
    if v == size {
        return segments.len();
    }
    let k = index_at(segments, size, v);
    let start = segments[k].start;
    if start == v {
        return k;
    }
    split_segment(segments, k, v - start);
    note_segment(table, new_part(segments, size, k));
    k + 1
}
