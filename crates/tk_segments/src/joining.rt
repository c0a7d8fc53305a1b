//! Segments that were split are joined again.
ghost use Rattle.std.specs.Prelude.{◌≡◌, ◌≤◌, ◌<◌, ◌+◌, ◌*◌, ◌∷◌, ◌++◌, ℕ, List, length, take, drop, vec_len};
ghost use Rattle.std.specs.List.{All};
ghost use Rattle.std.specs.Option.{IfSome};
ghost use Rattle.std.specs.Vec.{vec_capacity};
ghost use Rattle.tk_problem.specs.declared.limits.TheConstants.{CITY_LIMIT};
ghost use Rattle.tk_tour.specs.Reversal.{begun_at};
ghost use Rattle.tk_segments.specs.Segments.{AreLaidOut, CanBeFound, HaveNames, IsWithin, SameBefore, Shows, shown};
ghost use Rattle.tk_segments.specs.declared.segment.Segment.{Segment};

use crate::naming::note_segment;
use crate::segment::{Segment, joined};
use crate::turning::begin_segment;

/// The index of the first of two segments that can be joined, or `None`. They are neighbours on the cycle and the two
/// parts of one segment, and the part with the higher array positions has the highest id.
pub fn parted_at(segments: &[Segment], home: &[u32], size: u32) -> Option<usize>
    requires some { 0 < length segments.now }
    requires many { length segments.now ≤ CITY_LIMIT }
    requires homes { length segments.now ≤ length home.now }
    requires within { All (IsWithin size) segments.now }
    ensures { IfSome result (λ k. (1 < length segments.now) × (k < length segments.now)) }
{
    let last = segments.len() - 1;
    let newest = home[last] as usize;
    if last == 0 || newest > last {
        return None;
    }
    let k = if segments[newest].back {
        newest
    } else if newest == 0 {
        last
    } else {
        newest - 1
    };
    let next = if k == last { 0 } else { k + 1 };
    joined(segments[k], segments[next], last as u32)?;
    Some(k)
}

// Replaces the k-th segment and the next one by one segment.
fn put_joined(segments: &mut Vec<Segment>, k: usize, segment: Segment)
    requires index { k + 1 < vec_len segments.old }
    ensures items { segments.new.items ≡ take k segments.old.items ++ segment ∷ drop (k + 2) segments.old.items }
    ensures len { vec_len segments.new + 1 ≡ vec_len segments.old }
    ensures capacity { vec_capacity segments.new ≡ vec_capacity segments.old }
{
    segments[k] = segment;
    segments.remove(k + 1);
}

// Joins the k-th segment and the next one if they are the two parts of one segment and one of them has the highest id.
// Otherwise, does nothing.
fn join_parts(segments: &mut Vec<Segment>, table: &mut [u32], size: u32, k: usize)
    requires size { size ≤ CITY_LIMIT }
    requires many { vec_len segments.old ≤ CITY_LIMIT }
    requires laid { AreLaidOut size segments.old.items }
    requires buckets { size ≤ 32 * length table.old }
    requires index { k + 1 < vec_len segments.old }
    ensures shown { (order : List ℕ) → shown order segments.new.items ≡ shown order segments.old.items }
    ensures laid { AreLaidOut size segments.new.items }
    ensures fewer { (1 ≤ vec_len segments.new) × (vec_len segments.new ≤ vec_len segments.old) }
    ensures capacity { vec_capacity segments.new ≡ vec_capacity segments.old }
    ensures names { HaveNames segments.old.items → HaveNames segments.new.items }
    ensures same { SameBefore k segments.old.items segments.new.items }
    ensures found { HaveNames segments.old.items → CanBeFound size 32 segments.old.items table.old
        → CanBeFound size 32 segments.new.items table.new }
    ensures table { length table.new ≡ length table.old }
{
    let newest = segments.len() as u32 - 1;
    let Some(segment) = joined(segments[k], segments[k + 1], newest) else {
        return;
    };
    put_joined(segments, k, segment);
    note_segment(table, segment);
}

/// Joins the k-th segment and the next one on the cycle, under the condition of `join_parts`. Returns the old position
/// in the sequence of what is first in it now, and how many of the first segments have kept their ids.
pub fn join_segments(
    segments: &mut Vec<Segment>,
    table: &mut [u32],
    size: u32,
    k: usize,
) -> (u32, usize)
    requires size { size ≤ CITY_LIMIT }
    requires many { (1 < vec_len segments.old) × (vec_len segments.old ≤ CITY_LIMIT) }
    requires laid { AreLaidOut size segments.old.items }
    requires buckets { size ≤ 32 * length table.old }
    requires index { k < vec_len segments.old }
    ensures first { result.0 < size }
    ensures shown { Shows size (begun_at result.0) segments.old.items segments.new.items }
    ensures laid { AreLaidOut size segments.new.items }
    ensures fewer { (1 ≤ vec_len segments.new) × (vec_len segments.new ≤ vec_len segments.old) }
    ensures capacity { vec_capacity segments.new ≡ vec_capacity segments.old }
    ensures names { HaveNames segments.old.items → HaveNames segments.new.items }
    ensures same { SameBefore result.1 segments.old.items segments.new.items }
    ensures found { HaveNames segments.old.items → CanBeFound size 32 segments.old.items table.old
        → CanBeFound size 32 segments.new.items table.new }
    ensures table { length table.new ≡ length table.old }
{
    if k + 1 < segments.len() {
        join_parts(segments, table, size, k);
        return (0, k);
    }
    let first = segments[k].start;
    begin_segment(segments, size, k);
    join_parts(segments, table, size, 0);
    (first, 0)
}
