//! The sequence is written to a list.
ghost use Rattle.std.specs.Prelude.{◌≡◌, ◌≤◌, ◌<◌, ◌+◌, ◌-◌, ◌++◌, length, drop, take};
ghost use Rattle.tk_problem.specs.declared.limits.TheConstants.{CITY_LIMIT};
ghost use Rattle.tk_tour.specs.Reversal.{begun_at};
ghost use Rattle.tk_segments.specs.Segments.{AreLaidOut, IsWithin, shown, shown_by, segment_size};

use crate::segment::{Segment, parts_of};

// Writes what a segment shows to a list, from position `from` on.
fn write_segment(order: &[u32], segment: Segment, from: u32, list: &mut [u32])
    requires within { IsWithin (length order.now) segment }
    requires fits { from + segment_size segment ≤ length list.old }
    requires small { length list.old ≤ CITY_LIMIT }
    ensures { list.new ≡ take from list.old ++ (shown_by order.now segment ++ drop (from + segment_size segment)
        list.old) }
{
    let end = from + (segment.high - segment.low);
    let part = &mut list[from as usize..end as usize];
    part.copy_from_slice(&order[segment.low as usize..segment.high as usize]);
    if segment.back {
        part.reverse();
    }
}

// Writes what a segment shows to its positions in a list of the whole sequence, rotated to begin at position `begin`.
fn write_segment_begun(order: &[u32], segment: Segment, size: u32, begin: u32, list: &mut [u32])
    requires size { size ≤ CITY_LIMIT }
    requires length { length order.now ≡ size }
    requires within { IsWithin size segment }
    requires fits { segment.start + segment_size segment ≤ size }
    requires begin { begin < size }
    requires list { length list.old ≡ size }
    ensures { begun_at (size - begin) list.new ≡ take segment.start (begun_at (size - begin) list.old)
        ++ (shown_by order.now segment ++ drop (segment.start + segment_size segment)
        (begun_at (size - begin) list.old)) }
{
    let before = size - begin;
    if segment.start + (segment.high - segment.low) <= begin {
        write_segment(order, segment, segment.start + before, list);
    } else if begin <= segment.start {
        write_segment(order, segment, segment.start - begin, list);
    } else {
        let (one, two) = parts_of(segment, begin - segment.start, 0);
        write_segment(order, one, one.start + before, list);
        write_segment(order, two, 0, list);
    }
}

/// Writes the sequence to a list, rotated to begin at position `begin`.
pub fn write_seen(order: &[u32], segments: &[Segment], size: u32, begin: u32, list: &mut [u32])
    requires size { size ≤ CITY_LIMIT }
    requires length { length order.now ≡ size }
    requires laid { AreLaidOut size segments.now }
    requires begin { begin < size }
    requires list { length list.old ≡ size }
    ensures { list.new ≡ begun_at begin (shown order.now segments.now) }
{
    for k in 0..segments.len() {
        write_segment_begun(order, segments[k], size, begin, list);
    }
}
