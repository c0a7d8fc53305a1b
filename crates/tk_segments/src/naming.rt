//! The tables by which segments are found: the index of each id, and an id for each bucket of array positions.
ghost use Rattle.std.specs.Prelude.{◌≡◌, ◌≤◌, ◌*◌, length};
ghost use Rattle.tk_problem.specs.declared.limits.TheConstants.{CITY_LIMIT};
ghost use Rattle.tk_segments.specs.Segments.{AreNamed, AreNamedTo, HaveNames, IsNoted};

use crate::segment::Segment;

// The number of array positions in a bucket, for which the table has one id.
const BUCKET: u32 = 32;

/// Notes the id of the segment in the table, for each bucket that begins in the segment.
pub fn note_segment(table: &mut [u32], segment: Segment)
    requires order { segment.low ≤ segment.high }
    requires fits { segment.high ≤ 32 * length table.old }
    requires small { segment.high ≤ CITY_LIMIT }
    ensures { IsNoted 32 segment table.old table.new }
{
    let first = segment.low.div_ceil(BUCKET);
    let last = segment.high.div_ceil(BUCKET);
    for bucket in first..last {
        table[bucket as usize] = segment.id;
    }
}

/// Updates the index of each id in `home`, for the segments from the k-th on.
pub fn name_segments(segments: &[Segment], home: &mut [u32], k: usize)
    requires many { length segments.now ≤ length home.old }
    requires small { length segments.now ≤ CITY_LIMIT }
    requires names { HaveNames segments.now }
    requires before { AreNamedTo k segments.now home.old }
    ensures named { AreNamed segments.now home.new }
    ensures same_length { length home.new ≡ length home.old }
{
    for index in k..segments.len() {
        home[segments[index].id as usize] = index as u32;
    }
}
