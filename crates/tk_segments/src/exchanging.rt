//! Short reversals: cities are swapped in the array, whatever segments they are in.
ghost use Rattle.std.specs.Prelude.{◌≡◌, ◌≤◌, ◌<◌, ◌+◌, ◌-◌, ◌*◌, ◌/◌, length};
ghost use Rattle.tk_problem.specs.declared.limits.TheConstants.{CITY_LIMIT};
ghost use Rattle.tk_tour.specs.Reversal.{IsInverse, reversed_places};
ghost use Rattle.tk_segments.specs.Segments.{AreLaidOut, shown};
ghost use Rattle.tk_tour.specs.Tour.{IsTour};
ghost use Rattle.tk_segments.specs.Writes.{changed};

use crate::segment::Segment;
use crate::spots::{after, before, spot_at};

// The position after the `count` positions from `first` on, modulo `size`.
fn end_of(size: u32, first: u32, count: u32) -> u32
    requires size { size ≤ CITY_LIMIT }
    requires first_in { first < size }
    requires count_in { count ≤ size }
    ensures within { result < size }
    ensures inside { count < size - first → result ≡ first + count }
    ensures round { size - first ≤ count → result + size ≡ first + count }
{
    if count < size - first {
        first + count
    } else {
        first + count - size
    }
}

/// Reverses `count` positions of the sequence from `first` on, modulo `size`, by `count / 2` swaps of two cities.
pub fn exchange_seen(
    order: &mut [u32],
    place: &mut [u32],
    segments: &[Segment],
    size: u32,
    first: u32,
    count: u32,
)
    requires size { size ≤ CITY_LIMIT }
    requires length { length order.old ≡ size }
    requires laid { AreLaidOut size segments.now }
    requires tour { IsTour size (shown order.old segments.now) }
    requires places { IsInverse order.old place.old }
    requires first_in { first < size }
    requires count_in { count ≤ size }
    ensures shown { shown order.new segments.now ≡ reversed_places first count (shown order.old segments.now) }
    ensures places { IsInverse order.new place.new }
    ensures written { changed order.old order.new ≤ 2 * (count / 2) }
{
    let mut low = spot_at(segments, size, first);
    let mut high = spot_at(segments, size, end_of(size, first, count));
    for done in 0..count / 2 {
        high = before(segments, size, high);
        let x = order[low.place as usize];
        let y = order[high.place as usize];
        order[low.place as usize] = y;
        order[high.place as usize] = x;
        place[y as usize - 1] = low.place;
        place[x as usize - 1] = high.place;
        low = after(segments, size, low);
    }
}
