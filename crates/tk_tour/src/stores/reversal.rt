//! Reversals of the positions of an array tour.
ghost use Rattle.std.specs.Prelude.{◌≡◌, ◌≤◌, ◌<◌, ◌-◌, length};
ghost use Rattle.tk_problem.specs.declared.limits.TheConstants.{CITY_LIMIT};
ghost use Rattle.tk_tour.specs.Reversal.{IsInverse, reversed_places};

// Reverses `count` positions from `first` on, counted from 0 and modulo the length. Those that continue from the end to
// the beginning are reversed by `count / 2` swaps of two cities.
pub(crate) fn reverse_places(order: &mut [u32], place: &mut [u32], first: usize, count: usize)
    requires first_in { first < length order.old }
    requires count_in { count ≤ length order.old }
    requires size { length order.old ≤ CITY_LIMIT }
    requires places { IsInverse order.old place.old }
    ensures reversed { order.new ≡ reversed_places first count order.old }
    ensures places { IsInverse order.new place.new }
{
    let n = order.len();
    if count <= n - first {
        reverse_within(order, place, first, first + count);
        return;
    }
    let mut low = first;
    let mut high = first + count - n;
    for done in 0..count / 2 {
        high = if high == 0 { n - 1 } else { high - 1 };
        let x = order[low];
        let y = order[high];
        order[low] = y;
        order[high] = x;
        place[y as usize - 1] = low as u32;
        place[x as usize - 1] = high as u32;
        low = if low + 1 == n { 0 } else { low + 1 };
    }
}

// Reverses the positions from `first` up to but not including `last`.
fn reverse_within(order: &mut [u32], place: &mut [u32], first: usize, last: usize)
    requires from { first ≤ last }
    requires to { last ≤ length order.old }
    requires size { length order.old ≤ CITY_LIMIT }
    requires places { IsInverse order.old place.old }
    ensures reversed { order.new ≡ reversed_places first (last - first) order.old }
    ensures places { IsInverse order.new place.new }
{
    order[first..last].reverse();
    for k in first..last {
        place[order[k] as usize - 1] = k as u32;
    }
}
