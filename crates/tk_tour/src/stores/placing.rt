//! The positions of the cities of an array.
ghost use Rattle.std.specs.Prelude.{◌≡◌, ◌≤◌, length};
ghost use Rattle.tk_problem.specs.declared.limits.TheConstants.{CITY_LIMIT};
ghost use Rattle.tk_tour.specs.Reversal.{IsInverse};
ghost use Rattle.tk_tour.specs.Tour.{IsTour};

/// Writes the position of each city c of a tour, counted from 0, to `place[c - 1]`.
pub fn place_each(order: &[u32], place: &mut [u32])
    requires size { length order.now ≤ CITY_LIMIT }
    requires tour { IsTour (length order.now) order.now }
    requires place_size { length place.old ≡ length order.now }
    ensures { IsInverse order.now place.new }
{
    for k in 0..order.len() {
        place[order[k] as usize - 1] = k as u32;
    }
}
