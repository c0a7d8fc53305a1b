//! Kicks, which take a tour out of a local optimum.
ghost use Rattle.std.specs.Prelude.{◌≡◌, ◌≤◌, ◌+◌, ◌*◌, ◌/◌, length, pos, ◌+ℤ◌, ◌≤ℤ◌, All};
ghost use Rattle.tk_distance.specs.Cities.{IsCity};
ghost use Rattle.tk_tour.specs.Tour.{SameCycle};
ghost use Rattle.tk_tour.specs.Counters.{saturated};
ghost use Rattle.tk_search.specs.Cuts.{AreCuts, bridged, kick_swaps, steps_between, steps_out, steps_in};

use crate::double_bridges::cuts::Cuts;
use tk_distance::Metric;
use tk_tour::TourStore;

/// The double bridge: swaps the second and the fourth of the four parts at the cuts, by four flips. The first flip
/// reverses all parts except the first; each of the others reverses one of them back.
pub fn kick<S: TourStore>(store: &mut S, cuts: Cuts)
    requires { AreCuts (length (S.cities store.old)) cuts }
    ensures bridged { SameCycle (S.cities store.new) (bridged cuts (S.cities store.old)) }
    ensures kept { S.FlipsOnly store.old store.new }
    ensures size { length (S.cities store.new) ≡ length (S.cities store.old) }
    ensures flips { S.flip_count store.new ≡ saturated (S.flip_count store.old + 4) }
    ensures rises { S.swap_count store.old ≤ S.swap_count store.new }
    ensures swaps { S.swap_count store.new
        ≡ saturated (S.swap_count store.old + kick_swaps (length (S.cities store.old)) cuts) }
    ensures few { kick_swaps (length (S.cities store.old)) cuts ≤ 4 * (length (S.cities store.old) / 4) }
{
    let [a1, an, b1, bn, c1, cn, d1, dn] = cuts.ends(store);
    let _ = store.flip(an, b1, dn, a1);
    let _ = store.flip(an, dn, d1, cn);
    let _ = store.flip(dn, cn, c1, bn);
    let _ = store.flip(cn, bn, b1, a1);
}

/// The sum of four distances: from the first city to the second, from the third to the fourth, and so on.
fn four_steps<M: Metric>(metric: &M, cities: [u32; 8]) -> i64
    requires { All (IsCity (M.size_of metric.now)) cities }
    ensures { result ≡ pos (steps_between (M.distance metric.now) cities) }
{
    let [a, b, c, d, e, f, g, h] = cities;
    metric.dist(a, b) + metric.dist(c, d) + metric.dist(e, f) + metric.dist(g, h)
}

/// The length of a tour after the double bridge, from its length before and the first and the last city of each part.
pub fn bridged_length<M: Metric>(metric: &M, before: i64, ends: [u32; 8]) -> i64
    requires cities { All (IsCity (M.size_of metric.now)) ends }
    requires before { (pos 0 ≤ℤ before) × (before ≤ℤ pos 400000000000000) }
    ensures { result +ℤ pos (steps_out (M.distance metric.now) ends)
        ≡ before +ℤ pos (steps_in (M.distance metric.now) ends) }
{
    let [a1, an, b1, bn, c1, cn, d1, dn] = ends;
    let out = four_steps(metric, [an, b1, bn, c1, cn, d1, dn, a1]);
    let put = four_steps(metric, [an, d1, dn, c1, cn, b1, bn, a1]);
    before - out + put
}
