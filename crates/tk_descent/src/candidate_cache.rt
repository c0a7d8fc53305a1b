//! A cache of distances from cities to their candidates, the cities of their near lists.
ghost use Rattle.std.specs.Prelude.{◌≡◌, All, pos};
ghost use Rattle.tk_distance.specs.Cities.{IsCity};
ghost use Rattle.tk_descent.specs.EdgeCache.{IsCached};

use tk_distance::Metric;

/// The distance between two cities. If they are 0, there is none.
#[derive(Clone, Copy, Drop)]
pub(crate) struct CachedDistance {
    pub from: u32,
    pub to: u32,
    pub distance: u32,
}

/// An entry without a distance.
pub(crate) const NO_DISTANCE: CachedDistance = CachedDistance {
    from: 0,
    to: 0,
    distance: 0,
};

/// The distance between two cities. It is measured only if the entry with this index does not have it, and then stored
/// there if the cache has this entry.
#[inline(always)]
pub(crate) fn cached_distance<M: Metric>(
    metric: &M,
    cache: &mut [CachedDistance],
    index: usize,
    from: u32,
    to: u32,
) -> i64
    requires from { IsCity (M.size_of metric.now) from }
    requires to { IsCity (M.size_of metric.now) to }
    requires known { All (IsCached (M.distance metric.now)) cache.old }
    ensures value { result ≡ pos (M.distance metric.now from to) }
    ensures known { All (IsCached (M.distance metric.now)) cache.new }
{
    if index >= cache.len() {
        return metric.dist(from, to);
    }
    let known = cache[index];
    if known.from == from && known.to == to {
        return i64::from(known.distance);
    }
    let distance = metric.dist(from, to);
    cache[index] = CachedDistance {
        from,
        to,
        distance: distance as u32,
    };
    distance
}
