//! The nearest candidates of a city, in order.
ghost use Rattle.std.specs.Prelude.{◌≡◌, ◌≤◌, ◌<◌, ◌-◌, ◌*◌, ◌↔◌, IsTrue, length};
ghost use Rattle.tk_distance.specs.Cities.{IsCity};
ghost use Rattle.tk_near.specs.Keeping.{AreOpenFrom, candidate, rank, Climbing, with_candidate, overwritten};
ghost use Rattle.tk_near.specs.Keeping.{cities_kept};

use tk_distance::Metric;

/// A city, with its distance from the city whose candidate it is.
#[derive(Clone, Copy, Drop)]
pub struct Candidate {
    pub distance: u32,
    pub city: u32,
}

/// An empty slot, which compares greater than every candidate.
pub const EMPTY: Candidate = Candidate {
    distance: u32::MAX,
    city: u32::MAX,
};

impl Candidate {
    /// Distance and number as one sort key.
    #[inline(always)]
    fn key(self) -> u64
        ensures { result ≡ rank self }
    {
        self.distance as u64 * 4_294_967_296 + self.city as u64
    }

    /// Whether this candidate comes before another in the order of (distance, number).
    #[inline(always)]
    pub fn is_before(self, other: Candidate) -> bool
        ensures { IsTrue result ↔ (rank self < rank other) }
    {
        self.key() < other.key()
    }
}

/// City b as a candidate of city c.
#[inline]
pub fn measure<M: Metric>(m: &M, c: u32, b: u32) -> Candidate
    requires from { IsCity (M.size_of m.now) c }
    requires to { IsCity (M.size_of m.now) b }
    ensures { result ≡ candidate (M.distance m.now) c b }
{
    Candidate {
        distance: m.dist(c, b) as u32,
        city: b,
    }
}

/// Whether city `there`, as a candidate of city `here`, comes before the last candidate kept.
#[inline(always)]
pub fn comes_before<M: Metric>(m: &M, here: u32, there: u32, last: Candidate) -> bool
    requires here { IsCity (M.size_of m.now) here }
    requires there { IsCity (M.size_of m.now) there }
    ensures { IsTrue result ↔ (rank (candidate (M.distance m.now) here there) < rank last) }
{
    let limit = last.distance as i64 + (there < last.city) as i64;
    m.is_nearer(here, there, limit)
}

/// Inserts a candidate in order and drops the last one, which may be the candidate itself. Slots from `filled` on are
/// empty and stay so.
pub fn keep_among(kept: &mut [Candidate], filled: &mut usize, x: Candidate)
    requires room { 1 ≤ length kept.old }
    requires climbing { Climbing rank kept.old }
    requires vacant { AreOpenFrom filled.old kept.old }
    ensures kept { kept.new ≡ with_candidate x kept.old }
    ensures vacant { AreOpenFrom filled.new kept.new }
{
    let last = kept.len() - 1;
    if !x.is_before(kept[last]) {
        return;
    }
    let end = last.min(*filled);
    let mut i = end;
    while i > 0 && x.is_before(kept[i - 1]) {
        kept[i] = kept[i - 1];
        i -= 1;
    }
    kept[i] = x;
    *filled = end + 1;
}

/// Like `keep_among`, but without knowing which slots are empty.
pub fn keep(kept: &mut [Candidate], x: Candidate)
    requires room { 1 ≤ length kept.old }
    requires climbing { Climbing rank kept.old }
    ensures { kept.new ≡ with_candidate x kept.old }
{
    let mut filled = kept.len();
    keep_among(kept, &mut filled, x);
}

/// Writes the cities of these candidates as the near list of city c.
pub fn write_cities(entries: &mut [u32], c: u32, kept: &[Candidate])
    requires city { 1 ≤ c }
    requires room { c * length kept.now ≤ length entries.old }
    ensures { entries.new ≡ overwritten ((c - 1) * length kept.now) (cities_kept kept.now) entries.old }
{
    let from = (c as usize - 1) * kept.len();
    for (i, x) in kept.iter().enumerate() {
        entries[from + i] = x.city;
    }
}
