//! The cuts of a kick.
ghost use Rattle.std.specs.Prelude.{◌≡◌, ◌≤◌, length, map};
ghost use Rattle.tk_distance.specs.Cities.{city_at};
ghost use Rattle.tk_search.specs.Cuts.{AreCuts, drawn_cuts, end_places};

use rand::RngExt;
use rand_core::Rng;
use tk_tour::TourStore;

/// Three cuts of a tour of n cities into four parts: positions 1 to `p`, `p + 1` to `q`, `q + 1` to `r`, and `r + 1` to
/// n.
#[derive(Clone, Copy, PartialEq, Eq)]
pub struct Cuts {
    /// The number of cities in the first part.
    pub p: u32,
    /// The number of cities in the first two parts.
    pub q: u32,
    /// The number of cities in the first three parts.
    pub r: u32,
}

impl Cuts {
    /// Draws the three cuts one after another. Each leaves at least one city for every part after it.
    pub fn draw<R: Rng>(rng: &mut R, n: u32) -> Cuts
        requires { 8 ≤ n }
        ensures cuts { AreCuts n result }
        ensures drawn { (result, R.stream rng.new) ≡ drawn_cuts n (R.stream rng.old) }
    {
        let p = rng.random_range(1..=n - 3);
        let q = rng.random_range(p + 1..=n - 2);
        let r = rng.random_range(q + 1..=n - 1);
        Cuts { p, q, r }
    }

    /// The first and the last city of each part, in tour order.
    pub fn ends<S: TourStore>(&self, store: &S) -> [u32; 8]
        requires { AreCuts (length (S.cities store.now)) self.now }
        ensures { result ≡ map (city_at (S.cities store.now)) (end_places (length (S.cities store.now)) self.now) }
    {
        let n = store.size();
        [
            store.at(1),
            store.at(self.p),
            store.at(self.p + 1),
            store.at(self.q),
            store.at(self.q + 1),
            store.at(self.r),
            store.at(self.r + 1),
            store.at(n),
        ]
    }
}
