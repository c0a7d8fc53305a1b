//! Tour stores: tours that are changed by flips.
ghost use Rattle.std.specs.Prelude.{◌≡◌, ◌≤◌, ◌+◌, ◌-◌, ◌*◌, ◌/◌, ℕ, List, length, slice_index};
ghost use Rattle.tk_distance.specs.Cities.{IsCity};
ghost use Rattle.tk_tour.specs.Neighbourhood.{IsNeighbourhood};
ghost use Rattle.tk_tour.specs.Tour.{IsSizedTour, next_city, prev_city};
ghost use Rattle.tk_tour.specs.Moves.{CanFlip, IsShorterSide, ReplacesSteps, TwoOptMove};
ghost use Rattle.tk_tour.specs.Reversal.{reversed_places};
ghost use Rattle.tk_tour.specs.Counters.{saturated};

/// The positions that a flip reversed: `count` of them from `first` on, counted from 1 and modulo the number of cities.
#[derive(Clone, Copy, PartialEq, Eq, Debug)]
pub struct Flip {
    pub first: u32,
    pub count: u32,
}

/// The three cities after a city of a tour, and the three before it, both beginning next to the city.
#[derive(Clone, Copy, PartialEq, Eq, Debug)]
pub struct Neighbourhood {
    pub after: [u32; 3],
    pub before: [u32; 3],
}

/// A tour of 2 to 100,000 cities that is changed by flips; its model is the list of its cities. Its counters saturate
/// at 2^64 - 1.
pub trait TourStore {
    /// The cities in their order.
    ghost cities: { Self → List ℕ };

    /// The number of swaps counted for flips: half of the positions that each one reversed, rounded down.
    ghost swap_count: { Self → ℕ };

    /// The number of flips since the counter was last reset.
    ghost flip_count: { Self → ℕ };

    /// The second tour comes from the first by flips only.
    ghost FlipsOnly: { Self → Self → Type 0 };

    /// The number of cities.
    fn size(&self) -> u32
        ensures { result ≡ length (cities self.now) };

    /// The city after c.
    fn next(&self, c: u32) -> u32
        requires { IsCity (length (cities self.now)) c }
        ensures { result ≡ next_city (cities self.now) c };

    /// The city before c.
    fn prev(&self, c: u32) -> u32
        requires { IsCity (length (cities self.now)) c }
        ensures { result ≡ prev_city (cities self.now) c };

    /// The cities after and before c.
    fn neighbours(&self, c: u32) -> (u32, u32)
        requires { IsCity (length (cities self.now)) c }
        ensures after { result.0 ≡ next_city (cities self.now) c }
        ensures before { result.1 ≡ prev_city (cities self.now) c }
    {
        (self.next(c), self.prev(c))
    }

    /// The three cities after c, and the three before it.
    fn neighbourhood(&self, c: u32) -> Neighbourhood
        requires { IsCity (length (cities self.now)) c }
        ensures { IsNeighbourhood (cities self.now) c result }
    {
        let (after, before) = self.neighbours(c);
        let (after_2, before_2) = (self.next(after), self.prev(before));
        Neighbourhood {
            after: [after, after_2, self.next(after_2)],
            before: [before, before_2, self.prev(before_2)],
        }
    }

    /// The city at position k, counted from 1.
    fn at(&self, k: u32) -> u32
        requires { IsCity (length (cities self.now)) k }
        ensures { result ≡ slice_index (cities self.now) (k - 1) };

    /// The position of city c, counted from 1.
    fn position(&self, c: u32) -> u32
        requires { IsCity (length (cities self.now)) c }
        ensures within { IsCity (length (cities self.now)) result }
        ensures city { slice_index (cities self.now) (result - 1) ≡ c };

    /// The number of swaps counted for flips: half of the positions that each one reversed, rounded down.
    fn swaps(&self) -> u64
        ensures { result ≡ swap_count self.now };

    /// The number of flips since the counter was last reset.
    fn flips(&self) -> u64
        ensures { result ≡ flip_count self.now };

    /// Replaces the edges a-b and c-d by a-c and b-d (a 2-opt move), reversing the shorter side. Returns the positions
    /// that it reversed.
    fn flip(&mut self, a: u32, b: u32, c: u32, d: u32) -> Flip
        requires { CanFlip (cities self.old) a b c d }

        // the move
        ensures made { TwoOptMove (cities self.old) (cities self.new) a b c d }
        ensures steps { ReplacesSteps (cities self.old) (cities self.new) a b c d }

        // the positions that it reversed
        ensures places { cities self.new ≡ reversed_places (result.first - 1) result.count (cities self.old) }
        ensures undone { reversed_places (result.first - 1) result.count (cities self.new) ≡ cities self.old }
        ensures first { IsCity (length (cities self.old)) result.first }
        ensures side { IsShorterSide (cities self.old) result.count a b c d }
        ensures shorter { 2 * result.count ≤ length (cities self.old) }

        // the counters, and what is unchanged
        ensures swaps { swap_count self.new ≡ saturated (swap_count self.old + result.count / 2) }
        ensures rises { swap_count self.old ≤ swap_count self.new }
        ensures flips { flip_count self.new ≡ saturated (flip_count self.old + 1) }
        ensures size { length (cities self.new) ≡ length (cities self.old) }
        ensures kept { FlipsOnly self.old self.new };

    ghost flips_none: { (s : Self) → FlipsOnly s s };

    ghost flips_more: { (r s t : Self) → FlipsOnly r s → FlipsOnly s t → FlipsOnly r t };

    ghost is_tour: { (s : Self) → IsSizedTour (cities s) };
}
