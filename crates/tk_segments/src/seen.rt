//! A tour in an array that is divided into segments.
ghost use Rattle.std.specs.Prelude.{◌≡◌, ◌≤◌, ◌<◌, ◌+◌, ◌-◌, ◌*◌, ◌/◌, ℕ, length, slice_index, vec_len};
ghost use Rattle.tk_distance.specs.Cities.{IsCity};
ghost use Rattle.tk_tour.specs.Neighbourhood.{IsNeighbourhood};
ghost use Rattle.tk_tour.specs.Places.{IsPlaceFrom};
ghost use Rattle.tk_tour.specs.Reversal.{IsInverse, begun_at, reversed_places};
ghost use Rattle.tk_segments.specs.Segments.{shown};
ghost use Rattle.tk_tour.specs.Tour.{IsSizedTour, next_city, prev_city};
ghost use Rattle.tk_segments.specs.Writes.{ArePaid, changed};

use crate::exchanging::exchange_seen;
use crate::segments::Segments;
use crate::spots::Spot;
use crate::writing::write_seen;
use tk_tour::{Neighbourhood, Positions, place_each};

/// The cities of a tour in an array that is divided into segments. The tour begins at position `begin` of the sequence.
/// A reversal of at most `short` positions swaps cities, and a longer one reverses segments.
#[derive(Drop)]
pub struct SeenTour {
    order: Vec<u32>,
    place: Vec<u32>,
    spare: Vec<u32>,
    segments: Segments,
    begin: u32,
    short: u32,
    ghost tour: { IsSizedTour (begun_at begin (shown order.items segments.segments.items)) },
    ghost inverse: { IsInverse order.items place.items },
    ghost sizes: { (length order.items ≡ segments.size) × (length spare.items ≡ segments.size) },
    ghost begins: { begin < segments.size },
    ghost enough: { segments.size ≤ (segments.most - 2) * ((short + 1) / 2) },
    ghost some: { 3 ≤ segments.most },
}

impl Positions for SeenTour {
    ghost use Rattle.tk_segments.specs.SeenTours.{list_of};

    ghost cities = { list_of };

    fn city_count(&self) -> u32 {
        self.size()
    }

    fn city_after(&self, c: u32) -> u32 {
        self.next(c)
    }

    fn place_of(&self, c: u32) -> u32 {
        let (_, v) = self.segments.spot_of(self.place[c as usize - 1]);
        if v < self.begin {
            v + self.size() - self.begin
        } else {
            v - self.begin
        }
    }

    ghost is_tour = { λ s. s.tour };
}

impl SeenTour {
    ghost use Rattle.tk_segments.specs.SeenTours.{IsReversed, SeesAt, array_of, list_of, room_cost, room_of};
    ghost use Rattle.tk_segments.specs.SeenTours.{segment_count_of};

    /// A tour in the order of `order`.
    pub fn new(
        order: Vec<u32>,
        place: Vec<u32>,
        spare: Vec<u32>,
        segments: Segments,
        short: u32,
    ) -> SeenTour
        requires tour { IsSizedTour order.items }
        requires inverse { IsInverse order.items place.items }
        requires sizes { (length order.items ≡ segments.size) × (length spare.items ≡ segments.size) }
        requires shown { shown order.items segments.segments.items ≡ order.items }
        requires enough { (3 ≤ segments.most) × (segments.size ≤ (segments.most - 2) * ((short + 1) / 2)) }
        ensures list { list_of result ≡ order.items }
        ensures segments { segment_count_of result ≡ vec_len segments.segments }
        ensures room { room_of result ≡ segments.most - 2 }
    {
        SeenTour {
            order,
            place,
            spare,
            segments,
            begin: 0,
            short,
        }
    }

    /// The number of cities.
    pub fn size(&self) -> u32
        ensures { result ≡ length (list_of self.now) }
    {
        self.order.len() as u32
    }

    /// The number of segments.
    pub fn segment_count(&self) -> usize
        ensures count { result ≡ segment_count_of self.now }
        ensures few { result ≤ room_of self.now + 2 }
    {
        self.segments.segments.len()
    }

    /// The city after c.
    pub fn next(&self, c: u32) -> u32
        requires { IsCity (length (list_of self.now)) c }
        ensures { result ≡ next_city (list_of self.now) c }
    {
        self.after(self.spot_of(c)).1
    }

    /// The city before c.
    pub fn prev(&self, c: u32) -> u32
        requires { IsCity (length (list_of self.now)) c }
        ensures { result ≡ prev_city (list_of self.now) c }
    {
        self.before(self.spot_of(c)).1
    }

    /// The cities after and before c.
    pub fn neighbours(&self, c: u32) -> (u32, u32)
        requires { IsCity (length (list_of self.now)) c }
        ensures after { result.0 ≡ next_city (list_of self.now) c }
        ensures before { result.1 ≡ prev_city (list_of self.now) c }
    {
        let (after, before) = self.segments.neighbours(self.spot_of(c));
        (
            self.order[after.place as usize],
            self.order[before.place as usize],
        )
    }

    /// The three cities after c, and the three before it.
    pub fn neighbourhood(&self, c: u32) -> Neighbourhood
        requires { IsCity (length (list_of self.now)) c }
        ensures { IsNeighbourhood (list_of self.now) c result }
    {
        let spot = self.spot_of(c);
        let (one_on, after) = self.after(spot);
        let (two_on, after_2) = self.after(one_on);
        let (one_back, before) = self.before(spot);
        let (two_back, before_2) = self.before(one_back);
        Neighbourhood {
            after: [after, after_2, self.after(two_on).1],
            before: [before, before_2, self.before(two_back).1],
        }
    }

    // The spot of a city.
    fn spot_of(&self, c: u32) -> Spot
        requires { IsCity (length (list_of self.now)) c }
        ensures { SeesAt self.now c result }
    {
        let (spot, _) = self.segments.spot_of(self.place[c as usize - 1]);
        spot
    }

    // The spot of the city after the one at this spot, and that city.
    fn after(&self, spot: Spot) -> (Spot, u32)
        requires { (c : ℕ) × SeesAt self.now c spot }
        ensures { (c : ℕ) → SeesAt self.now c spot → SeesAt self.now result.1 result.0
            × (result.1 ≡ next_city (list_of self.now) c) }
    {
        let after = self.segments.after(spot);
        (after, self.order[after.place as usize])
    }

    // The spot of the city before the one at this spot, and that city.
    fn before(&self, spot: Spot) -> (Spot, u32)
        requires { (c : ℕ) × SeesAt self.now c spot }
        ensures { (c : ℕ) → SeesAt self.now c spot → SeesAt self.now result.1 result.0
            × (result.1 ≡ prev_city (list_of self.now) c) }
    {
        let before = self.segments.before(spot);
        (before, self.order[before.place as usize])
    }

    // The position in the sequence of position k of the list, both counted from 0.
    fn seen_from(&self, k: u32) -> u32
        requires { k < length (list_of self.now) }
        ensures { IsPlaceFrom (length (list_of self.now)) self.now.begin k result }
    {
        let n = self.size();
        if k < n - self.begin {
            self.begin + k
        } else {
            self.begin + k - n
        }
    }

    /// The city at position k of the list, counted from 0.
    pub fn at(&self, k: u32) -> u32
        requires { k < length (list_of self.now) }
        ensures { result ≡ slice_index (list_of self.now) k }
    {
        self.order[self.segments.spot_at(self.seen_from(k)).place as usize]
    }

    /// Reverses `count` positions of the list, from position `first` (counted from 0) on, and returns the number of
    /// array positions written.
    pub fn reverse(&mut self, first: u32, count: u32) -> u64
        requires first { first < length (list_of self.old) }
        requires count { 2 * count ≤ length (list_of self.old) }
        ensures { IsReversed self.old self.new first count result }
    {
        let v = self.seen_from(first);
        if count <= self.short {
            return self.exchange(v, count);
        }
        let written = self.make_room();
        self.turn(v, count);
        written
    }

    /// Reverses `count` positions of the list like `reverse`, and joins segments that were split for a reversal of the
    /// same positions. Returns the number of array positions written.
    pub fn undo(&mut self, first: u32, count: u32) -> u64
        requires first { first < length (list_of self.old) }
        requires count { 2 * count ≤ length (list_of self.old) }
        ensures { IsReversed self.old self.new first count result }
    {
        let written = self.reverse(first, count);
        if count <= self.short {
            return written;
        }
        self.join();
        self.join();
        written
    }

    // Joins the segment with the highest id to the one from which it was split, if they are neighbours on the cycle,
    // read in the same direction.
    fn join(&mut self)
        ensures list { list_of self.new ≡ list_of self.old }
        ensures segments { (1 ≤ segment_count_of self.new) × (segment_count_of self.new ≤ segment_count_of self.old) }
        ensures array { array_of self.new ≡ array_of self.old }
        ensures room { room_of self.new ≡ room_of self.old }
    {
        let first = self.segments.join();
        self.begin = if first <= self.begin {
            self.begin - first
        } else {
            self.begin + self.segments.size - first
        };
    }

    // Reverses `count` positions of the sequence from `first` on, by swaps of two cities, and returns the number of
    // array positions written.
    fn exchange(&mut self, first: u32, count: u32) -> u64
        requires first { first < length (list_of self.old) }
        requires count { count ≤ length (list_of self.old) }
        ensures list { (k : ℕ) → k < length (list_of self.old)
            → IsPlaceFrom (length (list_of self.old)) self.old.begin k first
            → list_of self.new ≡ reversed_places k count (list_of self.old) }
        ensures count { result ≡ 2 * (count / 2) }
        ensures written { changed (array_of self.old) (array_of self.new) ≤ result }
        ensures segments { segment_count_of self.new ≡ segment_count_of self.old }
        ensures room { room_of self.new ≡ room_of self.old }
    {
        exchange_seen(
            &mut self.order,
            &mut self.place,
            &self.segments.segments,
            self.segments.size,
            first,
            count,
        );
        2 * (count as u64 / 2)
    }

    // Makes room for two more segments, if necessary by rewriting the array, and returns the number of array positions
    // written.
    fn make_room(&mut self) -> u64
        ensures list { list_of self.new ≡ list_of self.old }
        ensures begin { self.new.begin ≡ self.old.begin }
        ensures exact { result ≡ room_cost self.old }
        ensures segments { segment_count_of self.new ≤ room_of self.new }
        ensures paid { (writes swaps : ℕ)
            → ArePaid (length (list_of self.old)) (room_of self.old) writes (segment_count_of self.old) swaps
            → ArePaid (length (list_of self.old)) (room_of self.old) (writes + result)
            (segment_count_of self.new) swaps }
        ensures room { room_of self.new ≡ room_of self.old }
        ensures short { self.new.short ≡ self.old.short }
        ensures small { result ≤ length (list_of self.old) }
        ensures written { changed (array_of self.old) (array_of self.new) ≤ result }
    {
        if self.segments.segments.len() + 2 <= self.segments.most as usize {
            return 0;
        }
        self.rewrite();
        self.order.len() as u64
    }

    /// Rewrites the array in the order of the sequence, as one segment.
    pub fn rewrite(&mut self)
        ensures list { list_of self.new ≡ list_of self.old }
        ensures begin { self.new.begin ≡ self.old.begin }
        ensures segments { segment_count_of self.new ≡ 1 }
        ensures room { room_of self.new ≡ room_of self.old }
        ensures short { self.new.short ≡ self.old.short }
    {
        write_seen(
            &self.order,
            &self.segments.segments,
            self.segments.size,
            0,
            &mut self.spare,
        );
        std::mem::swap(&mut self.order, &mut self.spare);
        place_each(&self.order, &mut self.place);
        self.segments.reset();
    }

    /// Takes the order of another list of the cities, as one segment.
    pub fn take_order(&mut self, cities: &[u32])
        requires tour { IsSizedTour cities.now }
        requires size { length cities.now ≡ length (list_of self.old) }
        ensures list { list_of self.new ≡ cities.now }
        ensures segments { segment_count_of self.new ≡ 1 }
        ensures room { room_of self.new ≡ room_of self.old }
    {
        self.order.copy_from_slice(cities);
        place_each(&self.order, &mut self.place);
        self.segments.reset();
        self.begin = 0;
    }

    /// Writes the cities to a list, in tour order.
    pub fn write_order(&self, cities: &mut [u32])
        requires size { length cities.old ≡ length (list_of self.now) }
        ensures order { cities.new ≡ list_of self.now }
    {
        write_seen(
            &self.order,
            &self.segments.segments,
            self.segments.size,
            self.begin,
            cities,
        );
    }

    // Reverses `count` positions of the sequence from `first` on, by reversing segments.
    fn turn(&mut self, first: u32, count: u32)
        requires first { first < length (list_of self.old) }
        requires count { (0 < count) × (count ≤ length (list_of self.old)) }
        requires room { segment_count_of self.old ≤ room_of self.old }
        ensures list { (k : ℕ) → k < length (list_of self.old)
            → IsPlaceFrom (length (list_of self.old)) self.old.begin k first
            → list_of self.new ≡ reversed_places k count (list_of self.old) }
        ensures segments { segment_count_of self.new ≤ segment_count_of self.old + 2 }
        ensures some { 1 ≤ segment_count_of self.new }
        ensures array { array_of self.new ≡ array_of self.old }
        ensures room { room_of self.new ≡ room_of self.old }
    {
        let n = self.segments.size;
        if count <= n - first {
            self.segments.turn(first, first + count);
            return;
        }
        let before = first + count - n;
        self.segments.begin_and_turn(before, first - before);
        self.begin = if before <= self.begin {
            self.begin - before
        } else {
            self.begin + n - before
        };
    }
}
