//! The queue of waking cities.
ghost use Rattle.std.specs.Prelude.{◌≡◌, ◌+◌, ◌≤◌, ◌<◌, [], ◌∷◌, IfOk, IfSome, MatchOption, All, vec_len, length};
ghost use Rattle.tk_descent.specs.Awake.{woken, woken_each, one_to};
ghost use Rattle.tk_distance.specs.Holding.{IsDistinct};
ghost use Rattle.tk_distance.specs.Cities.{IsCity};

use circular_buffer::HeapCircularBuffer;
use std::alloc::{AllocError, Global};
use std::marker::Model;

/// The queue of the cities that are awake and wait for a look: distinct cities from 1 to n, first in, first out. It
/// plays the part of don't-look bits.
#[derive(Drop)]
pub struct Waking {
    queue: HeapCircularBuffer<u32>,
    awake: Vec<bool>,
}

impl Model for Waking {
    ghost use Rattle.tk_descent.specs.Awake.{Awake, IsWaking};
    ghost use Rattle.std.specs.Prelude.{◌-◌, ◌≡◌, ◌≤◌, vec_len};

    ghost Value = { Awake };

    ghost view = { λ w. record { queue = w.queue.items; size = vec_len w.awake - 1 } };

    ghost invariant = { λ w. (w.queue.capacity ≡ vec_len w.awake) × (1 ≤ vec_len w.awake)
        × IsWaking w.queue.items w.awake.items × (vec_len w.awake ≤ 4294967296) };
}

impl Waking {
    /// A queue for the cities 1 to n, all asleep.
    ///
    /// # Errors
    /// `AllocError` if memory runs out.
    pub fn new(alloc: Global, n: u32) -> Result<Waking, AllocError>
        ensures { IfOk result (λ w. (w.queue ≡ []) × (w.size ≡ n)) }
    {
        let places = n as usize + 1;
        let queue = HeapCircularBuffer::with_capacity(alloc, places)?;
        let awake = vec![in alloc; false; places]?;
        Ok(Waking { queue, awake })
    }

    /// The number of cities that are awake.
    pub fn len(&self) -> usize
        ensures value { result ≡ length self.now.queue }
        ensures limit { result ≤ self.now.size }
        ensures distinct { IsDistinct self.now.queue }
    {
        self.queue.len()
    }

    /// Wakes a city: appends it to the queue if it is asleep.
    pub fn wake(&mut self, city: u32)
        requires { IsCity self.old.size city }
        ensures queue { self.new.queue ≡ woken self.old.queue city }
        ensures size { self.new.size ≡ self.old.size }
    {
        if !self.awake[city as usize] {
            self.awake[city as usize] = true;
            let _dropped = self.queue.push_back(city);
        }
    }

    /// Wakes each city of a list that is asleep, in the order of the list.
    pub fn wake_each(&mut self, cities: &[u32])
        requires { All (IsCity self.old.size) cities.now }
        ensures queue { self.new.queue ≡ woken_each self.old.queue cities.now }
        ensures size { self.new.size ≡ self.old.size }
    {
        for c in cities {
            self.wake(*c);
        }
    }

    /// Wakes all cities that are asleep, in ascending order.
    pub fn wake_all(&mut self)
        ensures queue { self.new.queue ≡ woken_each self.old.queue (one_to self.old.size) }
        ensures size { self.new.size ≡ self.old.size }
    {
        let n = self.size();
        for k in 0..n {
            self.wake(k + 1);
        }
    }

    /// The number of cities.
    fn size(&self) -> u32
        ensures { result ≡ self.now.size }
    {
        (self.awake.len() - 1) as u32
    }

    /// Removes the first city, which then is asleep. `None` if no city is awake.
    pub fn take(&mut self) -> Option<u32>
        ensures taken { MatchOption result ((self.old.queue ≡ [])
            × (self.new.queue ≡ [])) (λ x. self.old.queue ≡ x ∷ self.new.queue) }
        ensures city { IfSome result (λ x. IsCity self.old.size x) }
        ensures distinct { IsDistinct self.old.queue }
        ensures size { self.new.size ≡ self.old.size }
    {
        match self.queue.pop_front() {
            Some(x) => {
                self.awake[x as usize] = false;
                Some(x)
            }
            None => None,
        }
    }
}
