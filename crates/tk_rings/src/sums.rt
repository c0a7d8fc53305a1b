//! Sums along a ring.
ghost use Rattle.std.specs.Prelude.{◌≡◌, ◌+◌, ◌≤◌, ◌<◌, IfOk, length, slice_index};
ghost use Rattle.tk_rings.specs.Sums.{AreSumsAlong, AreSumsBeside, AreSumsOf, IsSpan, IsSpanBack};

use std::alloc::{AllocError, Global};
use tk_tour::TourStore;

/// Sums along a ring of n elements, by which the load of each of its paths is known at once. Positions are counted
/// from 0.
#[derive(Drop)]
pub(crate) struct Sums {
    /// The load of the elements before each of the positions 0 to n.
    pub loads: Vec<u64>,
    /// The number of copies of the depot before each of the positions 0 to n.
    pub counts: Vec<u32>,
    /// The positions of the copies, in their order. Only as many entries are used as there are copies.
    pub copies: Vec<u32>,
}

impl Sums {
    /// Sums for a ring of n elements, all 0.
    ///
    /// # Errors
    /// `AllocError` if memory runs out.
    pub fn new(alloc: Global, n: u32) -> Result<Sums, AllocError>
        ensures sizes { IfOk result (AreSumsOf n) }
        ensures first { IfOk result (λ s. (slice_index s.loads.items 0 ≡ 0) × (slice_index s.counts.items 0 ≡ 0)) }
    {
        let n = n as usize;
        Ok(Sums {
            loads: vec![in alloc; 0u64; n + 1]?,
            counts: vec![in alloc; 0u32; n + 1]?,
            copies: vec![in alloc; 0u32; n]?,
        })
    }

    /// Computes the sums between two positions of a ring again, from those at the first.
    pub fn fill<S: TourStore>(&mut self, ring: &S, demands: &[u32], from: u32, to: u32)
        requires range { (from ≤ to) × (to ≤ length (S.cities ring.now)) }
        requires beside { AreSumsBeside from to demands.now (S.cities ring.now) self.old }
        ensures { AreSumsAlong demands.now (S.cities ring.now) self.new }
    {
        let mut load = self.loads[from as usize];
        let mut count = self.counts[from as usize];
        for k in from..to {
            let c = ring.at(k + 1) as usize;
            if c > demands.len() {
                self.copies[count as usize] = k;
                count += 1;
            } else {
                load += demands[c - 1] as u64;
            }
            self.loads[k as usize + 1] = load;
            self.counts[k as usize + 1] = count;
        }
    }
}
