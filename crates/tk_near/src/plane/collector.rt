//! Collects the nearest of the cities that a tree search visits, with ties broken by number.
ghost use Rattle.std.specs.Prelude.{◌≡◌, ◌≤◌, List, [], ◌∷◌, IfOk, length, replicate};
ghost use Rattle.tk_near.specs.declared.candidates.Candidate.{Candidate};
ghost use Rattle.tk_near.specs.Keeping.{AreOpenFrom, Climbing, empty_slot, rank, with_candidate};
ghost use Rattle.tk_near.specs.Kept.{Climbing-prop, last_of, one_climbing, one_room};

use crate::candidates::{Candidate, EMPTY, keep_among};
use std::alloc::{AllocError, Global};

/// Collects the nearest of the cities that a search visits, up to its capacity.
pub trait Collector {
    /// The candidates kept, in order.
    ghost kept_of: { Self → List Candidate };

    /// The last of the candidates kept: a candidate that comes after it is not kept.
    fn last(&self) -> Candidate
        ensures { result ≡ last_of (kept_of self.now) };

    /// Keeps a candidate that was found at the end of this path, unless it comes after the last one kept.
    fn keep(&mut self, x: Candidate, branches: u64)
        ensures { kept_of self.new ≡ with_candidate x (kept_of self.old) };

    ghost room: { (k : Self) → 1 ≤ length (kept_of k) };

    ghost climbing: { (k : Self) → Climbing rank (kept_of k) };
}

/// Collects several cities.
#[derive(Drop)]
pub struct KNearest {
    kept: Vec<Candidate>,
    filled: usize,
    ghost some: { 1 ≤ length kept.items },
    ghost order: { Climbing rank kept.items } by { Climbing-prop rank kept.items },
    ghost vacant: { AreOpenFrom filled kept.items },
}

impl KNearest {
    /// A collector with room for `width` cities.
    ///
    /// # Errors
    /// `AllocError` if memory runs out.
    pub fn new(alloc: Global, width: usize) -> Result<KNearest, AllocError>
        requires { 1 ≤ width }
        ensures { IfOk result (λ many. many.kept.items ≡ replicate width empty_slot) }
    {
        let kept = vec![in alloc; EMPTY; width]?;
        Ok(KNearest { kept, filled: 0 })
    }

    /// Removes all cities.
    pub fn clear(&mut self)
        ensures { self.new.kept.items ≡ replicate (length self.old.kept.items) empty_slot }
    {
        self.kept.fill(EMPTY);
        self.filled = 0;
    }

    /// The candidates kept, in order.
    pub fn kept(&self) -> &[Candidate]
        ensures { result.now ≡ self.now.kept.items }
    {
        &self.kept
    }
}

impl Collector for KNearest {
    ghost kept_of = { λ k. k.kept.items };

    ghost room = { λ k. k.some };

    ghost climbing = { λ k. k.order };

    #[inline(always)]
    fn last(&self) -> Candidate {
        self.kept[self.kept.len() - 1]
    }

    #[inline(always)]
    fn keep(&mut self, x: Candidate, _sides: u64) {
        keep_among(&mut self.kept, &mut self.filled, x);
    }
}

/// Collects one city, and the path to the leaf where it was found.
#[derive(Clone, Copy)]
pub struct NearestOne {
    pub best: Candidate,
    pub branches: u64,
}

impl Collector for NearestOne {
    ghost kept_of = { λ k. k.best ∷ [] };

    ghost room = { one_room };

    ghost climbing = { one_climbing };

    #[inline(always)]
    fn last(&self) -> Candidate {
        self.best
    }

    #[inline(always)]
    fn keep(&mut self, x: Candidate, branches: u64) {
        if x.is_before(self.best) {
            self.best = x;
            self.branches = branches;
        }
    }
}
