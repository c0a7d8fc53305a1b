//! The best tour of a search.
ghost use Rattle.std.specs.Prelude.{◌≡◌, ◌<◌, ◌+◌, ◌^◌, IfOk, length};
ghost use Rattle.tk_tour.specs.Counters.{saturated};
ghost use Rattle.tk_tour.specs.Tour.{IsSizedTour};

use std::alloc::{AllocError, Global};
use tk_tour::UndoStore;

/// The best tour so far: its cities in tour order, and how many cities have been copied to it.
#[derive(Drop)]
pub(crate) struct Best {
    cities: Vec<u32>,
    copied: u64,
    ghost tour: { IsSizedTour cities.items },
    ghost fits: { copied < 2 ^ 64 },
}

impl Best {
    ghost use Rattle.tk_search.specs.Best.{best_of, copied_to};

    /// A copy of a tour; its cities are not counted as copied.
    ///
    /// # Errors
    /// `AllocError` if memory runs out.
    pub(crate) fn new<S: UndoStore>(alloc: Global, tour: &S) -> Result<Best, AllocError>
        ensures cities { IfOk result (λ b. best_of b ≡ S.cities tour.now) }
        ensures copied { IfOk result (λ b. copied_to b ≡ 0) }
    {
        let mut cities = vec![in alloc; 0u32; tour.size() as usize]?;
        tour.write_order(&mut cities);
        Ok(Best { cities, copied: 0 })
    }

    /// Copies a tour of the same number of cities.
    pub(crate) fn take<S: UndoStore>(&mut self, tour: &S)
        requires { length (S.cities tour.now) ≡ length (best_of self.old) }
        ensures cities { best_of self.new ≡ S.cities tour.now }
        ensures copied { copied_to self.new ≡ saturated (copied_to self.old + length (best_of self.old)) }
    {
        tour.write_order(&mut self.cities);
        self.copied = self.copied.saturating_add(self.cities.len() as u64);
    }

    /// The cities in tour order.
    pub(crate) fn cities(&self) -> &[u32]
        ensures cities { result.now ≡ best_of self.now }
        ensures tour { IsSizedTour result.now }
    {
        self.cities.as_slice()
    }

    /// How many cities have been copied to it.
    pub(crate) fn copied(&self) -> u64
        ensures { result ≡ copied_to self.now }
    {
        self.copied
    }
}
