//! The best ring of a search.
ghost use Rattle.std.specs.Prelude.{◌≡◌, IfOk, length};
ghost use Rattle.tk_tour.specs.Tour.{IsSizedTour};

use std::alloc::{AllocError, Global};
use tk_tour::UndoStore;

/// The best ring so far, in its order.
#[derive(Drop)]
pub(crate) struct Best {
    elements: Vec<u32>,
    ghost tour: { IsSizedTour elements.items },
}

impl Best {
    ghost use Rattle.tk_ring_search.specs.Best.{best_of};

    /// A copy of a ring.
    ///
    /// # Errors
    /// `AllocError` if memory runs out.
    pub(crate) fn new<S: UndoStore>(alloc: Global, ring: &S) -> Result<Best, AllocError>
        ensures { IfOk result (λ b. best_of b ≡ S.cities ring.now) }
    {
        let mut elements = vec![in alloc; 0u32; ring.size() as usize]?;
        ring.write_order(&mut elements);
        Ok(Best { elements })
    }

    /// Copies a ring of the same number of elements.
    pub(crate) fn take<S: UndoStore>(&mut self, ring: &S)
        requires { length (S.cities ring.now) ≡ length (best_of self.old) }
        ensures { best_of self.new ≡ S.cities ring.now }
    {
        ring.write_order(&mut self.elements);
    }

    /// The elements in their order.
    pub(crate) fn elements(&self) -> &[u32]
        ensures elements { result.now ≡ best_of self.now }
        ensures tour { IsSizedTour result.now }
    {
        self.elements.as_slice()
    }
}
