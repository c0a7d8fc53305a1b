//! Walks along a ring.
ghost use Rattle.std.specs.Prelude.{◌≡◌};
ghost use Rattle.tk_rings.specs.Walking.{back};

/// A walk along a path of a ring: its first and its last element, and its direction.
#[derive(Clone, Copy)]
pub(crate) struct Walk {
    /// The element where it begins.
    pub from: u32,
    /// The element where it ends.
    pub to: u32,
    /// Whether it goes from each element to the next on the ring, and not to the previous one.
    pub forward: bool,
}

impl Walk {
    /// The walk along the same path in the other direction.
    #[inline]
    pub fn back(self) -> Walk
        ensures { result ≡ back self }
    {
        Walk {
            from: self.to,
            to: self.from,
            forward: !self.forward,
        }
    }
}
