//! Stretches of a ring, by their loads.
ghost use Rattle.std.specs.Prelude.{◌≡◌, ◌+◌, ◌≤◌, true, false};
ghost use Rattle.tk_rings.specs.Rings.{is_closed, join, turned, IsLight};
ghost use Rattle.tk_rings.specs.declared.stretch.Stretch.{Stretch};

/// The loads of a part of a ring.
#[derive(Clone, Copy, PartialEq, Eq)]
pub struct Stretch {
    /// Whether it contains a copy of the depot.
    pub parted: bool,
    /// The load before its first copy, or the whole load if it has none.
    pub head: u64,
    /// The load after its last copy, or the whole load if it has none.
    pub tail: u64,
    /// Whether no route between two of its copies exceeds the capacity.
    pub fits: bool,
}

impl Stretch {
    /// The loads of two parts, one after the other.
    pub fn join(self, other: Stretch, capacity: u64) -> Stretch
        requires one { IsLight self }
        requires two { IsLight other }
        ensures value { result ≡ join capacity self other }
        ensures head { result.head ≤ self.head + self.tail + other.head + other.tail }
        ensures tail { result.tail ≤ self.head + self.tail + other.head + other.tail }
    {
        if !self.parted && !other.parted {
            let load = self.head + other.head;
            Stretch {
                parted: false,
                head: load,
                tail: load,
                fits: true,
            }
        } else if !self.parted {
            Stretch {
                parted: true,
                head: self.head + other.head,
                tail: other.tail,
                fits: other.fits,
            }
        } else if !other.parted {
            Stretch {
                parted: true,
                head: self.head,
                tail: self.tail + other.head,
                fits: self.fits,
            }
        } else {
            Stretch {
                parted: true,
                head: self.head,
                tail: other.tail,
                fits: self.fits && self.tail + other.head <= capacity && other.fits,
            }
        }
    }

    /// The loads of the part in the other direction.
    pub fn turned(self) -> Stretch
        ensures { result ≡ turned self }
    {
        Stretch {
            parted: self.parted,
            head: self.tail,
            tail: self.head,
            fits: self.fits,
        }
    }

    /// Whether it fits as a ring: the load after its last copy is followed by that before its first.
    pub fn is_closed(self, capacity: u64) -> bool
        requires { IsLight self }
        ensures { result ≡ is_closed capacity self }
    {
        if self.parted {
            self.fits && self.tail + self.head <= capacity
        } else {
            self.head <= capacity
        }
    }
}
