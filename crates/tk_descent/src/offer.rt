//! Offers: the moves that a look tries.

/// A move that a look tries, given by the ends of the edges that it replaces.
#[derive(Clone, Copy, Debug)]
pub enum Offer {
    /// The 2-opt move that replaces the edges a-b and c-d by a-c and b-d.
    Two {
        a: u32,
        b: u32,
        c: u32,
        d: u32,
    },
    /// The Or-opt move of the segment from x to e, which lies between a and b, to between y and w. The segment runs
    /// forwards if x comes right after a on the tour, and otherwise backwards.
    Or {
        a: u32,
        x: u32,
        e: u32,
        b: u32,
        y: u32,
        w: u32,
    },
}

/// An offer and its gain.
#[derive(Clone, Copy)]
pub struct Found {
    pub offer: Offer,
    pub gain: i64,
}

/// A segment of at most three cities that begins at a city x, and the cities before and after it. Its cities are x,
/// `middle` and `last`. If there are fewer than three, some of these are equal.
#[derive(Clone, Copy)]
pub(crate) struct Segment {
    pub before: u32,
    pub middle: u32,
    pub last: u32,
    pub after: u32,
}
