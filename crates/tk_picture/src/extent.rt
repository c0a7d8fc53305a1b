//! The positions of the points of a problem in a picture.
ghost use Rattle.std.specs.Prelude.{◌≡◌};
ghost use Rattle.tk_picture.specs.Sides.{longer_side};

use tk_problem::{Places, Point};

/// The smallest rectangle that contains all points of a problem, in units of 10^-9.
#[derive(Clone, Copy)]
pub struct Extent {
    pub left: i64,
    pub right: i64,
    pub bottom: i64,
    pub top: i64,
    /// The longer side, and at least 1.
    pub side: u64,
    ghost is_side: { side ≡ longer_side left right bottom top },
}

/// The longer side of the rectangle with these corners, and at least 1.
fn side_of(low: Point, high: Point) -> u64
    ensures { result ≡ longer_side low.x high.x low.y high.y }
{
    1.max(high.x.abs_diff(low.x).max(high.y.abs_diff(low.y)))
}

impl Extent {
    ghost use Rattle.std.specs.Prelude.{◌≤◌, length};
    ghost use Rattle.tk_problem.specs.PlacesOf.{places_of};
    ghost use Rattle.tk_picture.specs.Extents.{IsExtent, across, down, drawn_from_left, drawn_from_top};
    ghost use Rattle.tk_picture.specs.Extents.{drawn_height, drawn_width, room_height, view_height};

    /// The extent of these points.
    pub(crate) fn of(places: Places<'_>) -> Extent
        requires { 1 ≤ length (places_of places) }
        ensures { IsExtent (places_of places.entry) result }
    {
        let mut low = places.get(0);
        let mut high = low;
        for i in 1..places.len() {
            let place = places.get(i);
            low.x = low.x.min(place.x);
            low.y = low.y.min(place.y);
            high.x = high.x.max(place.x);
            high.y = high.y.max(place.y);
        }
        Extent {
            left: low.x,
            right: high.x,
            bottom: low.y,
            top: high.y,
            side: side_of(low, high),
        }
    }

    /// The distance of a point from the left side, in ten-thousandths of the longer side.
    pub(crate) fn across(&self, place: Point) -> u128
        ensures { result ≡ across self.now place }
    {
        place.x.abs_diff(self.left) as u128 * 10_000 / self.side as u128
    }

    /// The distance of a point from the top, in ten-thousandths of the longer side.
    pub(crate) fn down(&self, place: Point) -> u128
        ensures { result ≡ down self.now place }
    {
        self.top.abs_diff(place.y) as u128 * 10_000 / self.side as u128
    }

    /// The width of the drawing, in thousandths of the longer side.
    fn drawn_width(&self) -> u128
        ensures { result ≡ drawn_width self.now }
    {
        (self.right.abs_diff(self.left) as u128 * 1_000).div_ceil(self.side as u128)
    }

    /// The height of the drawing, in thousandths of the longer side.
    fn drawn_height(&self) -> u128
        ensures { result ≡ drawn_height self.now }
    {
        (self.top.abs_diff(self.bottom) as u128 * 1_000).div_ceil(self.side as u128)
    }

    /// The height of the room for the drawing.
    fn room_height(&self) -> u128
        ensures { result ≡ room_height self.now }
    {
        200.max(self.drawn_height())
    }

    /// The height of the view of a picture.
    pub(crate) fn view_height(&self) -> u128
        ensures { result ≡ view_height self.now }
    {
        80 + self.room_height()
    }

    /// The distance of the drawing from the left of the view.
    pub(crate) fn drawn_from_left(&self) -> u128
        ensures { result ≡ drawn_from_left self.now }
    {
        20 + 1_000_u128.saturating_sub(self.drawn_width()) / 2
    }

    /// The distance of the drawing from the top of the view.
    pub(crate) fn drawn_from_top(&self) -> u128
        ensures { result ≡ drawn_from_top self.now }
    {
        60 + self.room_height().saturating_sub(self.drawn_height()) / 2
    }
}
