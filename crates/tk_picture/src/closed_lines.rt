//! Draws closed lines through cities.
ghost use Rattle.std.specs.Prelude.{◌≤◌, All};
ghost use Rattle.tk_writers.specs.Pens.{Puts};
ghost use Rattle.tk_distance.specs.Cities.{IsCity};
ghost use Rattle.tk_picture.specs.PictureText.{closed_line, closed_start};
ghost use Rattle.tk_picture.specs.Views.{city_count, spot_in};

use crate::colour::put_colour;
use crate::view::View;
use tk_writers::{Pen, Sink};

/// Writes the beginning of the closed line with this number, counted from 1.
pub(crate) fn put_closed_start<W: Sink>(pen: &mut Pen<'_, W>, number: u64)
    requires { 1 ≤ number }
    ensures { Puts W.Sink pen.old pen.new (closed_start number) }
{
    pen.put(b"<polygon stroke=\"");
    put_colour(pen, number);
    pen.put(b"\" points=\"\n");
}

/// Writes the closed line through these cities.
pub(crate) fn put_tour<W: Sink>(pen: &mut Pen<'_, W>, view: &View<'_>, cities: &[u32])
    requires { All (IsCity (city_count view.now)) cities.now }
    ensures { Puts W.Sink pen.old pen.new
        (closed_line (spot_in view.now) (record { number = 1; cities = cities.now })) }
{
    put_closed_start(pen, 1);
    view.put_corners(pen, cities);
    pen.put(b"\"/>\n");
}
