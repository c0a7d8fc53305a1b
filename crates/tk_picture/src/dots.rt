//! Draws cities as points.
ghost use Rattle.std.specs.Prelude.{◌≡◌, ◌++◌, Some, IfSome, codes};
ghost use Rattle.std.specs.List.{range_with_len};
ghost use Rattle.tk_writers.specs.Pens.{Puts};
ghost use Rattle.tk_writers.specs.Written.{line};
ghost use Rattle.tk_distance.specs.Cities.{IsCity};
ghost use Rattle.tk_picture.specs.PictureText.{by_size, city_dots, city_style, depot_mark, dot, dots, has_dots};
ghost use Rattle.tk_picture.specs.Pictures.{drawing_of};
ghost use Rattle.tk_picture.specs.Views.{city_count, spot_in};

use crate::subject::Subject;
use crate::view::View;
use tk_writers::{Pen, Sink};

/// In pictures of at least this many cities, lines and points are thin.
const MANY: u32 = 2_000;

/// The first of two texts for a picture of fewer than `MANY` cities, otherwise the second.
pub(crate) fn by_size<'a>(cities: u32, few: &'a [u8], many: &'a [u8]) -> &'a [u8]
    ensures { result.now ≡ by_size cities few.now many.now }
{
    if cities < MANY { few } else { many }
}

/// Writes a city as a point.
fn put_dot<W: Sink>(pen: &mut Pen<'_, W>, view: &View<'_>, city: u32)
    requires { IsCity (city_count view.now) city }
    ensures { Puts W.Sink pen.old pen.new (dot (spot_in view.now) city) }
{
    pen.put(b"M");
    view.put_spot(pen, city);
    pen.put(b"h0\n");
}

/// Writes the text before the points.
fn put_dots_start<W: Sink>(pen: &mut Pen<'_, W>, cities: u32)
    ensures { Puts W.Sink pen.old pen.new
        (line (codes "<path stroke=\"black\" " ++ city_style cities ++ codes " d=\"")) }
{
    pen.put(b"<path stroke=\"black\" ");
    pen.put(by_size(cities, b"stroke-width=\"60\"", b"stroke-width=\"12\""));
    pen.put(b" d=\"\n");
}

/// Writes all cities as points.
fn put_all_dots<W: Sink>(pen: &mut Pen<'_, W>, view: &View<'_>)
    ensures { Puts W.Sink pen.old pen.new
        (dots (spot_in view.now) (city_style (city_count view.now)) (range_with_len 1 (city_count view.now))) }
{
    put_dots_start(pen, view.size());
    for city in 1..view.size() + 1 {
        put_dot(pen, view, city);
    }
    pen.put(b"\"/>\n");
}

/// Whether a picture of this many cities shows them as points.
fn has_dots(cities: u32, subject: Subject<'_>) -> bool
    ensures { result ≡ has_dots (drawing_of subject.entry) cities }
{
    match subject {
        Subject::Cities => true,
        _ => cities < MANY,
    }
}

/// Writes the cities as points, if the picture shows them.
pub(crate) fn put_city_dots<W: Sink>(pen: &mut Pen<'_, W>, view: &View<'_>, subject: Subject<'_>)
    ensures { Puts W.Sink pen.old pen.new
        (city_dots (spot_in view.now) (city_count view.now) (drawing_of subject.entry)) }
{
    if has_dots(view.size(), subject) {
        put_all_dots(pen, view);
    }
}

/// Writes a depot as a square.
fn put_square<W: Sink>(pen: &mut Pen<'_, W>, view: &View<'_>, depot: u32)
    requires { IsCity (city_count view.now) depot }
    ensures { Puts W.Sink pen.old pen.new (depot_mark (spot_in view.now) (Some depot)) }
{
    pen.put(b"<path fill=\"black\" d=\"M");
    view.put_spot(pen, depot);
    pen.put(b"m-80,-80h160v160h-160z\"/>\n");
}

/// Writes the depot, if there is one.
pub(crate) fn put_depot<W: Sink>(pen: &mut Pen<'_, W>, view: &View<'_>, depot: Option<u32>)
    requires { IfSome depot (IsCity (city_count view.now)) }
    ensures { Puts W.Sink pen.old pen.new (depot_mark (spot_in view.now) depot) }
{
    match depot {
        Some(depot) => put_square(pen, view, depot),
        None => {}
    }
}
