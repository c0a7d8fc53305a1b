//! Writes the numbers of routes.
ghost use Rattle.std.specs.Prelude.{◌≡◌, ◌≤◌, [], ◌∷◌, ◌++◌, codes, flat_map, map};
ghost use Rattle.tk_writers.specs.Pens.{Puts};
ghost use Rattle.tk_distance.specs.Cities.{IsCity};
ghost use Rattle.tk_routes.specs.Cvrps.{instance_of};
ghost use Rattle.tk_picture.specs.Drawings.{route_paths};
ghost use Rattle.tk_picture.specs.DrawnRoutes.{AreCustomers, RoutesFit};
ghost use Rattle.tk_picture.specs.PictureText.{halo_start, mark, number_mark, numbers_start};
ghost use Rattle.tk_picture.specs.Views.{city_count, spot_in};

use crate::colour::put_colour;
use crate::dots::by_size;
use crate::view::View;
use tk_routes::Cvrp;
use tk_writers::{Pen, Sink};

/// Writes the text before the numbers.
pub(crate) fn put_numbers_start<W: Sink>(pen: &mut Pen<'_, W>, cities: u32)
    ensures { Puts W.Sink pen.old pen.new (numbers_start cities) }
{
    pen.put(
        b"<g font-family=\"sans-serif\" font-weight=\"bold\" text-anchor=\"middle\" font-size=\"",
    );
    pen.put(by_size(cities, b"140", b"60"));
    pen.put(b"\">\n");
}

/// Writes the beginning of a group of numbers with a white outline.
pub(crate) fn put_halo_start<W: Sink>(pen: &mut Pen<'_, W>, cities: u32)
    ensures { Puts W.Sink pen.old pen.new (halo_start cities) }
{
    pen.put(b"<g class=\"halo\" aria-hidden=\"true\" stroke=\"white\" stroke-width=\"");
    pen.put(by_size(cities, b"40", b"17"));
    pen.put(b"\">\n");
}

/// Writes the beginning of a number over a city, up to its colour.
fn put_mark_start<W: Sink>(pen: &mut Pen<'_, W>, view: &View<'_>, city: u32)
    requires { IsCity (city_count view.now) city }
    ensures { Puts W.Sink pen.old pen.new
        (codes "<text transform=\"translate(" ++ spot_in view.now city ++ codes ")\" dy=\"-.4em\" fill=\"") }
{
    pen.put(b"<text transform=\"translate(");
    view.put_spot(pen, city);
    pen.put(b")\" dy=\"-.4em\" fill=\"");
}

/// Writes a number over a city.
fn put_mark<W: Sink>(pen: &mut Pen<'_, W>, view: &View<'_>, number: u64, city: u32)
    requires known { IsCity (city_count view.now) city }
    requires number { 1 ≤ number }
    ensures { Puts W.Sink pen.old pen.new (mark number (spot_in view.now city)) }
{
    put_mark_start(pen, view, city);
    put_colour(pen, number);
    pen.put(b"\">");
    pen.put_number(number);
    pen.put(b"</text>\n");
}

/// Writes the number of a route over its first customer, if it has one.
fn put_number<W: Sink>(
    pen: &mut Pen<'_, W>,
    view: &View<'_>,
    number: u64,
    cvrp: &Cvrp<'_>,
    route: &[u32],
)
    requires size { (instance_of cvrp.now).size ≡ city_count view.now }
    requires known { AreCustomers cvrp.now route.now }
    requires number { 1 ≤ number }
    ensures { Puts W.Sink pen.old pen.new
        (flat_map (number_mark (spot_in view.now)) (route_paths (instance_of cvrp.now) number (route.now ∷ []))) }
{
    if let Some(first) = route.first() {
        put_mark(pen, view, number, cvrp.node(*first));
    }
}

/// Writes the numbers of the routes that have a customer.
pub(crate) fn put_numbers<W: Sink>(
    pen: &mut Pen<'_, W>,
    view: &View<'_>,
    cvrp: &Cvrp<'_>,
    routes: &[Vec<u32>],
)
    requires { RoutesFit (city_count view.now) cvrp.now routes.now }
    ensures { Puts W.Sink pen.old pen.new (flat_map (number_mark (spot_in view.now))
        (route_paths (instance_of cvrp.now) 1 (map (λ r. r.items) routes.now))) }
{
    let mut number = 0;
    for route in routes {
        number += 1;
        put_number(pen, view, number, cvrp, route);
    }
}
