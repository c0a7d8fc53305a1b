//! Draws the lines of routes.
ghost use Rattle.std.specs.Prelude.{◌≡◌, ◌≤◌, [], ◌∷◌, flat_map, length, map};
ghost use Rattle.tk_writers.specs.Pens.{Puts};
ghost use Rattle.tk_routes.specs.Cvrps.{instance_of};
ghost use Rattle.tk_picture.specs.Drawings.{route_path, route_paths};
ghost use Rattle.tk_picture.specs.DrawnRoutes.{AreCustomers, RoutesFit};
ghost use Rattle.tk_picture.specs.PictureText.{at_depot, between_customers, closed_line, open_line, open_start};
ghost use Rattle.tk_picture.specs.PictureText.{pale_start, part_line, parted_lines, route_lines};
ghost use Rattle.tk_picture.specs.Views.{city_count, spot_in};

use crate::closed_lines::put_closed_start;
use crate::colour::put_colour;
use crate::dots::by_size;
use crate::part::Part;
use crate::view::View;
use tk_routes::Cvrp;
use tk_writers::{Pen, Sink};

/// From this number of routes on, the lines to and from the depot are thinner and paler.
const MANY: u64 = 20;

/// Writes the beginning of the open line with this number, counted from 1.
fn put_open_start<W: Sink>(pen: &mut Pen<'_, W>, number: u64)
    requires { 1 ≤ number }
    ensures { Puts W.Sink pen.old pen.new (open_start number) }
{
    pen.put(b"<polyline stroke=\"");
    put_colour(pen, number);
    pen.put(b"\" points=\"\n");
}

/// Writes the closed line through the depot and the customers of a route.
fn put_whole<W: Sink>(
    pen: &mut Pen<'_, W>,
    view: &View<'_>,
    number: u64,
    cvrp: &Cvrp<'_>,
    route: &[u32],
)
    requires size { (instance_of cvrp.now).size ≡ city_count view.now }
    requires known { AreCustomers cvrp.now route.now }
    requires number { 1 ≤ number }
    ensures { Puts W.Sink pen.old pen.new
        (closed_line (spot_in view.now) (route_path (instance_of cvrp.now) number route.now)) }
{
    put_closed_start(pen, number);
    view.put_stops(pen, cvrp, route);
    pen.put(b"\"/>\n");
}

/// Writes the line between the customers of a route.
fn put_between<W: Sink>(
    pen: &mut Pen<'_, W>,
    view: &View<'_>,
    number: u64,
    cvrp: &Cvrp<'_>,
    route: &[u32],
)
    requires size { (instance_of cvrp.now).size ≡ city_count view.now }
    requires known { AreCustomers cvrp.now route.now }
    requires number { 1 ≤ number }
    ensures { Puts W.Sink pen.old pen.new (open_line (spot_in view.now)
        (between_customers (route_path (instance_of cvrp.now) number route.now))) }
{
    put_open_start(pen, number);
    view.put_customers(pen, cvrp, route);
    pen.put(b"\"/>\n");
}

/// Writes the line from the last customer of a route to the depot and on to the first customer.
fn put_at_depot<W: Sink>(
    pen: &mut Pen<'_, W>,
    view: &View<'_>,
    number: u64,
    cvrp: &Cvrp<'_>,
    route: &[u32],
)
    requires size { (instance_of cvrp.now).size ≡ city_count view.now }
    requires known { AreCustomers cvrp.now route.now }
    requires some { 1 ≤ length route.now }
    requires number { 1 ≤ number }
    ensures { Puts W.Sink pen.old pen.new (open_line (spot_in view.now)
        (at_depot (route_path (instance_of cvrp.now) number route.now))) }
{
    put_open_start(pen, number);
    view.put_corner(pen, cvrp.node(route[route.len() - 1]));
    view.put_corner(pen, cvrp.depot());
    view.put_corner(pen, cvrp.node(route[0]));
    pen.put(b"\"/>\n");
}

/// Writes a part of the closed line of a route that has a customer.
fn put_part<W: Sink>(
    pen: &mut Pen<'_, W>,
    view: &View<'_>,
    part: Part,
    number: u64,
    cvrp: &Cvrp<'_>,
    route: &[u32],
)
    requires size { (instance_of cvrp.now).size ≡ city_count view.now }
    requires known { AreCustomers cvrp.now route.now }
    requires some { 1 ≤ length route.now }
    requires number { 1 ≤ number }
    ensures { Puts W.Sink pen.old pen.new
        (part_line part (spot_in view.now) (route_path (instance_of cvrp.now) number route.now)) }
{
    match part {
        Part::Whole => put_whole(pen, view, number, cvrp, route),
        Part::Customers => put_between(pen, view, number, cvrp, route),
        Part::Depot => put_at_depot(pen, view, number, cvrp, route),
    }
}

/// Writes a part of the closed line of a route, if it has a customer.
fn put_route<W: Sink>(
    pen: &mut Pen<'_, W>,
    view: &View<'_>,
    part: Part,
    number: u64,
    cvrp: &Cvrp<'_>,
    route: &[u32],
)
    requires size { (instance_of cvrp.now).size ≡ city_count view.now }
    requires known { AreCustomers cvrp.now route.now }
    requires number { 1 ≤ number }
    ensures { Puts W.Sink pen.old pen.new (flat_map (part_line part (spot_in view.now))
        (route_paths (instance_of cvrp.now) number (route.now ∷ []))) }
{
    if !route.is_empty() {
        put_part(pen, view, part, number, cvrp, route);
    }
}

/// Writes a part of the closed line of each route that has a customer.
fn put_routes<W: Sink>(
    pen: &mut Pen<'_, W>,
    view: &View<'_>,
    part: Part,
    cvrp: &Cvrp<'_>,
    routes: &[Vec<u32>],
)
    requires { RoutesFit (city_count view.now) cvrp.now routes.now }
    ensures { Puts W.Sink pen.old pen.new (flat_map (part_line part (spot_in view.now))
        (route_paths (instance_of cvrp.now) 1 (map (λ r. r.items) routes.now))) }
{
    let mut number = 0;
    for route in routes {
        number += 1;
        put_route(pen, view, part, number, cvrp, route);
    }
}

/// Writes the beginning of a group of thinner, paler lines.
fn put_pale_start<W: Sink>(pen: &mut Pen<'_, W>, cities: u32)
    ensures { Puts W.Sink pen.old pen.new (pale_start cities) }
{
    pen.put(b"<g class=\"depot-lines\" stroke-opacity=\".5\" stroke-width=\"");
    pen.put(by_size(cities, b"8", b"3"));
    pen.put(b"\">\n");
}

/// Writes the lines to and from the depot, and then those between the customers.
fn put_parted<W: Sink>(pen: &mut Pen<'_, W>, view: &View<'_>, cvrp: &Cvrp<'_>, routes: &[Vec<u32>])
    requires { RoutesFit (city_count view.now) cvrp.now routes.now }
    ensures { Puts W.Sink pen.old pen.new (parted_lines (spot_in view.now) (city_count view.now)
        (route_paths (instance_of cvrp.now) 1 (map (λ r. r.items) routes.now))) }
{
    put_pale_start(pen, view.size());
    put_routes(pen, view, Part::Depot, cvrp, routes);
    pen.put(b"</g>\n");
    put_routes(pen, view, Part::Customers, cvrp, routes);
}

/// Writes the lines of routes, of which `count` have a customer.
pub(crate) fn put_route_lines<W: Sink>(
    pen: &mut Pen<'_, W>,
    view: &View<'_>,
    cvrp: &Cvrp<'_>,
    routes: &[Vec<u32>],
    count: u64,
)
    requires { RoutesFit (city_count view.now) cvrp.now routes.now }
    ensures { Puts W.Sink pen.old pen.new (route_lines (spot_in view.now) (city_count view.now) count
        (route_paths (instance_of cvrp.now) 1 (map (λ r. r.items) routes.now))) }
{
    if count < MANY {
        put_routes(pen, view, Part::Whole, cvrp, routes);
    } else {
        put_parted(pen, view, cvrp, routes);
    }
}
