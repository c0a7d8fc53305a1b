//! Writes the lengths of the legs of routes, as lines for the script of a page.
ghost use Rattle.std.specs.Prelude.{[], ◌∷◌, codes, flat_map, map};
ghost use Rattle.tk_writers.specs.Pens.{Puts};
ghost use Rattle.tk_distance.specs.Cities.{IsCity};
ghost use Rattle.tk_routes.specs.Cvrps.{instance_of};
ghost use Rattle.tk_picture.specs.Drawings.{each_filled};
ghost use Rattle.tk_picture.specs.DrawnRoutes.{AreCustomers, ServeOnce};
ghost use Rattle.tk_picture.specs.PageText.{leg_word, leg_words, legs_block, legs_line, route_legs};
ghost use Rattle.tk_picture.specs.Pictures.{Fits, drawing_of};

use crate::subject::Subject;
use tk_distance::Metric;
use tk_routes::Cvrp;
use tk_writers::{Pen, Sink};

/// Writes the length of the leg between two nodes, after a space.
fn put_leg<W: Sink>(pen: &mut Pen<'_, W>, cvrp: &Cvrp<'_>, from: u32, to: u32)
    requires from { IsCity (instance_of cvrp.now).size from }
    requires to { IsCity (instance_of cvrp.now).size to }
    ensures { Puts W.Sink pen.old pen.new (leg_word ((instance_of cvrp.now).distance from to)) }
{
    pen.put(b" ");
    pen.put_number(cvrp.table.dist(from, to).unsigned_abs());
}

/// Writes the lengths of the legs of a route, each after a space.
fn put_legs<W: Sink>(pen: &mut Pen<'_, W>, cvrp: &Cvrp<'_>, route: &[u32])
    requires { AreCustomers cvrp.now route.now }
    ensures { Puts W.Sink pen.old pen.new (leg_words (instance_of cvrp.now) route.now) }
{
    let mut from = cvrp.depot();
    for &customer in route {
        let node = cvrp.node(customer);
        put_leg(pen, cvrp, from, node);
        from = node;
    }
    put_leg(pen, cvrp, from, cvrp.depot());
}

/// Writes the line of a route, if it has a customer.
fn put_route<W: Sink>(pen: &mut Pen<'_, W>, number: u64, cvrp: &Cvrp<'_>, route: &[u32])
    requires { AreCustomers cvrp.now route.now }
    ensures { Puts W.Sink pen.old pen.new
        (flat_map legs_line (each_filled (route_legs (instance_of cvrp.now)) number (route.now ∷ []))) }
{
    if route.is_empty() {
        return;
    }
    pen.put_number(number);
    put_legs(pen, cvrp, route);
    pen.put(b"\n");
}

/// Writes the lines of the routes that have a customer.
fn put_routes<W: Sink>(pen: &mut Pen<'_, W>, cvrp: &Cvrp<'_>, routes: &[Vec<u32>])
    requires once { ServeOnce cvrp.now routes.now }
    ensures { Puts W.Sink pen.old pen.new (flat_map legs_line
        (each_filled (route_legs (instance_of cvrp.now)) 1 (map (λ r. r.items) routes.now))) }
{
    let mut number = 0;
    for route in routes {
        number += 1;
        put_route(pen, number, cvrp, route);
    }
}

/// Writes the lengths of the legs of the routes of a page, if there are routes.
pub(crate) fn put_leg_lines<W: Sink>(pen: &mut Pen<'_, W>, size: u32, subject: Subject<'_>)
    requires { Fits size subject }
    ensures { Puts W.Sink pen.old pen.new (legs_block (drawing_of subject.entry)) }
{
    if let Subject::Routes { cvrp, routes, .. } = subject {
        pen.put(b"<script type=\"text/plain\" id=\"legs\">\n");
        put_routes(pen, &cvrp, routes);
        pen.put(b"</script>\n");
    }
}
