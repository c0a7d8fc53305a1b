//! Writes the closed lines of a page, as lines of cities for its script.
ghost use Rattle.std.specs.Prelude.{[], ◌∷◌, codes, flat_map, map};
ghost use Rattle.tk_writers.specs.Pens.{Puts};
ghost use Rattle.tk_routes.specs.Cvrps.{instance_of};
ghost use Rattle.tk_picture.specs.Drawings.{paths_of, route_paths};
ghost use Rattle.tk_picture.specs.DrawnRoutes.{AreCustomers, ServeOnce};
ghost use Rattle.tk_picture.specs.PageText.{data_block, path_line};
ghost use Rattle.tk_picture.specs.Pictures.{Fits, drawing_of};

use crate::subject::Subject;
use tk_routes::Cvrp;
use tk_writers::{Pen, Sink};

/// Writes the cities of a tour on one line.
fn put_tour<W: Sink>(pen: &mut Pen<'_, W>, cities: &[u32])
    ensures { Puts W.Sink pen.old pen.new (path_line (record { number = 1; cities = cities.now })) }
{
    pen.put_spaced(cities);
    pen.put(b"\n");
}

/// Writes the depot and the nodes of a route's customers on one line, if it has a customer.
fn put_route<W: Sink>(pen: &mut Pen<'_, W>, number: u64, cvrp: &Cvrp<'_>, route: &[u32])
    requires { AreCustomers cvrp.now route.now }
    ensures { Puts W.Sink pen.old pen.new
        (flat_map path_line (route_paths (instance_of cvrp.now) number (route.now ∷ []))) }
{
    if route.is_empty() {
        return;
    }
    pen.put_number(cvrp.depot() as u64);
    for customer in route {
        pen.put(b" ");
        pen.put_number(cvrp.node(*customer) as u64);
    }
    pen.put(b"\n");
}

/// Writes the lines of the routes that have a customer.
fn put_routes<W: Sink>(pen: &mut Pen<'_, W>, cvrp: &Cvrp<'_>, routes: &[Vec<u32>])
    requires once { ServeOnce cvrp.now routes.now }
    ensures { Puts W.Sink pen.old pen.new
        (flat_map path_line (route_paths (instance_of cvrp.now) 1 (map (λ r. r.items) routes.now))) }
{
    let mut number = 0;
    for route in routes {
        number += 1;
        put_route(pen, number, cvrp, route);
    }
}

/// Writes the lines of a tour or of routes.
fn put_path_lines<W: Sink>(pen: &mut Pen<'_, W>, size: u32, subject: Subject<'_>)
    requires { Fits size subject }
    ensures { Puts W.Sink pen.old pen.new (flat_map path_line (paths_of (drawing_of subject.entry))) }
{
    match subject {
        Subject::Cities => {}
        Subject::Tour { cities, .. } => put_tour(pen, cities),
        Subject::Routes { cvrp, routes, .. } => put_routes(pen, &cvrp, routes),
    }
}

/// Writes the closed lines of a page.
pub(crate) fn put_paths<W: Sink>(pen: &mut Pen<'_, W>, size: u32, subject: Subject<'_>)
    requires { Fits size subject }
    ensures { Puts W.Sink pen.old pen.new
        (data_block (codes "paths") (flat_map path_line (paths_of (drawing_of subject.entry)))) }
{
    pen.put(b"<script type=\"text/plain\" id=\"paths\">\n");
    put_path_lines(pen, size, subject);
    pen.put(b"</script>\n");
}
