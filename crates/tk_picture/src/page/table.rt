//! Writes the table of routes of a page.
ghost use Rattle.std.specs.Prelude.{◌≡◌, ◌≤◌, [], ◌∷◌, ◌++◌, codes, decimal, flat_map, length, map};
ghost use Rattle.tk_writers.specs.Pens.{Puts};
ghost use Rattle.tk_problem.specs.declared.limits.TheConstants.{CITY_LIMIT};
ghost use Rattle.tk_routes.specs.Cvrps.{instance_of};
ghost use Rattle.tk_picture.specs.DrawnRoutes.{AreCustomers, ServeOnce};
ghost use Rattle.tk_picture.specs.PageText.{row_line, route_row, rows, share};
ghost use Rattle.tk_picture.specs.PageText.{table, table_head, table_start};
ghost use Rattle.tk_picture.specs.Pictures.{Fits, drawing_of};

use crate::subject::Subject;
use tk_routes::Cvrp;
use tk_writers::{Pen, Sink};

/// Writes the headings of the columns.
fn put_table_head<W: Sink>(pen: &mut Pen<'_, W>)
    ensures { Puts W.Sink pen.old pen.new table_head }
{
    pen.put(b"<thead><tr><th scope=\"col\">Route<th scope=\"col\">Customers<th scope=\"col\">Load");
    pen.put(b"<th scope=\"col\">% of capacity<th scope=\"col\">Length\n");
    pen.put(b"<tbody>\n");
}

/// Writes the text before the rows.
fn put_table_start<W: Sink>(pen: &mut Pen<'_, W>, capacity: u32)
    ensures { Puts W.Sink pen.old pen.new (table_start capacity) }
{
    pen.put(b"<div id=\"routes\">\n<table><caption>Routes, capacity ");
    pen.put_number(capacity as u64);
    pen.put(b"</caption>\n");
    put_table_head(pen);
}

/// A load as a percentage of the capacity, rounded down; 0 if the capacity is 0.
fn share(load: u64, capacity: u32) -> u128
    ensures { result ≡ share load capacity }
{
    if capacity == 0 {
        return 0;
    }
    load as u128 * 100 / capacity as u128
}

/// Writes a number in a cell of its own.
fn put_cell<W: Sink>(pen: &mut Pen<'_, W>, number: u64)
    ensures { Puts W.Sink pen.old pen.new (codes "<td>" ++ decimal number) }
{
    pen.put(b"<td>");
    pen.put_number(number);
}

/// Writes the row of a route that has a customer.
fn put_row<W: Sink>(pen: &mut Pen<'_, W>, number: u64, cvrp: &Cvrp<'_>, route: &[u32])
    requires known { AreCustomers cvrp.now route.now }
    requires few { length route.now ≤ CITY_LIMIT }
    ensures { Puts W.Sink pen.old pen.new (row_line (route_row (instance_of cvrp.now) number route.now)) }
{
    let load = cvrp.load(route);
    pen.put(b"<tr><th scope=\"row\">");
    pen.put_number(number);
    put_cell(pen, route.len() as u64);
    put_cell(pen, load);
    pen.put(b"<td>");
    pen.put_wide(share(load, cvrp.capacity()));
    put_cell(pen, cvrp.length(route).unsigned_abs());
    pen.put(b"\n");
}

/// Writes the row of a route, if it has a customer.
fn put_filled<W: Sink>(pen: &mut Pen<'_, W>, number: u64, cvrp: &Cvrp<'_>, route: &[u32])
    requires known { AreCustomers cvrp.now route.now }
    requires few { length route.now ≤ CITY_LIMIT }
    ensures { Puts W.Sink pen.old pen.new
        (flat_map row_line (rows (instance_of cvrp.now) number (route.now ∷ []))) }
{
    if !route.is_empty() {
        put_row(pen, number, cvrp, route);
    }
}

/// Writes the rows of the routes that have a customer.
fn put_rows<W: Sink>(pen: &mut Pen<'_, W>, cvrp: &Cvrp<'_>, routes: &[Vec<u32>])
    requires once { ServeOnce cvrp.now routes.now }
    ensures { Puts W.Sink pen.old pen.new
        (flat_map row_line (rows (instance_of cvrp.now) 1 (map (λ r. r.items) routes.now))) }
{
    let mut number = 0;
    for route in routes {
        number += 1;
        put_filled(pen, number, cvrp, route);
    }
}

/// Writes the table of routes, if there are routes.
pub(crate) fn put_table<W: Sink>(pen: &mut Pen<'_, W>, size: u32, subject: Subject<'_>)
    requires { Fits size subject }
    ensures { Puts W.Sink pen.old pen.new (table (drawing_of subject.entry)) }
{
    if let Subject::Routes { cvrp, routes, .. } = subject {
        put_table_start(pen, cvrp.capacity());
        put_rows(pen, &cvrp, routes);
        pen.put(b"</table>\n</div>\n");
    }
}
