//! Writes the routes of a CVRP.
ghost use Rattle.std.specs.Prelude.{◌≤◌, length, pos, ◌≤ℤ◌, OnErr};
ghost use Rattle.std.specs.List.{concat};
ghost use Rattle.std.specs.Int.RustNames.{unsigned_abs};
ghost use Rattle.tk_problem.specs.declared.limits.TheConstants.{ENTRY_LIMIT, ROUTE_LIMIT};
ghost use Rattle.tk_lists.specs.Solution.{lists_of};
ghost use Rattle.tk_writers.specs.Pens.{Puts};
ghost use Rattle.tk_writers.specs.Puts.{Writes};
ghost use Rattle.tk_writers.specs.ReadBack.{IsSolution, SolutionReadsBack};
ghost use Rattle.tk_writers.specs.SolutionWritten.{written_route, written_routes, solution_text};
ghost use Rattle.tk_writers.specs.Sinks.{IsBroken};

use crate::output::pen::{Pen, WriteFault};
use crate::output::sink::Sink;

/// Writes the line of a route.
fn put_route<W: Sink>(pen: &mut Pen<'_, W>, number: u64, customers: &[u32])
    ensures { Puts W.Sink pen.old pen.new (written_route number customers.now) }
{
    pen.put(b"Route #");
    pen.put_number(number);
    pen.put(b": ");
    pen.put_spaced(customers);
    pen.put(b"\n");
}

/// Writes the lines of all routes.
fn put_routes<W: Sink>(pen: &mut Pen<'_, W>, routes: &[Vec<u32>])
    ensures { Puts W.Sink pen.old pen.new (written_routes 1 (lists_of routes.now)) }
{
    for (i, route) in routes.iter().enumerate() {
        put_route(pen, i as u64 + 1, route.as_slice());
    }
}

/// Writes the whole text.
fn put_solution<W: Sink>(pen: &mut Pen<'_, W>, routes: &[Vec<u32>], cost: u64)
    ensures { Puts W.Sink pen.old pen.new (solution_text (lists_of routes.now) cost) }
{
    put_routes(pen, routes);
    pen.put(b"Cost ");
    pen.put_number(cost);
    pen.put(b"\n");
}

/// Writes routes, each a list of customers, and their cost. If a solution text can have these routes and this cost, a
/// reader returns them (`read_back`).
///
/// # Errors
/// A write failed; the fault contains the number of bytes that were written.
pub fn write_solution<W: Sink>(w: &mut W, routes: &[Vec<u32>], cost: i64) -> Result<(), WriteFault>
    requires { pos 0 ≤ℤ cost }
    ensures text { Writes W.Sink w.old w.new result
        (solution_text (lists_of routes.now) (unsigned_abs cost)) }
    ensures read_back { IsSolution (lists_of routes.now) (unsigned_abs cost)
        → SolutionReadsBack (lists_of routes.now) (unsigned_abs cost) }
    ensures failed { length routes.now ≤ ROUTE_LIMIT → length (concat (lists_of routes.now)) ≤ ENTRY_LIMIT
        → OnErr result (IsBroken W.Sink w.new) }
{
    let mut pen = Pen::new(w);
    put_solution(&mut pen, routes, cost.unsigned_abs());
    pen.end()
}
