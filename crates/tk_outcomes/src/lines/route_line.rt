//! The line with a verdict on routes.
ghost use Rattle.std.specs.Prelude.{◌++◌, OnErr, decimal};
ghost use Rattle.tk_writers.specs.Pens.{Puts};
ghost use Rattle.tk_writers.specs.Puts.{Writes};
ghost use Rattle.tk_writers.specs.Written.{line};
ghost use Rattle.tk_writers.specs.Sinks.{IsBroken};
ghost use Rattle.tk_outcomes.specs.Lines.RouteLine.{route_verdict_line, valid_line, wrong_cost_line};

use crate::lines::labelled::{put_labelled, put_place_line};
use tk_routes::RouteVerdict;
use tk_writers::{Pen, Sink, WriteFault};

/// Writes the line of routes without a fault.
fn put_valid_line<W: Sink>(pen: &mut Pen<'_, W>, routes: u64, cost: u64)
    ensures { Puts W.Sink pen.old pen.new (valid_line routes cost) }
{
    pen.put_number(routes);
    put_labelled(pen, b" routes, cost ", cost);
    pen.put(b"\n");
}

/// Writes the line of a fault of a customer.
fn put_customer_line<W: Sink>(pen: &mut Pen<'_, W>, fault: &[u8], customer: u32)
    ensures { Puts W.Sink pen.old pen.new (line (fault.now ++ decimal customer)) }
{
    put_labelled(pen, fault, customer as u64);
    pen.put(b"\n");
}

/// Writes the line of a cost that is not that of the routes.
fn put_cost_line<W: Sink>(pen: &mut Pen<'_, W>, read: u64, counted: u64)
    ensures { Puts W.Sink pen.old pen.new (wrong_cost_line read counted) }
{
    put_labelled(pen, b"wrong cost: ", read);
    put_labelled(pen, b" read, ", counted);
    pen.put(b" counted\n");
}

/// Writes the line with a verdict on routes to a pen.
fn put_route_verdict<W: Sink>(pen: &mut Pen<'_, W>, verdict: RouteVerdict)
    ensures { Puts W.Sink pen.old pen.new (route_verdict_line verdict) }
{
    match verdict {
        RouteVerdict::Valid { routes, cost } => put_valid_line(pen, routes, cost.unsigned_abs()),
        RouteVerdict::BadCustomer(route, number) => {
            put_place_line(pen, b"bad customer in route ", route, number as u64);
        }
        RouteVerdict::ServedTwice(customer) => {
            put_customer_line(pen, b"customer served twice: ", customer);
        }
        RouteVerdict::OverCapacity(route, load) => {
            put_place_line(pen, b"over capacity in route ", route, load);
        }
        RouteVerdict::NotServed(customer) => {
            put_customer_line(pen, b"customer not served: ", customer);
        }
        RouteVerdict::WrongCost(read, counted) => {
            put_cost_line(pen, read.unsigned_abs(), counted.unsigned_abs());
        }
    }
}

/// Writes the line with a verdict on routes to a sink.
///
/// # Errors
/// A write failed; the fault contains the number of bytes that were written.
pub fn write_route_verdict<W: Sink>(out: &mut W, verdict: RouteVerdict) -> Result<(), WriteFault>
    ensures text { Writes W.Sink out.old out.new result (route_verdict_line verdict) }
    ensures failed { OnErr result (IsBroken W.Sink out.new) }
{
    let mut pen = Pen::new(out);
    put_route_verdict(&mut pen, verdict);
    pen.end()
}
