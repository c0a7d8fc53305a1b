//! The lines that `solve` prints about a search between routes.
ghost use Rattle.std.specs.Prelude.{OnErr};
ghost use Rattle.tk_writers.specs.Pens.{Puts};
ghost use Rattle.tk_writers.specs.Puts.{Writes};
ghost use Rattle.tk_writers.specs.Sinks.{IsBroken};
ghost use Rattle.tk_outcomes.specs.Lines.BetweenLines.{between_lines, costs_of, labelled_routes, ladder_line};
ghost use Rattle.tk_outcomes.specs.Lines.BetweenLines.{route_run_line, routes_line, start_line};
ghost use Rattle.tk_outcomes.specs.Lines.Parts.{numbered};

use crate::lines::labelled::{put_labelled, put_work};
use tk_route_search::{RouteRun, SolvedRoutes};
use tk_writers::{Pen, Sink, WriteFault};

/// Writes a label, a cost and a number of routes.
fn put_routes<W: Sink>(pen: &mut Pen<'_, W>, label: &[u8], cost: u64, routes: u64)
    ensures { Puts W.Sink pen.old pen.new (labelled_routes label.now cost routes) }
{
    put_labelled(pen, label, cost);
    put_labelled(pen, b", routes ", routes);
}

/// Writes the line of routes.
fn put_routes_line<W: Sink>(pen: &mut Pen<'_, W>, label: &[u8], cost: u64, routes: u64)
    ensures { Puts W.Sink pen.old pen.new (routes_line label.now cost routes) }
{
    put_routes(pen, label, cost, routes);
    pen.put(b"\n");
}

/// Writes the line of the savings routes that the runs begin with.
fn put_savings_line<W: Sink>(pen: &mut Pen<'_, W>, cost: u64, routes: u64, candidates: u64)
    ensures { Puts W.Sink pen.old pen.new (ladder_line cost routes candidates) }
{
    put_routes(pen, b"savings ", cost, routes);
    put_labelled(pen, b", candidates ", candidates);
    pen.put(b"\n");
}

/// Writes the line of the routes that the runs begin with.
fn put_start<W: Sink>(pen: &mut Pen<'_, W>, cost: u64, routes: u64, candidates: Option<u32>)
    ensures { Puts W.Sink pen.old pen.new (start_line cost routes candidates) }
{
    match candidates {
        Some(candidates) => put_savings_line(pen, cost, routes, candidates as u64),
        None => put_routes_line(pen, b"initial ", cost, routes),
    }
}

/// Writes the costs of a run and its number of routes.
fn put_costs<W: Sink>(pen: &mut Pen<'_, W>, number: u64, run: &RouteRun)
    ensures { Puts W.Sink pen.old pen.new (costs_of number run.now) }
{
    put_labelled(pen, b"run ", number);
    put_labelled(pen, b": start ", run.totals.start.unsigned_abs());
    put_routes(pen, b", best ", run.best.unsigned_abs(), run.routes as u64);
}

/// Writes the line of a run, numbered from 1, to a pen.
fn put_route_run<W: Sink>(pen: &mut Pen<'_, W>, number: u64, run: &RouteRun)
    ensures { Puts W.Sink pen.old pen.new (route_run_line number run.now) }
{
    let totals = &run.totals;
    put_costs(pen, number, run);
    put_labelled(pen, b", trials ", totals.trials);
    put_work(pen, totals.moves, totals.tests, totals.swaps as u128);
    pen.put(b"\n");
}

/// Writes the lines of all runs.
fn put_route_runs<W: Sink>(pen: &mut Pen<'_, W>, runs: &[RouteRun])
    ensures { Puts W.Sink pen.old pen.new (numbered route_run_line 1 runs.now) }
{
    for i in 0..runs.len() {
        let run = runs[i];
        put_route_run(pen, i as u64 + 1, &run);
    }
}

/// Writes all lines about a search between routes to a pen.
pub(crate) fn put_between_lines<W: Sink>(pen: &mut Pen<'_, W>, solved: &SolvedRoutes)
    ensures { Puts W.Sink pen.old pen.new (between_lines solved.now) }
{
    let start = solved.start.unsigned_abs();
    let best = solved.cost.unsigned_abs();
    put_start(pen, start, solved.start_routes as u64, solved.candidates);
    put_route_runs(pen, &solved.runs);
    put_routes_line(pen, b"best ", best, solved.routes.len() as u64);
}

/// Writes the line of a run of a search between routes, numbered from 1, to a sink.
///
/// # Errors
/// A write failed; the fault contains the number of bytes that were written.
pub fn write_route_run_line<W: Sink>(
    out: &mut W,
    number: u64,
    run: &RouteRun,
) -> Result<(), WriteFault>
    ensures text { Writes W.Sink out.old out.new result (route_run_line number run.now) }
    ensures failed { OnErr result (IsBroken W.Sink out.new) }
{
    let mut pen = Pen::new(out);
    put_route_run(&mut pen, number, run);
    pen.end()
}
