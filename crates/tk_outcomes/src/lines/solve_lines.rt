//! The lines that `solve` prints.
ghost use Rattle.std.specs.Prelude.{◌≤◌, OnErr, flat_map, length};
ghost use Rattle.std.specs.Int.RustNames.{unsigned_abs};
ghost use Rattle.tk_writers.specs.Pens.{Puts};
ghost use Rattle.tk_writers.specs.Puts.{Writes};
ghost use Rattle.tk_writers.specs.Sinks.{IsBroken};
ghost use Rattle.tk_params.specs.Keys.{all_keys};
ghost use Rattle.tk_outcomes.specs.Lines.SolveLines.{best_line, ignored_line, improved_line, route_lines, run_line};
ghost use Rattle.tk_outcomes.specs.Lines.SolveLines.{run_lines, savings_line, search_lines, tour_lines};

use crate::lines::between_lines::put_between_lines;
use crate::lines::labelled::{put_labelled, put_work};
use crate::search::SearchOutcome;
use tk_params::Key;
use tk_routes::RouteReport;
use tk_solve::{RunReport, SolvedTour};
use tk_writers::{Pen, Sink, WriteFault};

/// Writes a line for each key that is read but not used.
fn put_ignored<W: Sink>(pen: &mut Pen<'_, W>, ignored: &[Key])
    ensures { Puts W.Sink pen.old pen.new (flat_map ignored_line ignored.now) }
{
    for i in 0..ignored.len() {
        let key = ignored[i];
        pen.put(b"ignored ");
        pen.put(key.word().as_bytes());
        pen.put(b"\n");
    }
}

/// Writes the line of a run, numbered from 1, to a pen.
fn put_run<W: Sink>(pen: &mut Pen<'_, W>, number: u64, report: &RunReport)
    ensures { Puts W.Sink pen.old pen.new (run_line number report.now) }
{
    let totals = &report.totals;
    put_labelled(pen, b"run ", number);
    put_labelled(pen, b": start ", totals.start.unsigned_abs());
    put_labelled(pen, b", best ", report.best.unsigned_abs());
    pen.put(b", trials ");
    pen.put_wide(totals.trials);
    put_work(pen, totals.moves, totals.tests, totals.swaps);
    pen.put(b"\n");
}

/// Writes the lines of all runs.
fn put_runs<W: Sink>(pen: &mut Pen<'_, W>, runs: &[RunReport])
    ensures { Puts W.Sink pen.old pen.new (run_lines 1 runs.now) }
{
    for i in 0..runs.len() {
        let report = runs[i];
        put_run(pen, i as u64 + 1, &report);
    }
}

/// Writes the line with the best length.
fn put_best<W: Sink>(pen: &mut Pen<'_, W>, length: u64)
    ensures { Puts W.Sink pen.old pen.new (best_line length) }
{
    put_labelled(pen, b"best ", length);
    pen.put(b"\n");
}

/// Writes all lines on the runs of a TSP to a pen.
fn put_tour_lines<W: Sink>(pen: &mut Pen<'_, W>, ignored: &[Key], solved: &SolvedTour)
    ensures { Puts W.Sink pen.old pen.new (tour_lines ignored.now solved.now) }
{
    put_ignored(pen, ignored);
    put_runs(pen, &solved.runs);
    put_best(pen, solved.length.unsigned_abs());
}

/// Writes the line of the routes of the savings algorithm.
fn put_savings<W: Sink>(pen: &mut Pen<'_, W>, cost: u64, routes: u64)
    ensures { Puts W.Sink pen.old pen.new (savings_line cost routes) }
{
    put_labelled(pen, b"savings ", cost);
    put_labelled(pen, b", routes ", routes);
    pen.put(b"\n");
}

/// Writes the line of the improved routes.
fn put_improved<W: Sink>(pen: &mut Pen<'_, W>, cost: u64, report: &RouteReport)
    ensures { Puts W.Sink pen.old pen.new
        (improved_line cost report.now.moves report.now.tests report.now.swaps) }
{
    put_labelled(pen, b"improved ", cost);
    put_work(
        pen,
        report.moves as u128,
        report.tests as u128,
        report.swaps as u128,
    );
    pen.put(b"\n");
}

/// Writes all lines on the routes of a CVRP to a pen; `routes` is their number.
fn put_route_lines<W: Sink>(
    pen: &mut Pen<'_, W>,
    ignored: &[Key],
    routes: u64,
    report: &RouteReport,
)
    ensures { Puts W.Sink pen.old pen.new (route_lines ignored.now routes report.now) }
{
    put_ignored(pen, ignored);
    put_savings(pen, report.before.unsigned_abs(), routes);
    put_improved(pen, report.after.unsigned_abs(), report);
    put_best(pen, report.after.unsigned_abs());
}

/// Writes the line of a run, numbered from 1, to a sink.
///
/// # Errors
/// A write failed; the fault contains the number of bytes that were written.
pub fn write_run_line<W: Sink>(
    out: &mut W,
    number: u64,
    report: &RunReport,
) -> Result<(), WriteFault>
    ensures text { Writes W.Sink out.old out.new result (run_line number report.now) }
    ensures failed { OnErr result (IsBroken W.Sink out.new) }
{
    let mut pen = Pen::new(out);
    put_run(&mut pen, number, report);
    pen.end()
}

/// Writes all lines on the outcome of a search to a pen.
fn put_search_lines<W: Sink>(pen: &mut Pen<'_, W>, ignored: &[Key], outcome: &SearchOutcome)
    ensures { Puts W.Sink pen.old pen.new (search_lines ignored.now outcome.now) }
{
    match outcome {
        SearchOutcome::Tour(found) => put_tour_lines(pen, ignored, &found.solved),
        SearchOutcome::Routes(found) => {
            put_route_lines(pen, ignored, found.routes.len() as u64, &found.report);
        }
        SearchOutcome::Between(found) => {
            put_ignored(pen, ignored);
            put_between_lines(pen, &found.solved);
        }
    }
}

/// Writes all lines on the outcome of a search to a sink, first those of the keys that are not used.
///
/// # Errors
/// A write failed; the fault contains the number of bytes that were written.
pub fn write_search_lines<W: Sink>(
    out: &mut W,
    ignored: &[Key],
    outcome: &SearchOutcome,
) -> Result<(), WriteFault>
    requires { length ignored.now ≤ length all_keys }
    ensures text { Writes W.Sink out.old out.new result (search_lines ignored.now outcome.now) }
    ensures failed { OnErr result (IsBroken W.Sink out.new) }
{
    let mut pen = Pen::new(out);
    put_search_lines(&mut pen, ignored, outcome);
    pen.end()
}
