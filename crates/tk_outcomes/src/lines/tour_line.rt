//! The line with the outcome of the check of a tour.
ghost use Rattle.std.specs.Prelude.{◌≡◌, OnErr};
ghost use Rattle.tk_writers.specs.Pens.{Puts};
ghost use Rattle.tk_writers.specs.Puts.{Writes};
ghost use Rattle.tk_writers.specs.Written.{tour_line, wrong_count_line};
ghost use Rattle.tk_writers.specs.Sinks.{IsBroken};
ghost use Rattle.tk_outcomes.specs.Lines.TourLine.{outcome_line};

use crate::lines::labelled::{put_labelled, put_place_line};
use crate::tour::TourOutcome;
use tk_writers::{Pen, Sink, WriteFault};

/// Writes the line of a tour.
fn put_tour_line<W: Sink>(pen: &mut Pen<'_, W>, cities: u32, length: u64)
    ensures { Puts W.Sink pen.old pen.new (tour_line cities length) }
{
    put_labelled(pen, b"tour of ", cities as u64);
    put_labelled(pen, b" cities, length ", length);
    pen.put(b"\n");
}

/// Writes the line of a list with a wrong number of cities.
fn put_count_line<W: Sink>(pen: &mut Pen<'_, W>, wanted: u32, read: u64)
    ensures { Puts W.Sink pen.old pen.new (wrong_count_line wanted read) }
{
    put_labelled(pen, b"wrong count: ", wanted as u64);
    put_labelled(pen, b" wanted, ", read);
    pen.put(b" read\n");
}

/// Writes the line of an outcome to a pen.
fn put_outcome<W: Sink>(pen: &mut Pen<'_, W>, outcome: &TourOutcome)
    ensures { Puts W.Sink pen.old pen.new (outcome_line outcome.now) }
{
    match *outcome {
        TourOutcome::Tour { cities, length } => put_tour_line(pen, cities, length),
        TourOutcome::WrongCount { wanted, read } => put_count_line(pen, wanted, read),
        TourOutcome::OutOfRange { place, city } => {
            put_place_line(pen, b"out of range at place ", place as u64, city as u64);
        }
        TourOutcome::RepeatedCity { place, city } => {
            put_place_line(pen, b"repeated city at place ", place as u64, city as u64);
        }
    }
}

/// Writes the line of an outcome to a sink.
///
/// # Errors
/// A write failed; the fault contains the number of bytes that were written.
pub fn write_tour_outcome<W: Sink>(out: &mut W, outcome: &TourOutcome) -> Result<(), WriteFault>
    ensures text { Writes W.Sink out.old out.new result (outcome_line outcome.now) }
    ensures failed { OnErr result (IsBroken W.Sink out.new) }
{
    let mut pen = Pen::new(out);
    put_outcome(&mut pen, outcome);
    pen.end()
}
