//! The lines on a problem that was read.
ghost use Rattle.std.specs.Prelude.{◌++◌, OnErr, decimal};
ghost use Rattle.tk_writers.specs.Pens.{Puts};
ghost use Rattle.tk_writers.specs.Puts.{Writes};
ghost use Rattle.tk_writers.specs.Sinks.{IsBroken};
ghost use Rattle.tk_writers.specs.Written.{line};
ghost use Rattle.tk_outcomes.specs.Lines.InfoLines.{area_lines, bounds_line, coordinate_text, distance_lines};
ghost use Rattle.tk_outcomes.specs.Lines.InfoLines.{fraction_digits, fraction_text, info_lines, routing_lines};
ghost use Rattle.tk_outcomes.specs.Lines.InfoLines.{sign_text, whole_line};

use crate::info::{Area, DistanceInfo, ProblemInfo, RoutingInfo};
use crate::lines::labelled::put_labelled;
use tk_problem::SCALE;
use tk_writers::{Pen, Sink, WriteFault};

/// Writes the decimal places of a fraction in units of 10^-9, without zeros at the end.
fn put_digits<W: Sink>(pen: &mut Pen<'_, W>, fraction: u64)
    ensures { Puts W.Sink pen.old pen.new (fraction_digits 9 fraction) }
{
    let mut rest = fraction;
    let mut places = 9;
    while places > 0 && rest > 0 {
        places -= 1;
        let place = 10_u64.pow(places);
        pen.put_number(rest / place);
        rest %= place;
    }
}

/// Writes a fraction in units of 10^-9 after a decimal point; nothing if it is 0.
fn put_fraction<W: Sink>(pen: &mut Pen<'_, W>, fraction: u64)
    ensures { Puts W.Sink pen.old pen.new (fraction_text fraction) }
{
    if fraction > 0 {
        pen.put(b".");
        put_digits(pen, fraction);
    }
}

/// Writes the sign of a negative number.
fn put_sign<W: Sink>(pen: &mut Pen<'_, W>, negative: bool)
    ensures { Puts W.Sink pen.old pen.new (sign_text negative) }
{
    if negative {
        pen.put(b"-");
    }
}

/// Writes a coordinate in units of 10^-9 as a decimal number, without zeros at the end.
pub fn put_coordinate<W: Sink>(pen: &mut Pen<'_, W>, coordinate: i64)
    ensures { Puts W.Sink pen.old pen.new (coordinate_text coordinate) }
{
    let scale = SCALE as u64;
    let magnitude = coordinate.unsigned_abs();
    put_sign(pen, coordinate.is_negative());
    pen.put_number(magnitude / scale);
    put_fraction(pen, magnitude % scale);
}

/// Writes the line of the bounds of an axis.
fn put_bounds<W: Sink>(pen: &mut Pen<'_, W>, axis: &[u8], least: i64, greatest: i64)
    ensures { Puts W.Sink pen.old pen.new (bounds_line axis.now least greatest) }
{
    pen.put(axis);
    put_coordinate(pen, least);
    pen.put(b" to ");
    put_coordinate(pen, greatest);
    pen.put(b"\n");
}

/// Writes whether all coordinates are whole numbers.
fn put_whole<W: Sink>(pen: &mut Pen<'_, W>, whole: bool)
    ensures { Puts W.Sink pen.old pen.new (whole_line whole) }
{
    if whole {
        pen.put(b"coordinates: whole\n");
    } else {
        pen.put(b"coordinates: decimal\n");
    }
}

/// Writes the lines of coordinates.
fn put_area<W: Sink>(pen: &mut Pen<'_, W>, area: &Area)
    ensures { Puts W.Sink pen.old pen.new (area_lines area.now) }
{
    put_whole(pen, area.whole);
    put_bounds(pen, b"x: ", area.left, area.right);
    put_bounds(pen, b"y: ", area.bottom, area.top);
}

/// Writes the lines of distances.
fn put_distances<W: Sink>(pen: &mut Pen<'_, W>, distances: &DistanceInfo)
    ensures { Puts W.Sink pen.old pen.new (distance_lines distances.now) }
{
    match *distances {
        DistanceInfo::Plane(kind, area) => {
            put_text_line(pen, b"distances: ", kind.word().as_bytes());
            put_area(pen, &area);
        }
        DistanceInfo::Explicit => pen.put(b"distances: EXPLICIT\ncoordinates: none\n"),
    }
}

/// Writes a line with a label and a text.
fn put_text_line<W: Sink>(pen: &mut Pen<'_, W>, label: &[u8], text: &[u8])
    ensures { Puts W.Sink pen.old pen.new (line (label.now ++ text.now)) }
{
    pen.put(label);
    pen.put(text);
    pen.put(b"\n");
}

/// Writes a line with a label and a number.
fn put_number_line<W: Sink>(pen: &mut Pen<'_, W>, label: &[u8], number: u64)
    ensures { Puts W.Sink pen.old pen.new (line (label.now ++ decimal number)) }
{
    put_labelled(pen, label, number);
    pen.put(b"\n");
}

/// Writes the lines of routing data.
fn put_routing<W: Sink>(pen: &mut Pen<'_, W>, routing: &Option<RoutingInfo>)
    ensures { Puts W.Sink pen.old pen.new (routing_lines routing.now) }
{
    let Some(routing) = routing else {
        return;
    };
    put_number_line(pen, b"capacity: ", routing.capacity as u64);
    put_number_line(pen, b"depot: ", routing.depot as u64);
    put_number_line(pen, b"total demand: ", routing.demand);
    put_number_line(pen, b"vehicles: at least ", routing.vehicles);
}

/// Writes the lines on a problem to a pen.
fn put_info<W: Sink>(pen: &mut Pen<'_, W>, info: &ProblemInfo)
    ensures { Puts W.Sink pen.old pen.new (info_lines info.now) }
{
    put_text_line(pen, b"name: ", &info.name);
    put_text_line(pen, b"type: ", info.type_word().as_bytes());
    put_number_line(pen, b"dimension: ", info.dimension as u64);
    put_distances(pen, &info.distances);
    put_routing(pen, &info.routing);
}

/// Writes the lines on a problem to a sink.
///
/// # Errors
/// A write failed; the fault contains the number of bytes that were written.
pub fn write_info<W: Sink>(out: &mut W, info: &ProblemInfo) -> Result<(), WriteFault>
    ensures text { Writes W.Sink out.old out.new result (info_lines info.now) }
    ensures failed { OnErr result (IsBroken W.Sink out.new) }
{
    let mut pen = Pen::new(out);
    put_info(&mut pen, info);
    pen.end()
}
