//! Writes tours.
ghost use Rattle.std.specs.Prelude.{◌≤◌, length as count, pos, ◌≤ℤ◌, decimal, flat_map, OnErr};
ghost use Rattle.std.specs.Int.RustNames.{unsigned_abs};
ghost use Rattle.tk_problem.specs.declared.limits.TheConstants.{ENTRY_LIMIT};
ghost use Rattle.tk_writers.specs.Pens.{Puts};
ghost use Rattle.tk_writers.specs.Puts.{Writes};
ghost use Rattle.tk_writers.specs.ReadBack.{IsTourText, TourReadsBack};
ghost use Rattle.tk_writers.specs.TourWritten.{tour_head, tour_text};
ghost use Rattle.tk_writers.specs.Written.{line};
ghost use Rattle.tk_writers.specs.Sinks.{IsBroken};

use crate::output::pen::{Pen, WriteFault};
use crate::output::sink::Sink;

/// Writes the lines before the cities.
fn put_tour_head<W: Sink>(pen: &mut Pen<'_, W>, name: &[u8], size: u64, cities: u64)
    ensures { Puts W.Sink pen.old pen.new (flat_map line (tour_head name.now size cities)) }
{
    pen.put(b"NAME : ");
    pen.put(name);
    pen.put(b".");
    pen.put_number(size);
    pen.put(b".tour\nCOMMENT : Length = ");
    pen.put_number(size);
    pen.put(b"\nTYPE : TOUR\nDIMENSION : ");
    pen.put_number(cities);
    pen.put(b"\nTOUR_SECTION\n");
}

/// Writes each city on a line of its own.
fn put_cities<W: Sink>(pen: &mut Pen<'_, W>, cities: &[u32])
    ensures { Puts W.Sink pen.old pen.new (flat_map (λ c. line (decimal c)) cities.now) }
{
    for city in cities {
        pen.put_number(*city as u64);
        pen.put(b"\n");
    }
}

/// Writes the whole text.
fn put_tour<W: Sink>(pen: &mut Pen<'_, W>, name: &[u8], size: u64, cities: &[u32])
    ensures { Puts W.Sink pen.old pen.new (tour_text name.now size cities.now) }
{
    put_tour_head(pen, name, size, cities.len() as u64);
    put_cities(pen, cities);
    pen.put(b"-1\nEOF\n");
}

/// Writes a tour of an instance with this name: its length, and its cities in their order. If a tour text can have this
/// name, length and list of cities, a reader returns the cities (`read_back`).
///
/// # Errors
/// A write failed; the fault contains the number of bytes that were written.
pub fn write_tour<W: Sink>(
    w: &mut W,
    name: &[u8],
    length: i64,
    cities: &[u32],
) -> Result<(), WriteFault>
    requires { pos 0 ≤ℤ length }
    ensures text { Writes W.Sink w.old w.new result (tour_text name.now (unsigned_abs length) cities.now) }
    ensures read_back { IsTourText name.now (unsigned_abs length) cities.now
        → TourReadsBack name.now (unsigned_abs length) cities.now }
    ensures failed { count name.now ≤ 1024 → count cities.now ≤ ENTRY_LIMIT → OnErr result (IsBroken W.Sink w.new) }
{
    let mut pen = Pen::new(w);
    put_tour(&mut pen, name, length.unsigned_abs(), cities);
    pen.end()
}
