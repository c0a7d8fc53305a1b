//! Parts that several lines have.
ghost use Rattle.std.specs.Prelude.{◌++◌, codes, decimal};
ghost use Rattle.tk_writers.specs.Pens.{Puts};
ghost use Rattle.tk_writers.specs.Written.{line};
ghost use Rattle.tk_outcomes.specs.Lines.Parts.{work_of};

use tk_writers::{Pen, Sink};

/// Writes a label and its number.
pub(crate) fn put_labelled<W: Sink>(pen: &mut Pen<'_, W>, label: &[u8], number: u64)
    ensures { Puts W.Sink pen.old pen.new (label.now ++ decimal number) }
{
    pen.put(label);
    pen.put_number(number);
}

/// Writes the counts of moves, tests and swaps of descents.
pub(crate) fn put_work<W: Sink>(pen: &mut Pen<'_, W>, moves: u128, tests: u128, swaps: u128)
    ensures { Puts W.Sink pen.old pen.new (work_of moves tests swaps) }
{
    pen.put(b", moves ");
    pen.put_wide(moves);
    pen.put(b", tests ");
    pen.put_wide(tests);
    pen.put(b", swaps ");
    pen.put_wide(swaps);
}

/// Writes the line of a fault at a position of a list, with the number that it is about.
pub(crate) fn put_place_line<W: Sink>(pen: &mut Pen<'_, W>, fault: &[u8], place: u64, number: u64)
    ensures { Puts W.Sink pen.old pen.new
        (line (fault.now ++ decimal place ++ codes ": " ++ decimal number)) }
{
    put_labelled(pen, fault, place);
    put_labelled(pen, b": ", number);
    pen.put(b"\n");
}
