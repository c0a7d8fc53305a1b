//! The colours of closed lines.
ghost use Rattle.std.specs.Prelude.{◌≡◌, ◌<◌, ◌≤◌};
ghost use Rattle.tk_writers.specs.Pens.{Puts};
ghost use Rattle.tk_picture.specs.Colours.{colour, opposite, rgb, there, colour_walk};

use tk_writers::{Pen, Sink};

/// Number of steps of the walk along six edges of the box of colours.
const STEPS: u64 = 1_020;

/// Number of steps from the colour of each line to that of the next.
const STEP: u64 = 389;

/// A colour: its amounts of red, green and blue.
#[derive(Clone, Copy)]
pub struct Colour {
    pub red: u64,
    pub green: u64,
    pub blue: u64,
}

/// The colour after this many steps from red, along three edges of the box.
fn there(steps: u64) -> Colour
    ensures { result ≡ there steps }
{
    Colour {
        red: 150_u64.saturating_sub(steps.saturating_sub(110)),
        green: steps.min(110),
        blue: steps.saturating_sub(260),
    }
}

/// The colour at the opposite point of the box.
fn opposite(colour: Colour) -> Colour
    ensures { result ≡ opposite colour }
{
    Colour {
        red: 150_u64.saturating_sub(colour.red),
        green: 110_u64.saturating_sub(colour.green),
        blue: 250_u64.saturating_sub(colour.blue),
    }
}

/// The colour after this many steps of the walk.
fn walk(steps: u64) -> Colour
    ensures { result ≡ colour_walk steps }
{
    match steps.checked_sub(STEPS / 2) {
        None => there(steps),
        Some(back) => opposite(there(back)),
    }
}

/// Writes a colour, given its components.
fn put_rgb<W: Sink>(pen: &mut Pen<'_, W>, colour: Colour)
    ensures { Puts W.Sink pen.old pen.new (rgb colour) }
{
    pen.put(b"rgb(");
    pen.put_number(colour.red);
    pen.put(b",");
    pen.put_number(colour.green);
    pen.put(b",");
    pen.put_number(colour.blue);
    pen.put(b")");
}

/// Writes the colour of the line with this number, counted from 1.
pub(crate) fn put_colour<W: Sink>(pen: &mut Pen<'_, W>, number: u64)
    requires { 1 ≤ number }
    ensures { Puts W.Sink pen.old pen.new (colour number) }
{
    match number {
        1 => pen.put(b"#0072B2"),
        2 => pen.put(b"#C35050"),
        3 => pen.put(b"#786E00"),
        4 => pen.put(b"#78234B"),
        5 => pen.put(b"#050ABE"),
        6 => pen.put(b"#004100"),
        7 => pen.put(b"#000000"),
        _ => put_rgb(pen, walk(number % STEPS * STEP % STEPS)),
    }
}
