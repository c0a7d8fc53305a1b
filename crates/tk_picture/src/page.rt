//! Writes an HTML page with a picture.
ghost use Rattle.std.specs.Prelude.{IfSome};
ghost use Rattle.tk_writers.specs.Pens.{Puts};
ghost use Rattle.tk_distance.specs.Cities.{IsCity};
ghost use Rattle.tk_picture.specs.PageText.{page_ending, heading, opening, verdict};
ghost use Rattle.tk_picture.specs.Pictures.{Fits, drawing_of, page_of};
ghost use Rattle.tk_picture.specs.Views.{city_count};

mod cities;
mod legs;
mod names;
pub(crate) mod parts;
mod paths;
mod table;

use crate::caption::put_caption;
use crate::name::put_name;
use crate::node_names::NodeNames;
use crate::page::cities::put_cities;
use crate::page::legs::put_leg_lines;
use crate::page::names::put_names;
use crate::page::parts::Parts;
use crate::page::paths::put_paths;
use crate::page::table::put_table;
use crate::picture::{Picture, put_picture, put_title_line};
use tk_writers::{Pen, Sink};

/// Writes the name of a problem as the heading of a page.
fn put_heading<W: Sink>(pen: &mut Pen<'_, W>, name: &[u8])
    ensures { Puts W.Sink pen.old pen.new (heading name.now) }
{
    pen.put(b"<h1><bdi>");
    put_name(pen, name);
    pen.put(b"</bdi></h1>\n");
}

/// Writes the caption of the picture, in the words that the checks print.
fn put_verdict<W: Sink>(pen: &mut Pen<'_, W>, picture: &Picture<'_>)
    ensures { Puts W.Sink pen.old pen.new
        (verdict picture.now.origin (city_count picture.now.view) (drawing_of picture.now.subject)) }
{
    pen.put(b"<p id=\"verdict\">");
    put_caption(pen, picture);
    pen.put(b"</p>\n");
}

/// Writes the text before the picture.
fn put_opening<W: Sink>(pen: &mut Pen<'_, W>, picture: &Picture<'_>, parts: &Parts<'_>)
    ensures { Puts W.Sink pen.old pen.new (opening parts.now picture.now.name.now
        picture.now.origin (city_count picture.now.view) (drawing_of picture.now.subject)) }
{
    pen.put(parts.head);
    pen.put(parts.style);
    pen.put(b"</style>\n");
    put_title_line(pen, picture);
    pen.put(b"<body>\n");
    put_heading(pen, picture.name);
    put_verdict(pen, picture);
    pen.put(b"<div id=\"stage\">\n");
}

/// Writes the text after the data.
fn put_ending<W: Sink>(pen: &mut Pen<'_, W>, parts: &Parts<'_>)
    ensures { Puts W.Sink pen.old pen.new (page_ending parts.now) }
{
    pen.put(parts.tools);
    pen.put(b"<script>\n");
    pen.put(parts.script);
    pen.put(b"</script>\n");
}

/// Writes a page.
pub(crate) fn put_page<W: Sink>(
    pen: &mut Pen<'_, W>,
    picture: &Picture<'_>,
    parts: &Parts<'_>,
    names: &NodeNames<'_>,
)
    requires fits { Fits (city_count picture.now.view) picture.now.subject }
    requires depot { IfSome picture.now.depot (IsCity (city_count picture.now.view)) }
    ensures { Puts W.Sink pen.old pen.new (page_of parts.now names.now picture.now) }
{
    put_opening(pen, picture, parts);
    put_picture(pen, picture);
    pen.put(b"</div>\n");
    put_table(pen, picture.view.size(), picture.subject);
    put_cities(pen, picture);
    put_paths(pen, picture.view.size(), picture.subject);
    put_leg_lines(pen, picture.view.size(), picture.subject);
    put_names(pen, names);
    put_ending(pen, parts);
}
