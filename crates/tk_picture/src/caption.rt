//! The title of a picture.
ghost use Rattle.std.specs.Prelude.{◌++◌, codes, decimal};
ghost use Rattle.tk_writers.specs.Pens.{Puts};
ghost use Rattle.tk_picture.specs.Drawings.{caption, caption_of, origin_words, section_words};
ghost use Rattle.tk_picture.specs.PictureText.{title};
ghost use Rattle.tk_picture.specs.Pictures.{drawing_of};
ghost use Rattle.tk_picture.specs.Views.{city_count};

use crate::name::put_name;
use crate::picture::Picture;
use crate::subject::Subject;
use tk_problem_text::PlacesOrigin;
use tk_writers::{Pen, Sink};

/// Writes the number of cities.
fn put_cities<W: Sink>(pen: &mut Pen<'_, W>, cities: u32)
    ensures { Puts W.Sink pen.old pen.new (decimal cities ++ codes " cities") }
{
    pen.put_number(cities as u64);
    pen.put(b" cities");
}

/// Writes the number of cities of a tour, and its length.
fn put_tour<W: Sink>(pen: &mut Pen<'_, W>, cities: u32, length: u64)
    ensures { Puts W.Sink pen.old pen.new
        (codes "tour of " ++ decimal cities ++ codes " cities, length " ++ decimal length) }
{
    pen.put(b"tour of ");
    pen.put_number(cities as u64);
    pen.put(b" cities, length ");
    pen.put_number(length);
}

/// Writes the number of routes, and their cost.
fn put_routes<W: Sink>(pen: &mut Pen<'_, W>, count: u64, cost: u64)
    ensures { Puts W.Sink pen.old pen.new (decimal count ++ codes " routes, cost " ++ decimal cost) }
{
    pen.put_number(count);
    pen.put(b" routes, cost ");
    pen.put_number(cost);
}

/// Writes what is drawn.
fn put_subject<W: Sink>(pen: &mut Pen<'_, W>, picture: &Picture<'_>)
    ensures { Puts W.Sink pen.old pen.new
        (caption_of (city_count picture.now.view) (drawing_of picture.now.subject)) }
{
    let cities = picture.view.size();
    match picture.subject {
        Subject::Cities => put_cities(pen, cities),
        Subject::Tour { length, .. } => put_tour(pen, cities, length),
        Subject::Routes { count, cost, .. } => put_routes(pen, count, cost),
    }
}

/// Writes the section that has the places of the cities.
fn put_section<W: Sink>(pen: &mut Pen<'_, W>, origin: PlacesOrigin)
    ensures { Puts W.Sink pen.old pen.new (section_words origin) }
{
    match origin {
        PlacesOrigin::DisplayData => pen.put(b", places: display data of the file"),
        PlacesOrigin::NodeCoordinates => pen.put(b", places: node coordinates of the file"),
    }
}

/// Writes the section that has the places of the cities, if the distances do not depend on them.
fn put_origin<W: Sink>(pen: &mut Pen<'_, W>, origin: Option<PlacesOrigin>)
    ensures { Puts W.Sink pen.old pen.new (origin_words origin) }
{
    if let Some(origin) = origin {
        put_section(pen, origin);
    }
}

/// Writes the caption of a picture.
pub(crate) fn put_caption<W: Sink>(pen: &mut Pen<'_, W>, picture: &Picture<'_>)
    ensures { Puts W.Sink pen.old pen.new
        (caption picture.now.origin (city_count picture.now.view) (drawing_of picture.now.subject)) }
{
    put_subject(pen, picture);
    put_origin(pen, picture.origin);
}

/// Writes the title of a picture: its name and its caption.
pub(crate) fn put_title<W: Sink>(pen: &mut Pen<'_, W>, picture: &Picture<'_>)
    ensures { Puts W.Sink pen.old pen.new
        (title picture.now.name.now picture.now.origin (city_count picture.now.view) (drawing_of picture.now.subject)) }
{
    put_name(pen, picture.name);
    pen.put(b": ");
    put_caption(pen, picture);
}
