//! Writes the cities of a page, as lines for its script.
ghost use Rattle.std.specs.Prelude.{◌-◌, flat_map, codes, option_copied};
ghost use Rattle.std.specs.Fmt.{signed_decimal};
ghost use Rattle.std.specs.List.{range_with_len};
ghost use Rattle.tk_problem.specs.PlacesOf.{places_of};
ghost use Rattle.tk_writers.specs.Pens.{Puts};
ghost use Rattle.tk_distance.specs.Cities.{IsCity};
ghost use Rattle.tk_picture.specs.PageText.{data_block, city_line, coordinates, demand_word, depot_word};
ghost use Rattle.tk_picture.specs.Views.{city_count};

use crate::picture::Picture;
use crate::view::View;
use tk_writers::{Pen, Sink};

/// Writes an integer.
fn put_signed<W: Sink>(pen: &mut Pen<'_, W>, number: i64)
    ensures { Puts W.Sink pen.old pen.new (signed_decimal number) }
{
    if number < 0 {
        pen.put(b"-");
        pen.put_number(number.unsigned_abs());
    } else {
        pen.put_number(number as u64);
    }
}

/// Writes the coordinates of a city, in units of 10^-9.
fn put_coordinates<W: Sink>(pen: &mut Pen<'_, W>, view: &View<'_>, city: u32)
    requires { IsCity (city_count view.now) city }
    ensures { Puts W.Sink pen.old pen.new (coordinates (places_of view.now.places) city) }
{
    let place = view.places.get(city as usize - 1);
    put_signed(pen, place.x);
    pen.put(b" ");
    put_signed(pen, place.y);
}

/// Writes the demand of a city, if there are demands.
fn put_demand<W: Sink>(pen: &mut Pen<'_, W>, demand: Option<&u32>)
    ensures { Puts W.Sink pen.old pen.new (demand_word (option_copied demand.entry)) }
{
    if let Some(demand) = demand {
        pen.put(b" ");
        pen.put_number(*demand as u64);
    }
}

/// Writes `depot` if the city is the depot.
fn put_depot_word<W: Sink>(pen: &mut Pen<'_, W>, depot: Option<u32>, city: u32)
    ensures { Puts W.Sink pen.old pen.new (depot_word depot city) }
{
    if depot == Some(city) {
        pen.put(b" depot");
    }
}

/// Writes the line of a city.
fn put_city<W: Sink>(pen: &mut Pen<'_, W>, picture: &Picture<'_>, city: u32)
    requires { IsCity (city_count picture.now.view) city }
    ensures { Puts W.Sink pen.old pen.new (city_line picture.now.view.extent
        (places_of picture.now.view.places) picture.now.demands.now picture.now.depot city) }
{
    picture.view.put_spot(pen, city);
    pen.put(b" ");
    put_coordinates(pen, &picture.view, city);
    put_demand(pen, picture.demands.get(city as usize - 1));
    put_depot_word(pen, picture.depot, city);
    pen.put(b"\n");
}

/// Writes the lines of all cities.
pub(crate) fn put_cities<W: Sink>(pen: &mut Pen<'_, W>, picture: &Picture<'_>)
    ensures { Puts W.Sink pen.old pen.new (data_block (codes "cities")
        (flat_map (city_line picture.now.view.extent (places_of picture.now.view.places) picture.now.demands.now
        picture.now.depot) (range_with_len 1 (city_count picture.now.view)))) }
{
    pen.put(b"<script type=\"text/plain\" id=\"cities\">\n");
    for city in 1..picture.view.size() + 1 {
        put_city(pen, picture, city);
    }
    pen.put(b"</script>\n");
}
