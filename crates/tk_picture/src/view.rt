//! The positions of cities in a picture.
ghost use Rattle.std.specs.Prelude.{◌≤◌, length};
ghost use Rattle.tk_problem.specs.declared.limits.TheConstants.{CITY_LIMIT};
ghost use Rattle.tk_problem.specs.PlacesOf.{places_of};

use crate::extent::Extent;
use tk_problem::Places;
use tk_routes::Cvrp;
use tk_writers::{Pen, Sink};

/// The points of at most 100,000 cities, and the extent of a picture of them.
#[derive(Clone, Copy)]
pub struct View<'a> {
    pub places: Places<'a>,
    pub extent: Extent,
    ghost few: { length (places_of places) ≤ CITY_LIMIT },
}

impl<'a> View<'a> {
    ghost use Rattle.std.specs.Prelude.{◌≡◌};
    ghost use Rattle.tk_picture.specs.Extents.{IsExtent};

    /// A view of these points.
    pub fn over(places: Places<'a>) -> View<'a>
        requires some { 1 ≤ length (places_of places) }
        requires few { length (places_of places) ≤ CITY_LIMIT }
        ensures places { result.places ≡ places.entry }
        ensures extent { IsExtent (places_of places.entry) result.extent }
    {
        View {
            places,
            extent: Extent::of(places),
        }
    }
}

impl View<'_> {
    ghost use Rattle.std.specs.Prelude.{◌≡◌, All, map};
    ghost use Rattle.tk_writers.specs.Pens.{Puts};
    ghost use Rattle.tk_writers.specs.Written.{line};
    ghost use Rattle.tk_distance.specs.Cities.{IsCity};
    ghost use Rattle.tk_routes.specs.Cvrps.{instance_of};
    ghost use Rattle.tk_routes.specs.Instance.{node_of};
    ghost use Rattle.tk_routes.specs.Routes.{route_nodes};
    ghost use Rattle.tk_picture.specs.DrawnRoutes.{AreCustomers};
    ghost use Rattle.tk_picture.specs.PictureText.{corners};
    ghost use Rattle.tk_picture.specs.Views.{city_count, spot_in};

    /// The number of cities.
    pub(crate) fn size(&self) -> u32
        ensures value { result ≡ city_count self.now }
        ensures few { result ≤ CITY_LIMIT }
    {
        self.places.len() as u32
    }

    /// Writes the position of a city.
    pub(crate) fn put_spot<W: Sink>(&self, pen: &mut Pen<'_, W>, city: u32)
        requires { IsCity (city_count self.now) city }
        ensures { Puts W.Sink pen.old pen.new (spot_in self.now city) }
    {
        let place = self.places.get(city as usize - 1);
        pen.put_wide(self.extent.across(place));
        pen.put(b",");
        pen.put_wide(self.extent.down(place));
    }

    /// Writes the position of a city, on a line of its own.
    pub(crate) fn put_corner<W: Sink>(&self, pen: &mut Pen<'_, W>, city: u32)
        requires { IsCity (city_count self.now) city }
        ensures { Puts W.Sink pen.old pen.new (line (spot_in self.now city)) }
    {
        self.put_spot(pen, city);
        pen.put(b"\n");
    }

    /// Writes the positions of cities, one per line.
    pub(crate) fn put_corners<W: Sink>(&self, pen: &mut Pen<'_, W>, cities: &[u32])
        requires { All (IsCity (city_count self.now)) cities.now }
        ensures { Puts W.Sink pen.old pen.new (corners (spot_in self.now) cities.now) }
    {
        for city in cities {
            self.put_corner(pen, *city);
        }
    }

    /// Writes the positions of the customers of a route, one per line.
    pub(crate) fn put_customers<W: Sink>(
        &self,
        pen: &mut Pen<'_, W>,
        cvrp: &Cvrp<'_>,
        route: &[u32],
    )
        requires size { (instance_of cvrp.now).size ≡ city_count self.now }
        requires known { AreCustomers cvrp.now route.now }
        ensures { Puts W.Sink pen.old pen.new
            (corners (spot_in self.now) (map (node_of (instance_of cvrp.now).depot) route.now)) }
    {
        for customer in route {
            self.put_corner(pen, cvrp.node(*customer));
        }
    }

    /// Writes the positions of the depot and of the customers of a route, one per line.
    pub(crate) fn put_stops<W: Sink>(&self, pen: &mut Pen<'_, W>, cvrp: &Cvrp<'_>, route: &[u32])
        requires size { (instance_of cvrp.now).size ≡ city_count self.now }
        requires known { AreCustomers cvrp.now route.now }
        ensures { Puts W.Sink pen.old pen.new
            (corners (spot_in self.now) (route_nodes (instance_of cvrp.now) route.now)) }
    {
        self.put_corner(pen, cvrp.depot());
        self.put_customers(pen, cvrp, route);
    }
}
