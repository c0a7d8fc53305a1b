//! Lists of points.
ghost use Rattle.std.specs.Prelude.{◌≡◌, ◌<◌, List, All, IfOk, IfSome, OnOk, OnErr, length, slice_index_or, slice_set};
ghost use Rattle.std.specs.Prelude.{replicate, map};
ghost use Rattle.tk_problem.specs.declared.point.Point.{Point};
ghost use Rattle.tk_problem.specs.Places.{IsNearOrigin, origin};
ghost use Rattle.tk_problem.specs.Units.{place_in};
ghost use Rattle.tk_problem.specs.Stored.{stored_places, IsStoredNear};

use crate::point::{Point, WholePoint};
use crate::unit::Unit;
use std::alloc::{AllocError, Global};
use std::marker::Model;

/// A list of points with coordinates of magnitude at most 10^9. It takes half the memory if all points written to it
/// are [`WholePoint`]s of one unit.
#[derive(Drop)]
pub struct Points {
    alloc: Global,
    stored: Stored,
}

#[derive(Drop)]
enum Stored {
    Whole(Unit, Vec<WholePoint>),
    Fine(Vec<Point>),
}

/// The points of a list, as they are stored.
#[derive(Clone, Copy)]
pub enum Places<'a> {
    /// Points in whole numbers of a unit.
    Whole(Unit, &'a [WholePoint]),
    /// Points in units of 10^-9.
    Fine(&'a [Point]),
}

impl Model for Points {
    ghost use Rattle.std.specs.Prelude.{List};
    ghost use Rattle.tk_problem.specs.declared.point.Point.{Point};

    ghost Value = { List Point };

    ghost use Rattle.tk_problem.specs.Stored.{stored_places, IsStoredNear};

    ghost view = { λ s. stored_places s.stored };

    ghost invariant = { λ s. IsStoredNear s.stored };
}

impl Points {
    ghost use Rattle.tk_problem.specs.PlacesOf.{places_of};

    /// A list of `n` points, all at the origin.
    ///
    /// # Errors
    /// `AllocError` if memory runs out.
    pub fn at_origin(alloc: Global, n: usize) -> Result<Points, AllocError>
        ensures { IfOk result (λ ps. ps ≡ replicate n origin) }
    {
        let places = vec![in alloc; WholePoint { x: 0, y: 0 }; n]?;
        Ok(Points {
            alloc,
            stored: Stored::Whole(Unit::One, places),
        })
    }

    /// The number of points.
    pub fn len(&self) -> usize
        ensures { result ≡ length self.now }
    {
        match &self.stored {
            Stored::Whole(_, places) => places.len(),
            Stored::Fine(places) => places.len(),
        }
    }

    /// The point at an index, in units of 10^-9.
    pub fn get(&self, index: usize) -> Point
        requires { index < length self.now }
        ensures place { result ≡ slice_index_or self.now index origin }
        ensures near { IsNearOrigin result }
    {
        match &self.stored {
            Stored::Whole(unit, places) => unit.place(places[index]),
            Stored::Fine(places) => places[index],
        }
    }

    /// Writes a point, given in units of 10^-9. If it is not a [`WholePoint`] of the list's unit, the list is converted
    /// to another unit, or to units of 10^-9.
    ///
    /// # Errors
    /// `AllocError` if the list must be converted and memory runs out. The points are unchanged then.
    pub fn set(&mut self, index: usize, place: Point) -> Result<(), AllocError>
        requires index { index < length self.old }
        requires near { IsNearOrigin place }
        ensures ok { OnOk result (self.new ≡ slice_set self.old index place) }
        ensures err { OnErr result (self.new ≡ self.old) }
    {
        let moved = match &mut self.stored {
            Stored::Whole(unit, places) => {
                if let Some(whole) = unit.whole(place) {
                    places[index] = whole;
                    return Ok(());
                }
                put(self.alloc, *unit, places, index, place)?
            }
            Stored::Fine(places) => {
                places[index] = place;
                return Ok(());
            }
        };
        self.stored = moved;
        Ok(())
    }

    /// The points, as they are stored.
    pub fn places(&self) -> Places<'_>
        ensures places { places_of result ≡ self.now }
        ensures near { All IsNearOrigin self.now }
    {
        match &self.stored {
            Stored::Whole(unit, places) => Places::Whole(*unit, places),
            Stored::Fine(places) => Places::Fine(places),
        }
    }
}

impl Places<'_> {
    ghost use Rattle.tk_problem.specs.PlacesOf.{places_of};

    /// The number of points.
    #[inline]
    pub fn len(self) -> usize
        ensures { result ≡ length (places_of self.entry) }
    {
        match self {
            Places::Whole(_, places) => places.len(),
            Places::Fine(places) => places.len(),
        }
    }

    /// The point at an index, in units of 10^-9.
    #[inline]
    pub fn get(self, index: usize) -> Point
        requires { index < length (places_of self) }
        ensures { result ≡ slice_index_or (places_of self.entry) index origin }
    {
        match self {
            Places::Whole(unit, places) => unit.place(places[index]),
            Places::Fine(places) => places[index],
        }
    }
}

/// A copy of the points with a new one, which is not a [`WholePoint`] of their unit: in the coarsest unit of the new
/// one, or in units of 10^-9 if there is no such unit or the others are not [`WholePoint`]s of it.
fn put(
    alloc: Global,
    unit: Unit,
    places: &[WholePoint],
    index: usize,
    place: Point,
) -> Result<Stored, AllocError>
    requires index { index < length places.now }
    requires near { IsNearOrigin place }
    ensures places { IfOk result (λ stored. stored_places stored
        ≡ slice_set (map (place_in unit) places.now) index place) }
    ensures near { IfOk result IsStoredNear }
{
    if let Some((finer, whole)) = Unit::of(place) {
        if let Some(mut moved) = moved(alloc, unit, places, finer)? {
            moved[index] = whole;
            return Ok(Stored::Whole(finer, moved));
        }
    }
    let mut fine = refined(alloc, unit, places)?;
    fine[index] = place;
    Ok(Stored::Fine(fine))
}

/// The points, converted to another unit; `None` if one of them is not a [`WholePoint`] of it.
fn moved(
    alloc: Global,
    unit: Unit,
    places: &[WholePoint],
    other: Unit,
) -> Result<Option<Vec<WholePoint>>, AllocError>
    ensures { IfOk result (λ some. IfSome some (λ moved. map (place_in other) moved.items
        ≡ map (place_in unit) places.now)) }
{
    let mut moved = Vec::with_capacity(alloc, places.len())?;
    for place in places {
        match other.whole(unit.place(*place)) {
            Some(whole) => moved.push(whole)?,
            None => return Ok(None),
        }
    }
    Ok(Some(moved))
}

/// The points, converted to units of 10^-9.
fn refined(alloc: Global, unit: Unit, places: &[WholePoint]) -> Result<Vec<Point>, AllocError>
    ensures { IfOk result (λ fine. fine.items ≡ map (place_in unit) places.now) }
{
    places.iter().map(|place| unit.place(*place)).collect(alloc)
}
