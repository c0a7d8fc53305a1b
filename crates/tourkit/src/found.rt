//! What a search has found: a tour or routes.
ghost use Rattle.std.specs.Prelude.{◌≤ℤ◌, pos};

use std::alloc::{AllocError, Global};
use tk_writers::{Sink, WriteFault, write_solution, write_tour};

/// A tour or routes.
#[derive(Clone, Copy)]
pub enum Found<'f> {
    /// The cities of a tour.
    Tour(&'f [u32]),
    /// The customers of each route.
    Routes(&'f [Vec<u32>]),
}

/// A copy of a tour or of routes.
#[derive(Drop)]
pub enum Copied {
    Tour(Vec<u32>),
    Routes(Vec<Vec<u32>>),
}

impl Found<'_> {
    /// A copy.
    ///
    /// # Errors
    /// `AllocError` if memory runs out.
    pub fn copied(&self, alloc: Global) -> Result<Copied, AllocError> {
        match self {
            Found::Tour(cities) => Ok(Copied::Tour(copied_cities(alloc, cities)?)),
            Found::Routes(routes) => Ok(Copied::Routes(copied_routes(alloc, routes)?)),
        }
    }

    /// Writes the text of the tour or of the solution. The name is that of the problem.
    ///
    /// # Errors
    /// A write failed.
    pub fn write<F: Sink>(&self, file: &mut F, name: &[u8], length: i64) -> Result<(), WriteFault>
        requires { pos 0 ≤ℤ length }
    {
        match self {
            Found::Tour(cities) => write_tour(file, name, length, cities),
            Found::Routes(routes) => write_solution(file, routes, length),
        }
    }
}

impl Copied {
    /// The tour or the routes.
    pub fn found(&self) -> Found<'_> {
        match self {
            Copied::Tour(cities) => Found::Tour(cities),
            Copied::Routes(routes) => Found::Routes(routes),
        }
    }
}

/// A copy of the cities of a tour.
fn copied_cities(alloc: Global, cities: &[u32]) -> Result<Vec<u32>, AllocError> {
    let mut copy = Vec::new(alloc);
    copy.extend_from_slice(cities)?;
    Ok(copy)
}

/// A copy of routes.
///
/// # Errors
/// `AllocError` if memory runs out.
pub fn copied_routes(alloc: Global, routes: &[Vec<u32>]) -> Result<Vec<Vec<u32>>, AllocError> {
    let mut copies = Vec::new(alloc);
    for route in routes {
        copies.push(route.clone()?)?;
    }
    Ok(copies)
}
