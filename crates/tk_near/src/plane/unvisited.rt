//! Unvisited cities: visited ones are removed from a tree one by one, and the nearest of the others is found there.
ghost use Rattle.std.specs.Prelude.{◌≡◌, ◌<◌, ◌++◌, All, length, IfOk, MatchOption};
ghost use Rattle.tk_near.specs.declared.plane.city_point.CityPoint.{CityPoint};
ghost use Rattle.tk_near.specs.CityPoint.{IsPlaced, IsRow, placed_city};
ghost use Rattle.tk_near.specs.Tree.{entries_of, IsFramed, IsHalf, IsInBox, with_cities};
ghost use Rattle.tk_near.specs.Unvisited.{ArePlacedApart, IsTakenOut, IsFirstUnvisited, IsNotIn, Stands};

use crate::candidates::EMPTY;
use crate::plane::city_point::CityPoint;
use crate::plane::collector::{Collector, NearestOne};
use crate::plane::tree::{
    Bounds, START, Tree, TreePath, bounds_of, build_tree, search_half, search_leaf,
};
use std::alloc::{AllocError, Global};
use std::marker::Model;
use tk_distance::{BothAxes, Planar};

/// A city, and the path to the leaf where it was found: bit 0 is the first branch, and 1 means the upper half. A wrong
/// path costs only time.
#[derive(Clone, Copy)]
pub struct CityHint {
    pub city: u32,
    branches: u64,
}

impl CityHint {
    /// A city that has not been found in a leaf yet.
    pub fn somewhere(city: u32) -> CityHint
        ensures { result.city ≡ city }
    {
        CityHint { city, branches: 0 }
    }
}

/// The unvisited cities of a metric, in a k-d tree; at first, all of them.
#[derive(Drop)]
pub struct Unvisited {
    tree: Tree,
}

impl Model for Unvisited {
    ghost use Rattle.std.specs.Prelude.{List};
    ghost use Rattle.tk_near.specs.declared.plane.city_point.CityPoint.{CityPoint};
    ghost use Rattle.tk_near.specs.Tree.{entries_of, IsFramed};

    ghost Value = { List CityPoint };

    ghost view = { λ v. entries_of v.tree };

    ghost invariant = { λ v. IsFramed v.tree };
}

impl Unvisited {
    /// All cities of a metric.
    ///
    /// # Errors
    /// `AllocError` if memory runs out.
    pub fn all<P: Planar>(alloc: Global, m: &P) -> Result<Unvisited, AllocError>
        ensures { IfOk result (λ left. IsRow (P.size_of m.now) (P.place_of m.now) left) }
    {
        let (_, tree) = build_tree(alloc, m, m.size())?;
        Ok(Unvisited { tree })
    }

    /// Removes a city, looking first where it was found, and returns its nearest unvisited city, with ties broken by
    /// number.
    pub fn visit<P: BothAxes>(&mut self, m: &P, here: CityPoint, at: CityHint) -> Option<CityHint>
        requires here { IsPlaced (P.size_of m.now) (P.place_of m.now) here }
        requires apart { ArePlacedApart (P.size_of m.now) (P.place_of m.now) self.old }
        requires there { Stands self.old here.city }
        ensures taken { IsTakenOut here self.old self.new }
        ensures first { IsFirstUnvisited (P.distance m.now) here.city self.new result }
    {
        let mut one = NearestOne {
            best: EMPTY,
            branches: 0,
        };
        take_from(m, &here, &mut self.tree, at.branches, START, &mut one);
        if one.best.distance == EMPTY.distance {
            None
        } else {
            Some(CityHint {
                city: one.best.city,
                branches: one.branches,
            })
        }
    }
}

/// The index of a city in a row.
fn index_of(row: &[CityPoint], p: &CityPoint) -> Option<usize>
    ensures { MatchOption result (IsNotIn p.now row.now)
        (λ i. (i < length row.now) × (placed_city row.now i ≡ p.now.city)) }
{
    for i in 0..row.len() {
        if row[i].city == p.city {
            return Some(i);
        }
    }
    None
}

/// Whether a subtree has cities left after one was removed. No contract depends on it: it decides which boxes are
/// recomputed, and a box that is not recomputed costs only time.
#[derive(Clone, Copy)]
enum Rest {
    Some,
    None,
}

impl Rest {
    fn of(is_empty: bool) -> Rest {
        if is_empty { Rest::None } else { Rest::Some }
    }
}

/// The bounding box of the cities of a tree.
fn bounds_over(tree: &Tree) -> Bounds
    requires { IsFramed tree.now }
    ensures { All (IsInBox result) (entries_of tree.now) }
{
    match tree {
        Tree::Leaf(row) => bounds_of(row),
        Tree::Split(lower_bounds, _, upper_bounds, _) => lower_bounds.joined(*upper_bounds),
    }
}

/// Recomputes the bounding box of a tree if no city is left in it, so that no search enters it.
#[inline(always)]
fn renew(bounds: &mut Bounds, tree: &Tree, rest: Rest)
    requires framed { IsFramed tree.now }
    requires within { All (IsInBox bounds.old) (entries_of tree.now) }
    ensures { All (IsInBox bounds.new) (entries_of tree.now) }
{
    if matches!(rest, Rest::None) {
        *bounds = bounds_over(tree);
    }
}

/// Whether a tree has cities left, given whether one half has, and the box of the other half.
#[inline(always)]
fn rest_of(half: Rest, other: &Bounds) -> Rest {
    match half {
        Rest::Some => Rest::Some,
        Rest::None => Rest::of(other.is_empty()),
    }
}

/// Removes a city from a row, and returns whether cities are left; `None` if the city was not there.
fn take_from_leaf(row: &mut Vec<CityPoint>, p: &CityPoint) -> Option<Rest>
    ensures { MatchOption result ((row.new.items ≡ row.old.items) × IsNotIn p.now row.old.items)
        (λ _. IsTakenOut p.now row.old.items row.new.items) }
{
    let i = index_of(row, p)?;
    row.swap_remove(i);
    Some(Rest::of(row.is_empty()))
}

/// Removes the city `here` from a tree, looking at the end of the path `branches` first. Passes the near ones of the
/// other cities to `collector`, and returns whether cities are left; `None` if `here` was not there.
#[cycle(take_from)]
fn take_from<P: BothAxes, K: Collector>(
    m: &P,
    here: &CityPoint,
    tree: &mut Tree,
    branches: u64,
    path: TreePath,
    collector: &mut K,
) -> Option<Rest>
    requires here { IsPlaced (P.size_of m.now) (P.place_of m.now) here.now }
    requires placed { All (IsPlaced (P.size_of m.now) (P.place_of m.now)) (entries_of tree.old) }
    requires framed { IsFramed tree.old }
    ensures framed { IsFramed tree.new }
    ensures taken { MatchOption result
        ((entries_of tree.new ≡ entries_of tree.old) × IsNotIn here.now (entries_of tree.old))
        (λ _. IsTakenOut here.now (entries_of tree.old) (entries_of tree.new)) }
    ensures shown { MatchOption result
        (K.kept_of collector.new ≡ K.kept_of collector.old)
        (λ _. K.kept_of collector.new
        ≡ with_cities (P.distance m.now) here.now.city (entries_of tree.new) (K.kept_of collector.old)) }
{
    match tree {
        Tree::Leaf(row) => {
            let rest = take_from_leaf(row, here)?;
            search_leaf(m, here, row, path.branches(), collector);
            Some(rest)
        }
        Tree::Split(lower_bounds, lower, upper_bounds, upper) => {
            let lower_path = path.lower();
            let upper_path = path.upper();
            if path.goes_up(branches) {
                take_from_halves(
                    m,
                    here,
                    upper_bounds,
                    upper,
                    upper_path,
                    lower_bounds,
                    lower,
                    lower_path,
                    branches,
                    collector,
                )
            } else {
                take_from_halves(
                    m,
                    here,
                    lower_bounds,
                    lower,
                    lower_path,
                    upper_bounds,
                    upper,
                    upper_path,
                    branches,
                    collector,
                )
            }
        }
    }
}

/// Removes the city `here` from the first of two halves, or otherwise from the second. Passes the near ones of the
/// other cities to `collector`, and returns whether cities are left; `None` if `here` was not there.
#[cycle(take_from)]
#[inline(always)]
fn take_from_halves<P: BothAxes, K: Collector>(
    m: &P,
    here: &CityPoint,
    first_bounds: &mut Bounds,
    first: &mut Tree,
    first_path: TreePath,
    second_bounds: &mut Bounds,
    second: &mut Tree,
    second_path: TreePath,
    branches: u64,
    collector: &mut K,
) -> Option<Rest>
    requires here { IsPlaced (P.size_of m.now) (P.place_of m.now) here.now }
    requires placed { All (IsPlaced (P.size_of m.now) (P.place_of m.now))
        (entries_of first.old ++ entries_of second.old) }
    requires first { IsHalf first_bounds.old first.old }
    requires second { IsHalf second_bounds.old second.old }
    ensures first { IsHalf first_bounds.new first.new }
    ensures second { IsHalf second_bounds.new second.new }
    ensures taken { MatchOption result
        ((entries_of first.new ≡ entries_of first.old) × (entries_of second.new ≡ entries_of second.old)
        × IsNotIn here.now (entries_of first.old ++ entries_of second.old))
        (λ _. IsTakenOut here.now (entries_of first.old ++ entries_of second.old)
        (entries_of first.new ++ entries_of second.new)) }
    ensures shown { MatchOption result
        (K.kept_of collector.new ≡ K.kept_of collector.old)
        (λ _. K.kept_of collector.new
        ≡ with_cities (P.distance m.now) here.now.city (entries_of first.new ++ entries_of second.new)
        (K.kept_of collector.old)) }
{
    if let Some(rest) = take_from(m, here, first, branches, first_path, collector) {
        renew(first_bounds, first, rest);
        search_half(m, here, second_bounds, second, second_path, collector);
        return Some(rest_of(rest, second_bounds));
    }
    let rest = take_from(m, here, second, branches, second_path, collector)?;
    renew(second_bounds, second, rest);
    search_half(m, here, first_bounds, first, first_path, collector);
    Some(rest_of(rest, first_bounds))
}
