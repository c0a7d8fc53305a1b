//! Near lists by a k-d tree (J. L. Bentley, 1975).
ghost use Rattle.std.specs.Prelude.{◌≡◌, ℤ, ◌*◌, ◌≤◌, ◌<◌, ◌-ℤ◌, ◌≤ℤ◌, ◌↔◌, IfOk, IsTrue, All, IsPermutation};
ghost use Rattle.std.specs.Prelude.{◌++◌, length, ⊤};
ghost use Rattle.std.specs.Int.RustNames.{unsigned_abs};
ghost use Rattle.tk_problem.specs.declared.limits.TheConstants.{CANDIDATE_LIMIT};
ghost use Rattle.tk_distance.specs.Distance.{reach};
ghost use Rattle.tk_near.specs.declared.plane.city_point.CityPoint.{CityPoint};
ghost use Rattle.tk_near.specs.Near.{IsNear, AreNearLists, AreNearListsAmong};
ghost use Rattle.tk_near.specs.Keeping.{AreFilledAmong, cities_kept, rank};
ghost use Rattle.tk_near.specs.CityPoint.{IsPlaced, IsRow};
ghost use Rattle.tk_near.specs.Tree.{entries_of, IsInBox, IsFramed, IsHalf, IsBeyond, IsFrom, with_city, with_cities};

use crate::candidates::{Candidate, EMPTY, comes_before, measure, write_cities};
use crate::near::{Near, room_for};
use crate::plane::city_point::{CityPoint, row_of};
use crate::plane::collector::{Collector, KNearest};
use crate::plane::partition_at_median::partition_at_median;
use std::alloc::{AllocError, Global};
use tk_distance::{BothAxes, Planar};
use tk_problem::{COORDINATE_LIMIT, SCALE};

/// Maximum number of cities in a leaf.
const LEAF: usize = 16;

/// Approximate number of cities in the sample that decides whether a row is taller than wide.
const SAMPLE: usize = 16;

/// Maximum difference of two coordinates.
const WIDEST: u64 = 2 * COORDINATE_LIMIT * SCALE as u64;

/// The bounding box of a subtree's cities, and the range of their numbers.
#[derive(Clone, Copy, Drop)]
pub struct Bounds {
    pub left: i64,
    pub right: i64,
    pub bottom: i64,
    pub top: i64,
    pub least: u32,
    pub greatest: u32,
}

/// A k-d tree: a leaf with cities, or two subtrees with their bounding boxes.
#[derive(Drop)]
pub enum Tree {
    Leaf(Vec<CityPoint>),
    Split(Bounds, Box<Tree>, Bounds, Box<Tree>),
}

/// The bounding box of no cities.
const NOTHING: Bounds = Bounds {
    left: i64::MAX,
    right: i64::MIN,
    bottom: i64::MAX,
    top: i64::MIN,
    least: u32::MAX,
    greatest: 0,
};

/// The distance of a coordinate from a range.
fn gap_between(at: i64, low: i64, high: i64) -> u64
    ensures { (z : ℤ) → low ≤ℤ z → z ≤ℤ high → result ≤ unsigned_abs (at -ℤ z) }
{
    if at < low {
        at.abs_diff(low)
    } else if high < at {
        at.abs_diff(high)
    } else {
        0
    }
}

impl Bounds {
    /// The bounding box of one city.
    fn of(p: CityPoint) -> Bounds
        ensures { IsInBox result p }
    {
        Bounds {
            left: p.place.x,
            right: p.place.x,
            bottom: p.place.y,
            top: p.place.y,
            least: p.city,
            greatest: p.city,
        }
    }

    /// The smallest box that contains this one and a further city.
    fn widened(self, p: CityPoint) -> Bounds
        ensures this { IsInBox result p }
        ensures others { (q : CityPoint) → IsInBox self q → IsInBox result q }
    {
        self.joined(Bounds::of(p))
    }

    /// The smallest box that contains both boxes.
    pub fn joined(self, other: Bounds) -> Bounds
        ensures first { (p : CityPoint) → IsInBox self p → IsInBox result p }
        ensures second { (p : CityPoint) → IsInBox other p → IsInBox result p }
    {
        Bounds {
            left: self.left.min(other.left),
            right: self.right.max(other.right),
            bottom: self.bottom.min(other.bottom),
            top: self.top.max(other.top),
            least: self.least.min(other.least),
            greatest: self.greatest.max(other.greatest),
        }
    }

    /// A lower bound of the larger difference, in x or in y, between `here` and each city of the box.
    #[inline(always)]
    fn gap(&self, here: &CityPoint) -> u64
        ensures limit { result ≤ reach }
        ensures beyond { (p : CityPoint) → IsInBox self.now p → IsBeyond here.now result p }
    {
        let gap_x = gap_between(here.place.x, self.left, self.right);
        let gap_y = gap_between(here.place.y, self.bottom, self.top);
        gap_x.max(gap_y).min(WIDEST)
    }

    /// A candidate of `here` that no city of the box comes before.
    #[inline(always)]
    fn first<P: BothAxes>(&self, m: &P, here: &CityPoint) -> Candidate
        requires { IsPlaced (P.size_of m.now) (P.place_of m.now) here.now }
        ensures { (p : CityPoint) → IsPlaced (P.size_of m.now) (P.place_of m.now) p → IsInBox self.now p
            → IsFrom (P.distance m.now) here.now.city result p }
    {
        let gap = self.gap(here);
        if gap == 0 {
            return Candidate {
                distance: 0,
                city: self.least,
            };
        }
        let floor = m.floor_x(gap) as u64;
        Candidate {
            distance: floor.min(EMPTY.distance as u64) as u32,
            city: self.least,
        }
    }

    /// Whether this is the bounding box of no cities.
    #[inline(always)]
    pub fn is_empty(&self) -> bool {
        self.greatest < self.least
    }

    /// Whether the box is taller than wide.
    fn is_tall(self) -> bool {
        self.top.abs_diff(self.bottom) > self.right.abs_diff(self.left)
    }
}

/// The bounding box of these cities.
pub fn bounds_of(row: &[CityPoint]) -> Bounds
    ensures { All (IsInBox result) row.now }
{
    let mut bounds = NOTHING;
    for p in row {
        bounds = bounds.widened(*p);
    }
    bounds
}

/// Whether a row is taller than wide, judged by a sample of its cities. It has no contract: a wrong answer costs only
/// time.
fn is_tall(row: &[CityPoint]) -> bool {
    let mut bounds = NOTHING;
    for part in row.chunks(row.len() / SAMPLE + 1) {
        if let Some(p) = part.first() {
            bounds = bounds.widened(*p);
        }
    }
    bounds.is_tall()
}

/// A leaf with these cities, and their bounding box.
fn leaf_of(alloc: Global, row: &[CityPoint]) -> Result<(Tree, Bounds), AllocError>
    ensures entries { IfOk result (λ r. entries_of r.0 ≡ row.now) }
    ensures framed { IfOk result (λ r. IsFramed r.0) }
    ensures within { IfOk result (λ r. All (IsInBox r.1) (entries_of r.0)) }
{
    let mut leaf = Vec::with_capacity(alloc, row.len())?;
    leaf.extend_from_slice(row)?;
    Ok((Tree::Leaf(leaf), bounds_of(row)))
}

/// The tree of two halves, each given with its bounding box, and the bounding box of both.
fn split_into(
    alloc: Global,
    lower: (Tree, Bounds),
    upper: (Tree, Bounds),
) -> Result<(Tree, Bounds), AllocError>
    requires lower { IsHalf lower.1 lower.0 }
    requires upper { IsHalf upper.1 upper.0 }
    ensures entries { IfOk result (λ r. entries_of r.0 ≡ entries_of lower.0 ++ entries_of upper.0) }
    ensures framed { IfOk result (λ r. IsFramed r.0) }
    ensures within { IfOk result (λ r. All (IsInBox r.1) (entries_of r.0)) }
{
    let (lower_tree, lower_bounds) = lower;
    let (upper_tree, upper_bounds) = upper;
    let lower_box = Box::new(alloc, lower_tree)?;
    let upper_box = Box::new(alloc, upper_tree)?;
    let tree = Tree::Split(lower_bounds, lower_box, upper_bounds, upper_box);
    Ok((tree, lower_bounds.joined(upper_bounds)))
}

/// Builds the tree of these cities, brings them into its order, and returns the tree and their bounding box.
fn build(alloc: Global, row: &mut [CityPoint]) -> Result<(Tree, Bounds), AllocError>
    ensures moved { IfOk result (λ _. IsPermutation row.old row.new) }
    ensures entries { IfOk result (λ r. entries_of r.0 ≡ row.new) }
    ensures framed { IfOk result (λ r. IsFramed r.0) }
    ensures within { IfOk result (λ r. All (IsInBox r.1) (entries_of r.0)) }
{
    if row.len() <= LEAF {
        return leaf_of(alloc, row);
    }
    partition_at_median(row, is_tall(row));
    let (lower_row, upper_row) = row.split_at_mut(row.len() / 2);
    let lower = build(alloc, lower_row)?;
    let upper = build(alloc, upper_row)?;
    split_into(alloc, lower, upper)
}

/// The tree of the cities 1 to `among`, and all cities of a metric: first those of the tree, in its order.
///
/// # Errors
/// `AllocError` if memory runs out.
pub fn build_tree<P: Planar>(
    alloc: Global,
    m: &P,
    among: u32,
) -> Result<(Vec<CityPoint>, Tree), AllocError>
    requires part { among ≤ P.size_of m.now }
    ensures row { IfOk result (λ r. IsRow (P.size_of m.now) (P.place_of m.now) r.0.items) }
    ensures entries { IfOk result (λ r. IsRow among (P.place_of m.now) (entries_of r.1)) }
    ensures framed { IfOk result (λ r. IsFramed r.1) }
{
    let mut row = row_of(alloc, m)?;
    let (first, _) = row.split_at_mut(among as usize);
    let (tree, _) = build(alloc, first)?;
    Ok((row, tree))
}

/// The branches from the root of the tree to a subtree: bit i is 1 if branch i leads to the upper half. No contract
/// depends on them: they record where a city was found, so that it can be removed there.
#[derive(Clone, Copy)]
pub struct TreePath {
    branches: u64,
    next: u64,
}

/// The path of the root.
pub const START: TreePath = TreePath {
    branches: 0,
    next: 1,
};

impl TreePath {
    /// The branches taken, one bit each.
    #[inline(always)]
    pub fn branches(self) -> u64 {
        self.branches
    }

    /// Whether the path `branches` leads to the upper half next.
    #[inline(always)]
    pub fn goes_up(self, branches: u64) -> bool {
        branches & self.next != 0
    }

    /// The path of the lower half.
    #[inline(always)]
    pub fn lower(self) -> TreePath {
        TreePath {
            branches: self.branches,
            next: self.next << 1,
        }
    }

    /// The path of the upper half.
    #[inline(always)]
    pub fn upper(self) -> TreePath {
        TreePath {
            branches: self.branches | self.next,
            next: self.next << 1,
        }
    }
}

/// Whether a subtree can contain a candidate to keep, given that none of its cities comes before `first`.
#[inline(always)]
fn may_enter(first: Candidate, last: Candidate) -> bool
    ensures { IsTrue result ↔ (rank first < rank last) }
{
    first.is_before(last)
}

/// Passes a city to `collector`.
#[inline(always)]
fn show<P: Planar, K: Collector>(
    m: &P,
    here: &CityPoint,
    there: &CityPoint,
    branches: u64,
    collector: &mut K,
)
    requires here { IsPlaced (P.size_of m.now) (P.place_of m.now) here.now }
    requires there { IsPlaced (P.size_of m.now) (P.place_of m.now) there.now }
    ensures { K.kept_of collector.new ≡ with_city (P.distance m.now) here.now.city there.now (K.kept_of collector.old) }
{
    if there.city != here.city && comes_before(m, here.city, there.city, collector.last()) {
        collector.keep(measure(m, here.city, there.city), branches);
    }
}

/// Passes the cities of a leaf to `collector`.
pub fn search_leaf<P: Planar, K: Collector>(
    m: &P,
    here: &CityPoint,
    leaf: &[CityPoint],
    branches: u64,
    collector: &mut K,
)
    requires here { IsPlaced (P.size_of m.now) (P.place_of m.now) here.now }
    requires placed { All (IsPlaced (P.size_of m.now) (P.place_of m.now)) leaf.now }
    ensures { K.kept_of collector.new
        ≡ with_cities (P.distance m.now) here.now.city leaf.now (K.kept_of collector.old) }
{
    for there in leaf {
        show(m, here, there, branches, collector);
    }
}

/// Passes the near cities of a tree to `collector`. A half is skipped if no city of its box comes before the last one
/// kept.
pub fn search<P: BothAxes, K: Collector>(
    m: &P,
    here: &CityPoint,
    tree: &Tree,
    path: TreePath,
    collector: &mut K,
)
    requires here { IsPlaced (P.size_of m.now) (P.place_of m.now) here.now }
    requires placed { All (IsPlaced (P.size_of m.now) (P.place_of m.now)) (entries_of tree.now) }
    requires framed { IsFramed tree.now }
    ensures { K.kept_of collector.new
        ≡ with_cities (P.distance m.now) here.now.city (entries_of tree.now) (K.kept_of collector.old) }
{
    match tree {
        Tree::Leaf(leaf) => search_leaf(m, here, leaf, path.branches, collector),
        Tree::Split(lower_bounds, lower, upper_bounds, upper) => {
            let lower_first = lower_bounds.first(m, here);
            let upper_first = upper_bounds.first(m, here);
            if lower_first.is_before(upper_first) {
                if may_enter(lower_first, collector.last()) {
                    search(m, here, lower, path.lower(), collector);
                }
                if may_enter(upper_first, collector.last()) {
                    search(m, here, upper, path.upper(), collector);
                }
            } else {
                if may_enter(upper_first, collector.last()) {
                    search(m, here, upper, path.upper(), collector);
                }
                if may_enter(lower_first, collector.last()) {
                    search(m, here, lower, path.lower(), collector);
                }
            }
        }
    }
}

/// Passes the near cities of a half to `collector`. It is skipped if no city of its box comes before the last one kept.
#[inline(always)]
pub fn search_half<P: BothAxes, K: Collector>(
    m: &P,
    here: &CityPoint,
    bounds: &Bounds,
    half: &Tree,
    path: TreePath,
    collector: &mut K,
)
    requires here { IsPlaced (P.size_of m.now) (P.place_of m.now) here.now }
    requires placed { All (IsPlaced (P.size_of m.now) (P.place_of m.now)) (entries_of half.now) }
    requires framed { IsFramed half.now }
    requires within { All (IsInBox bounds.now) (entries_of half.now) }
    ensures { K.kept_of collector.new
        ≡ with_cities (P.distance m.now) here.now.city (entries_of half.now) (K.kept_of collector.old) }
{
    if may_enter(bounds.first(m, here), collector.last()) {
        search(m, here, half, path, collector);
    }
}

/// Finds the nearest cities of a tree other than the city `here`, as many as there is room for.
fn search_city<P: BothAxes>(m: &P, here: &CityPoint, tree: &Tree, many: &mut KNearest)
    requires here { IsPlaced (P.size_of m.now) (P.place_of m.now) here.now }
    requires tree { IsRow (length (entries_of tree.now)) (P.place_of m.now) (entries_of tree.now) }
    requires part { length (entries_of tree.now) ≤ P.size_of m.now }
    requires framed { IsFramed tree.now }
    requires high { length many.old.kept.items < length (entries_of tree.now) }
    ensures size { length many.new.kept.items ≡ length many.old.kept.items }
    ensures near { IsNear (P.distance m.now) (length (entries_of tree.now)) (length many.old.kept.items) here.now.city
        (cities_kept many.new.kept.items) }
{
    many.clear();
    search(m, here, tree, START, many);
}

/// Fills the list of each city of the row with its nearest cities of the tree.
fn fill_from_tree<P: BothAxes>(
    m: &P,
    row: &[CityPoint],
    tree: &Tree,
    many: &mut KNearest,
    entries: &mut [u32],
)
    requires row { IsRow (P.size_of m.now) (P.place_of m.now) row.now }
    requires tree { IsRow (length (entries_of tree.now)) (P.place_of m.now) (entries_of tree.now) }
    requires part { length (entries_of tree.now) ≤ P.size_of m.now }
    requires framed { IsFramed tree.now }
    requires high { length many.old.kept.items < length (entries_of tree.now) }
    requires room { length entries.old ≡ P.size_of m.now * length many.old.kept.items }
    ensures { AreFilledAmong (P.distance m.now) (P.size_of m.now) (length (entries_of tree.now))
        (length many.old.kept.items) (λ _. ⊤) entries.new }
{
    for here in row {
        search_city(m, here, tree, many);
        write_cities(entries, here.city, many.kept());
    }
}

/// The near lists, by a search of this tree for each city, in the order of the row.
///
/// # Errors
/// `AllocError` if memory runs out.
fn lists_by_tree<P: BothAxes>(
    alloc: Global,
    m: &P,
    row: &[CityPoint],
    tree: &Tree,
    among: u32,
    k: u32,
) -> Result<Near, AllocError>
    requires row { IsRow (P.size_of m.now) (P.place_of m.now) row.now }
    requires tree { IsRow among (P.place_of m.now) (entries_of tree.now) }
    requires part { among ≤ P.size_of m.now }
    requires framed { IsFramed tree.now }
    requires low { 1 ≤ k }
    requires limit { k ≤ CANDIDATE_LIMIT }
    requires high { k < among }
    ensures { IfOk result (AreNearListsAmong (P.distance m.now) (P.size_of m.now) among k) }
{
    let mut many = KNearest::new(alloc, k as usize)?;
    let mut entries = room_for(alloc, m, k)?;
    fill_from_tree(m, row, tree, &mut many, &mut entries);
    Ok(Near::from_filled_among(m, among, k, entries))
}

/// The near lists among the cities 1 to `among`, with k cities each, by a search of a k-d tree of these cities for each
/// city of the metric.
///
/// # Errors
/// `AllocError` if memory runs out.
pub fn near_tree_among<P: BothAxes>(
    alloc: Global,
    m: &P,
    among: u32,
    k: u32,
) -> Result<Near, AllocError>
    requires part { among ≤ P.size_of m.now }
    requires low { 1 ≤ k }
    requires limit { k ≤ CANDIDATE_LIMIT }
    requires high { k < among }
    ensures { IfOk result (AreNearListsAmong (P.distance m.now) (P.size_of m.now) among k) }
{
    let (row, tree) = build_tree(alloc, m, among)?;
    lists_by_tree(alloc, m, &row, &tree, among, k)
}

/// The near lists, by a search of a k-d tree for each city.
///
/// # Errors
/// `AllocError` if memory runs out.
pub fn near_tree<P: BothAxes>(alloc: Global, m: &P, k: u32) -> Result<Near, AllocError>
    requires low { 1 ≤ k }
    requires limit { k ≤ CANDIDATE_LIMIT }
    requires high { k < P.size_of m.now }
    ensures { IfOk result (AreNearLists (P.distance m.now) (P.size_of m.now) k) }
{
    near_tree_among(alloc, m, m.size(), k)
}
