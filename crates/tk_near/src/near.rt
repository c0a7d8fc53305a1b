//! Near lists: for each city, its nearest other cities, among all cities or a part of them, with ties broken by number.
ghost use Rattle.std.specs.Prelude.{◌≡◌, ℕ, ◌*◌, ◌≤◌, ◌<◌, IfOk, All, length, take, ⊤};
ghost use Rattle.tk_problem.specs.declared.limits.TheConstants.{CANDIDATE_LIMIT, CITY_LIMIT};
ghost use Rattle.tk_distance.specs.Cities.{IsCity};
ghost use Rattle.tk_near.specs.Near.{IsNear, IsOther, AreNearest, AreNearLists, AreNearListsAmong, near_of};
ghost use Rattle.tk_near.specs.Keeping.{AreFilled, AreFilledAmong, cities_kept};

use crate::candidates::{Candidate, EMPTY, keep, measure, write_cities};
use std::alloc::{AllocError, Global};
use std::marker::Model;
use tk_distance::Metric;

/// The near lists of the cities 1 to `size`, with `width` entries for each city.
#[derive(Drop)]
pub struct Near {
    size: u32,
    width: u32,
    entries: Vec<u32>,
}

impl Model for Near {
    ghost use Rattle.tk_near.specs.Near.{NearLists, HasOthers};

    ghost Value = { NearLists };

    ghost view = { λ v. record { size = v.size; width = v.width; entries = v.entries.items } };

    ghost invariant = { λ v. HasOthers (record { size = v.size; width = v.width; entries = v.entries.items }) };
}

impl Near {
    /// The near lists, from the filled lists of all cities.
    pub fn from_filled<M: Metric>(m: &M, k: u32, entries: Vec<u32>) -> Near
        requires limit { k ≤ CANDIDATE_LIMIT }
        requires filled { AreFilled (M.distance m.now) (M.size_of m.now) k (λ _. ⊤) entries.items }
        ensures { AreNearLists (M.distance m.now) (M.size_of m.now) k result }
    {
        Near::from_filled_among(m, m.size(), k, entries)
    }

    /// The near lists among the cities 1 to `among`, from the filled lists of all cities.
    pub fn from_filled_among<M: Metric>(m: &M, among: u32, k: u32, entries: Vec<u32>) -> Near
        requires part { among ≤ M.size_of m.now }
        requires limit { k ≤ CANDIDATE_LIMIT }
        requires filled { AreFilledAmong (M.distance m.now) (M.size_of m.now) among k (λ _. ⊤) entries.items }
        ensures { AreNearListsAmong (M.distance m.now) (M.size_of m.now) among k result }
    {
        Near {
            size: m.size(),
            width: k,
            entries,
        }
    }

    /// The number of cities.
    pub fn size(&self) -> u32
        ensures value { result ≡ self.now.size }
        ensures limit { result ≤ CITY_LIMIT }
    {
        self.size
    }

    /// The number of entries of each list.
    pub fn width(&self) -> u32
        ensures value { result ≡ self.now.width }
        ensures stored { length self.now.entries ≡ self.now.size * self.now.width }
        ensures limit { result ≤ CANDIDATE_LIMIT }
    {
        self.width
    }

    /// The near lists, one after another, beginning with city 1: `size` lists of `width` cities each.
    pub fn entries(&self) -> &[u32]
        ensures value { result.now ≡ self.now.entries }
        ensures count { length result.now ≡ self.now.size * self.now.width }
    {
        &self.entries
    }

    /// The near list of a city.
    pub fn of(&self, c: u32) -> &[u32]
        requires { IsCity self.now.size c }
        ensures value { result.now ≡ near_of self.now c }
        ensures count { length result.now ≡ self.now.width }
        ensures others { All (IsOther self.now.size c) result.now }
    {
        let width = self.width as usize;
        let from = (c as usize - 1) * width;
        &self.entries[from..from + width]
    }

    /// The near lists with the first `width` entries of each list.
    ///
    /// # Errors
    /// `AllocError` if memory runs out.
    pub fn shortened(&self, alloc: Global, width: u32) -> Result<Near, AllocError>
        requires { width ≤ self.now.width }
        ensures size { IfOk result (λ near. near.size ≡ self.now.size) }
        ensures width { IfOk result (λ near. near.width ≡ width) }
        ensures lists { IfOk result (λ near. (c : ℕ) → IsCity self.now.size c
            → near_of near c ≡ take width (near_of self.now c)) }
        ensures nearest { IfOk result (λ near. (dist : ℕ → ℕ → ℕ) → AreNearest dist self.now → AreNearest dist near) }
    {
        let mut entries = Vec::with_capacity(alloc, self.size as usize * width as usize)?;
        for c in 1..self.size + 1 {
            entries.extend_from_slice(&self.of(c)[..width as usize])?;
        }
        Ok(Near {
            size: self.size,
            width,
            entries,
        })
    }
}

/// Finds the nearest of the cities 1 to `among` other than city c, as many as there is room for.
fn scan_city<M: Metric>(m: &M, among: u32, c: u32, kept: &mut [Candidate])
    requires part { among ≤ M.size_of m.now }
    requires city { IsCity (M.size_of m.now) c }
    requires low { 1 ≤ length kept.old }
    requires high { length kept.old < among }
    ensures size { length kept.new ≡ length kept.old }
    ensures near { IsNear (M.distance m.now) among (length kept.old) c (cities_kept kept.new) }
{
    kept.fill(EMPTY);
    for b in 1..among + 1 {
        if b != c {
            keep(kept, measure(m, c, b));
        }
    }
}

/// Allocates n lists of k cities.
///
/// # Errors
/// `AllocError` if memory runs out.
pub fn room_for<M: Metric>(alloc: Global, m: &M, k: u32) -> Result<Vec<u32>, AllocError>
    requires { k ≤ CANDIDATE_LIMIT }
    ensures { IfOk result (λ v. length v.items ≡ M.size_of m.now * k) }
{
    let count = m.size() as usize * k as usize;
    vec![in alloc; 0u32; count]
}

/// Fills the list of each city with the nearest of the cities 1 to `among`, in the order of the numbers of the cities.
fn fill_by_scan<M: Metric>(m: &M, among: u32, kept: &mut [Candidate], entries: &mut [u32])
    requires part { among ≤ M.size_of m.now }
    requires low { 1 ≤ length kept.old }
    requires high { length kept.old < among }
    requires room { length entries.old ≡ M.size_of m.now * length kept.old }
    ensures { AreFilledAmong (M.distance m.now) (M.size_of m.now) among (length kept.old) (λ _. ⊤) entries.new }
{
    for c in 1..m.size() + 1 {
        scan_city(m, among, c, kept);
        write_cities(entries, c, kept);
    }
}

/// The near lists, by a scan of all cities for each city.
///
/// # Errors
/// `AllocError` if memory runs out.
pub fn near_scan<M: Metric>(alloc: Global, m: &M, k: u32) -> Result<Near, AllocError>
    requires low { 1 ≤ k }
    requires limit { k ≤ CANDIDATE_LIMIT }
    requires high { k < M.size_of m.now }
    ensures { IfOk result (AreNearLists (M.distance m.now) (M.size_of m.now) k) }
{
    near_among(alloc, m, m.size(), k)
}

/// The near lists among the cities 1 to `among`, with k cities each, by a scan of these cities for each city of the
/// metric.
///
/// # Errors
/// `AllocError` if memory runs out.
pub fn near_among<M: Metric>(alloc: Global, m: &M, among: u32, k: u32) -> Result<Near, AllocError>
    requires part { among ≤ M.size_of m.now }
    requires low { 1 ≤ k }
    requires limit { k ≤ CANDIDATE_LIMIT }
    requires high { k < among }
    ensures { IfOk result (AreNearListsAmong (M.distance m.now) (M.size_of m.now) among k) }
{
    let mut kept = vec![in alloc; EMPTY; k as usize]?;
    let mut entries = room_for(alloc, m, k)?;
    fill_by_scan(m, among, &mut kept, &mut entries);
    Ok(Near::from_filled_among(m, among, k, entries))
}

/// A law: two near lists of one city are equal.
pub fn near_lists_agree<M: Metric>(m: &M, c: u32, k: u32, xs: &[u32], ys: &[u32])
    requires first { IsNear (M.distance m.now) (M.size_of m.now) k c xs.now }
    requires second { IsNear (M.distance m.now) (M.size_of m.now) k c ys.now }
    ensures { xs.now ≡ ys.now }
{}
