//! The paths that joints form.
ghost use Rattle.std.specs.Prelude.{◌≡◌, ◌≢◌, ℕ, ◌+◌, ◌-◌, ◌^◌, ◌≤◌, ◌<◌, IfOk, List, ◌∷◌, length, vec_len};
ghost use Rattle.std.specs.Prelude.{◌==◌, if◌then◌else◌, not, nat_le, ◌&&◌};
ghost use Rattle.tk_problem.specs.declared.limits.TheConstants.{CITY_LIMIT};
ghost use Rattle.tk_starts.specs.declared.merges.pairs.Pair.{Pair};
ghost use Rattle.tk_starts.specs.PathEnds.{at, AreBoth, IsLinked, IsPairWithin, is_end_at};
ghost use Rattle.tk_starts.specs.PathEnds.{may_join_at, Follows, IsWay};
ghost use Rattle.tk_starts.specs.PathsOf.{AreEven, AreListsOf, AreOf, AreSingle, EndsMeet, HaveEnds, HaveSize};
ghost use Rattle.tk_starts.specs.PathsOf.{LoadsMeet};

use crate::merges::pairs::Pair;
use std::alloc::{AllocError, Global};

/// For each city, up to two neighbours (0 for none); for each end of a path, also the other end and the load of the
/// path.
#[derive(Drop)]
pub struct Paths {
    pub one: Vec<u32>,
    pub two: Vec<u32>,
    pub other: Vec<u32>,
    pub load: Vec<u64>,
}

impl Paths {
    /// Each city as a path of its own.
    ///
    /// # Errors
    /// `AllocError` if memory runs out.
    pub fn new(alloc: Global, loads: &[u32]) -> Result<Paths, AllocError>
        requires { length loads.now ≤ CITY_LIMIT }
        ensures sizes { IfOk result (λ p. HaveSize p (length loads.now + 1)) }
        ensures single { IfOk result (AreSingle loads.now) }
    {
        let places = loads.len() + 1;
        let one = vec![in alloc; 0; places]?;
        let two = vec![in alloc; 0; places]?;
        let mut other = vec![in alloc; 0; places]?;
        let mut load = vec![in alloc; 0; places]?;
        for c in 1..places {
            other[c] = c as u32;
            load[c] = loads[c - 1] as u64;
        }
        Ok(Paths {
            one,
            two,
            other,
            load,
        })
    }

    /// Whether i and j are ends of two different paths whose total load is within the capacity.
    pub fn may_join(&self, pair: &Pair, capacity: u64) -> bool
        requires sizes { AreEven self.now }
        requires within { IsPairWithin (vec_len self.now.one - 1) pair.now }
        ensures { result ≡ may_join_at self.now.one.items self.now.two.items self.now.other.items self.now.load.items
            capacity pair.now }
    {
        let i = pair.i;
        let j = pair.j;
        self.is_end(i)
            && self.is_end(j)
            && self.other[i as usize] != j
            && self.load[j as usize] <= capacity
            && self.load[i as usize] <= capacity - self.load[j as usize]
    }

    /// Whether c is an end of its path: it has at most one neighbour.
    fn is_end(&self, c: u32) -> bool
        requires sizes { vec_len self.now.two ≡ vec_len self.now.one }
        requires city { c < vec_len self.now.one }
        ensures { result ≡ is_end_at self.now.one.items self.now.two.items c }
    {
        self.one[c as usize] == 0 || self.two[c as usize] == 0
    }

    /// Makes i and j neighbours.
    pub fn join(&mut self, i: u32, j: u32)
        requires sizes { AreEven self.old }
        requires cities { (i < vec_len self.old.one) × (j < vec_len self.old.one) × (i ≢ j) }
        requires ends { HaveEnds self.old i j }
        requires load { at self.old.load.items i + at self.old.load.items j < 2 ^ 64 }
        ensures sizes { HaveSize self.new (vec_len self.old.one) }
        ensures linked { IsLinked i j (at self.old.one.items) (at self.old.two.items) (at self.new.one.items)
            (at self.new.two.items) }
        ensures far { EndsMeet i j self.old self.new }
        ensures heavy { LoadsMeet i j self.old self.new }
    {
        let first = self.other[i as usize];
        let last = self.other[j as usize];
        let load = self.load[i as usize] + self.load[j as usize];
        self.link(i, j);
        self.link(j, i);
        self.other[first as usize] = last;
        self.other[last as usize] = first;
        self.load[first as usize] = load;
        self.load[last as usize] = load;
    }

    /// Adds d to the neighbours of c, which is an end.
    fn link(&mut self, c: u32, d: u32)
        requires sizes { vec_len self.old.two ≡ vec_len self.old.one }
        requires city { c < vec_len self.old.one }
        ensures sizes { (vec_len self.new.one ≡ vec_len self.old.one) × (vec_len self.new.two ≡ vec_len self.old.one) }
        ensures linked { (x : ℕ) → AreBoth (at self.old.one.items c) (at self.old.two.items c) x 0
            → AreBoth (at self.new.one.items c) (at self.new.two.items c) x d }
        ensures rest { (b : ℕ) → b ≢ c → (at self.new.one.items b ≡ at self.old.one.items b)
            × (at self.new.two.items b ≡ at self.old.two.items b) }
        ensures same { (self.new.other ≡ self.old.other) × (self.new.load ≡ self.old.load) }
    {
        if self.one[c as usize] == 0 {
            self.one[c as usize] = d;
        } else {
            self.two[c as usize] = d;
        }
    }

    /// The neighbour of c other than `before`, from which c was reached.
    fn neighbour_past(&self, c: u32, before: u32) -> u32
        requires sizes { vec_len self.now.two ≡ vec_len self.now.one }
        requires city { c < vec_len self.now.one }
        ensures { result ≡ (if at self.now.one.items c == before then at self.now.two.items c
            else at self.now.one.items c) }
    {
        if self.one[c as usize] == before {
            self.two[c as usize]
        } else {
            self.one[c as usize]
        }
    }

    /// The cities of the path that begins at an end.
    ///
    /// # Errors
    /// `AllocError` if memory runs out.
    pub fn path(&self, alloc: Global, end: u32) -> Result<Vec<u32>, AllocError>
        requires sizes { vec_len self.now.two ≡ vec_len self.now.one }
        requires some { (xs : List ℕ) × IsWay (vec_len self.now.one - 1) (at self.now.one.items)
            (at self.now.two.items) end xs }
        ensures { IfOk result (λ v. (xs : List ℕ) → Follows (at self.now.one.items) (at self.now.two.items) 0 end xs
            → v.items ≡ end ∷ xs) }
    {
        let mut cities = Vec::new(alloc);
        let mut before = 0;
        let mut c = end;
        while c != 0 {
            cities.push(c)?;
            let next = self.neighbour_past(c, before);
            before = c;
            c = next;
        }
        Ok(cities)
    }

    /// Whether c is the smaller end of its path, and not the hub.
    fn begins_list(&self, c: u32, hub: u32) -> bool
        requires sizes { (vec_len self.now.two ≡ vec_len self.now.one)
            × (vec_len self.now.other ≡ vec_len self.now.one) }
        requires city { c < vec_len self.now.one }
        ensures { result ≡ (not (c == hub) && is_end_at self.now.one.items self.now.two.items c
            && nat_le c (at self.now.other.items c)) }
    {
        c != hub && self.is_end(c) && c <= self.other[c as usize]
    }

    /// The paths except for that of the hub, each from its smaller end.
    ///
    /// # Errors
    /// `AllocError` if memory runs out.
    pub fn lists(&self, alloc: Global, hub: u32) -> Result<Vec<Vec<u32>>, AllocError>
        requires sizes { (vec_len self.now.two ≡ vec_len self.now.one)
            × (vec_len self.now.other ≡ vec_len self.now.one) }
        requires limit { (1 ≤ vec_len self.now.one) × (vec_len self.now.one ≤ 100001) }
        requires some { (load : ℕ → ℕ) × ((joints : List Pair) × AreOf self.now load joints) }
        ensures { IfOk result (λ v. AreListsOf self.now hub v.items) }
    {
        let mut lists = Vec::new(alloc);
        for c in 1..self.one.len() as u32 {
            if self.begins_list(c, hub) {
                let list = self.path(alloc, c)?;
                lists.push(list)?;
            }
        }
        Ok(lists)
    }
}
