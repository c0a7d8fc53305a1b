//! Lists of pairs. They are stored as keys, which take half the memory of pairs and less time to compare.
ghost use Rattle.std.specs.Prelude.{◌≡◌, ◌<◌, ◌++◌, ◌∷◌, [], ◌↔◌, OnOk, List, map, length, slice_index_or};
ghost use Rattle.std.specs.List.{All, AllPairs, Contains};
ghost use Rattle.std.specs.List.Sorted.{IsPermutation};
ghost use Rattle.tk_starts.specs.PairKeys.{pair_at};
ghost use Rattle.tk_starts.specs.SavingPairs.{Before};
ghost use Rattle.tk_starts.specs.declared.merges.pairs.Pair.{Pair};

use crate::merges::pairs::Pair;
use std::alloc::{AllocError, Global};
use std::cmp::Reverse;
use std::marker::Model;

/// Savings below this fit into a key.
const SAVING_END: u64 = 1_073_741_824;

/// Cities below this fit into a key.
const CITY_END: u64 = 131_072;

/// A list of pairs: those with a saving of 2^30 or more, which come first, and the keys of the others.
#[derive(Drop)]
pub(crate) struct PairList {
    wide: Vec<Pair>,
    keys: Vec<u64>,
}

impl Model for PairList {
    ghost use Rattle.std.specs.Prelude.{List, map, ◌++◌};
    ghost use Rattle.std.specs.List.{All};
    ghost use Rattle.tk_starts.specs.PairKeys.{pair_at, IsKey, IsWide};
    ghost use Rattle.tk_starts.specs.declared.merges.pairs.Pair.{Pair};

    ghost Value = { List Pair };

    ghost view = { λ v. v.wide.items ++ map pair_at v.keys.items };

    ghost invariant = { λ v. All IsWide v.wide.items × All IsKey v.keys.items };
}

/// The key of a pair whose saving and cities fit into one.
fn key_of(pair: &Pair) -> u64
    requires saving { pair.now.saving.0 < 1073741824 }
    requires cities { (pair.now.i < 131072) × (pair.now.j < 131072) }
    ensures { pair_at result ≡ pair.now }
{
    ((SAVING_END - 1 - pair.saving.0) * CITY_END + pair.i as u64) * CITY_END + pair.j as u64
}

/// The pair that a key represents.
fn pair_of(key: u64) -> Pair
    ensures { result ≡ pair_at key }
{
    let cities = key / CITY_END;
    Pair {
        saving: Reverse(SAVING_END - 1 - cities / CITY_END),
        i: (cities % CITY_END) as u32,
        j: (key % CITY_END) as u32,
    }
}

impl PairList {
    /// An empty list.
    pub(crate) fn new(alloc: Global) -> PairList
        ensures { result ≡ [] }
    {
        PairList {
            wide: Vec::new(alloc),
            keys: Vec::new(alloc),
        }
    }

    /// Adds a pair, at any position.
    ///
    /// # Errors
    /// `AllocError` if memory runs out.
    pub(crate) fn push(&mut self, pair: Pair) -> Result<(), AllocError>
        requires cities { (pair.i < 131072) × (pair.j < 131072) }
        ensures { OnOk result (IsPermutation (self.old ++ pair ∷ []) self.new) }
    {
        if pair.saving.0 < SAVING_END {
            self.keys.push(key_of(&pair))?;
        } else {
            self.wide.push(pair)?;
        }
        Ok(())
    }

    /// Sorts the pairs in the order of the savings rule, and removes repetitions.
    pub(crate) fn put_in_order(&mut self)
        ensures order { AllPairs Before self.new }
        ensures all { (p : Pair) → Contains self.new p ↔ Contains self.old p }
    {
        self.wide.sort_unstable();
        self.wide.dedup();
        self.keys.sort_unstable();
        self.keys.dedup();
    }

    /// The number of pairs.
    pub(crate) fn len(&self) -> usize
        ensures { result ≡ length self.now }
    {
        self.wide.len() + self.keys.len()
    }

    /// The pair at a position, counted from 0.
    pub(crate) fn at(&self, k: usize) -> Pair
        requires { k < length self.now }
        ensures { result ≡ slice_index_or self.now k result }
    {
        if k < self.wide.len() {
            self.wide[k]
        } else {
            pair_of(self.keys[k - self.wide.len()])
        }
    }
}
