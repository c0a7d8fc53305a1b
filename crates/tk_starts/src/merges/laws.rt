//! Laws of the savings algorithm, as contracts of functions that do nothing.
ghost use Rattle.std.specs.Prelude.{◌≡◌, ◌↔◌};
ghost use Rattle.tk_starts.specs.Joints.{part, IsConnected};
ghost use Rattle.tk_starts.specs.SavingsMerges.{PairsAgree, ListsAgree};

use crate::merges::pairs::Pair;

/// A law: two cities are in the same part exactly if a path of joints leads from one to the other.
pub fn parts_are_connected(joints: &[Pair], a: u32, b: u32)
    ensures { (part joints.now a ≡ part joints.now b) ↔ IsConnected joints.now a b }
{}

/// A law: the distances and the near lists determine the pairs of the savings rule, and their order.
pub fn saving_pairs_agree()
    ensures { PairsAgree }
{}

/// A law: together with the loads and the capacity, they determine the lists of the savings algorithm: the order of the
/// lists, and the order of the cities in each.
pub fn savings_lists_agree()
    ensures { ListsAgree }
{}
