//! Tours: check, length, tour stores and moves made of flips; array tours and their canonical form, and journals that
//! undo flips.
#![tactic(auto)]

mod fault;
pub mod laws;
mod measure;
mod sides;
mod store;
mod stores;
mod undo;
mod verdict;

pub use fault::TourFault;
pub use measure::length;
pub use sides::{Positions, shorter_side};
pub use store::{Flip, Neighbourhood, TourStore};
pub use stores::array::ArrayTour;
pub use stores::journal::JournalTour;
pub use stores::placing::place_each;
pub use undo::UndoStore;
pub use verdict::{Verdict, check, place_cities};
