//! The contents of a tour text and of a solution text.

/// The numbers that a tour text lists.
#[derive(Drop)]
pub struct TourText {
    pub cities: Vec<u32>,
}

/// The routes of a solution text, as lists of customer numbers, and the cost that it states.
#[derive(Drop)]
pub struct SolText {
    pub routes: Vec<Vec<u32>>,
    pub cost: i64,
}
