//! Starting tours: nearest neighbour, the savings algorithm and its joints.
pub mod joints;
pub mod nearest_tours;
pub mod savings;
