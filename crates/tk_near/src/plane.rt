//! Near lists in the plane, by a k-d tree and by a sweep, and the unvisited cities of a tree.
pub mod city_point;
pub mod collector;
pub mod partition_at_median;
pub mod sweep;
pub mod tree;
pub mod unvisited;
