//! Distances and near lists, and the definition of distances evaluated on examples.
mod columns;
mod decimals;
mod distances;
mod examples;
mod lists;
