//! The routing data of a CVRP.

/// The capacity of a vehicle, the demand of each node, and the node of the depot. Nodes are numbered from 1.
#[derive(Drop)]
pub struct Routing {
    pub capacity: u32,
    pub demand: Vec<u32>,
    pub depot: u32,
}
