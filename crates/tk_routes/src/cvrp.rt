//! A capacitated vehicle routing problem (CVRP).
ghost use Rattle.std.specs.Prelude.{◌≡◌, ◌≤◌, ◌<◌, ◌-◌, All, None, IfNone, IfSome, length, pos, slice_index};
ghost use Rattle.tk_problem.specs.declared.limits.TheConstants.{CAPACITY_LIMIT, CITY_LIMIT, TABLE_LIMIT};
ghost use Rattle.tk_distance.specs.Cities.{IsCity};
ghost use Rattle.tk_distance.specs.Tables.{table_size, table_distance};

use tk_distance::{Metric, Table};
use tk_problem::Problem;

/// A CVRP: the distances between its nodes, their demands, the capacity of a vehicle, and the node of the depot.
/// Customer k is the k-th node that is not the depot.
#[derive(Clone, Copy)]
pub struct Cvrp<'a> {
    /// The distances between the nodes.
    pub table: Table<'a>,
    /// The demand of each node.
    pub demands: &'a [u32],
    /// The maximum load of a vehicle.
    pub capacity: u32,
    /// The node of the depot.
    pub depot: u32,
    ghost low: { 2 ≤ table_size table },
    ghost few: { table_size table ≤ TABLE_LIMIT },
    ghost each: { length demands.now ≡ table_size table },
    ghost loads: { All (λ q. q ≤ capacity) demands.now },
    ghost limit: { capacity ≤ CAPACITY_LIMIT },
    ghost known: { IsCity (table_size table) depot },
    ghost rests: { slice_index demands.now (depot - 1) ≡ 0 },
}

impl<'a> Cvrp<'a> {
    ghost use Rattle.tk_routes.specs.Cvrps.{instance_of};
    ghost use Rattle.tk_routes.specs.Instance.{IsInstanceOf, customer_count, demand_of, node_of};
    ghost use Rattle.tk_routes.specs.Routes.{route_length, route_load};

    /// The CVRP that a problem describes; `None` for a TSP.
    pub fn of(problem: &'a Problem) -> Option<Cvrp<'a>>
        ensures some { IfSome result (λ c. IsInstanceOf problem.now (instance_of c)) }
        ensures none { IfNone result (problem.now.routing ≡ None) }
    {
        let routing = problem.routing.as_ref()?;
        Some(Cvrp {
            table: Table::of(problem),
            demands: &routing.demand,
            capacity: routing.capacity,
            depot: routing.depot,
        })
    }

    /// The distances between the nodes.
    pub fn table(&self) -> Table<'a>
        ensures size { table_size result ≡ (instance_of self.now).size }
        ensures distance { table_distance result ≡ (instance_of self.now).distance }
    {
        self.table
    }

    /// The number of customers.
    pub fn customers(&self) -> u32
        ensures value { result ≡ customer_count (instance_of self.now) }
        ensures some { 1 ≤ result }
        ensures few { result < TABLE_LIMIT }
    {
        self.table.size() - 1
    }

    /// The node of the depot.
    pub fn depot(&self) -> u32
        ensures value { result ≡ (instance_of self.now).depot }
        ensures known { IsCity (instance_of self.now).size result }
    {
        self.depot
    }

    /// The maximum load of a vehicle.
    pub fn capacity(&self) -> u32
        ensures value { result ≡ (instance_of self.now).capacity }
        ensures limit { result ≤ CAPACITY_LIMIT }
    {
        self.capacity
    }

    /// The node of a customer.
    pub fn node(&self, customer: u32) -> u32
        requires { IsCity (customer_count (instance_of self.now)) customer }
        ensures value { result ≡ node_of (instance_of self.now).depot customer }
        ensures known { IsCity (instance_of self.now).size result }
    {
        if customer < self.depot {
            customer
        } else {
            customer + 1
        }
    }

    /// The demand of a customer.
    pub fn demand(&self, customer: u32) -> u32
        requires { IsCity (customer_count (instance_of self.now)) customer }
        ensures value { result ≡ demand_of (instance_of self.now) customer }
        ensures limit { result ≤ CAPACITY_LIMIT }
    {
        self.demands[self.node(customer) as usize - 1]
    }

    /// The load of a route: the sum of the demands of its customers.
    pub fn load(&self, route: &[u32]) -> u64
        requires known { All (IsCity (customer_count (instance_of self.now))) route.now }
        requires few { length route.now ≤ CITY_LIMIT }
        ensures { result ≡ route_load (instance_of self.now) route.now }
    {
        let mut load = 0;
        for &customer in route {
            load += self.demand(customer) as u64;
        }
        load
    }

    /// The length of a route, from the depot and back to it; 0 if it has no customer.
    pub fn length(&self, route: &[u32]) -> i64
        requires known { All (IsCity (customer_count (instance_of self.now))) route.now }
        requires few { length route.now ≤ CITY_LIMIT }
        ensures { result ≡ pos (route_length (instance_of self.now) route.now) }
    {
        let mut from = self.depot;
        let mut total = 0;
        for &customer in route {
            let node = self.node(customer);
            total += self.table.dist(from, node);
            from = node;
        }
        total + self.table.dist(from, self.depot)
    }
}
