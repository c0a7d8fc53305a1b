//! The numbers of customers.
ghost use Rattle.std.specs.Prelude.{◌≡◌, ◌≢◌, ◌-◌, ◌<◌, ℕ};
ghost use Rattle.tk_distance.specs.Cities.{IsCity};
ghost use Rattle.tk_routes.specs.Instance.{customer_of, node_of};

/// A law: the nodes of the customers 1 to n - 1 are the nodes other than the depot, in ascending order.
pub fn customers_are_the_other_nodes(n: u32, depot: u32)
    requires { IsCity n depot }
    ensures rising { (k l : ℕ) → k < l → node_of depot k < node_of depot l }
    ensures nodes { (k : ℕ) → IsCity (n - 1) k → IsCity n (node_of depot k) }
    ensures others { (k : ℕ) → node_of depot k ≢ depot }
    ensures each { (c : ℕ) → IsCity n c → c ≢ depot → IsCity (n - 1) (customer_of depot c) }
    ensures back { (c : ℕ) → c ≢ depot → node_of depot (customer_of depot c) ≡ c }
{}
