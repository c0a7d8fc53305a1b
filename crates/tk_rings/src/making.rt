//! The ring of the routes of a CVRP.
ghost use Rattle.std.specs.Prelude.{◌≡◌, ◌+◌, ◌≤◌, IfOk, All, length};
ghost use Rattle.tk_problem.specs.declared.limits.TheConstants.{CITY_LIMIT};
ghost use Rattle.tk_distance.specs.Cities.{IsCity};
ghost use Rattle.tk_lists.specs.Solution.{lists_of};
ghost use Rattle.tk_routes.specs.Cvrps.{instance_of};
ghost use Rattle.tk_routes.specs.Instance.{customer_count};
ghost use Rattle.tk_routes.specs.Routes.{AreRoutes, routes_cost};
ghost use Rattle.tk_tour.specs.Tour.{IsTour, tour_length};
ghost use Rattle.tk_rings.specs.Capacities.{IsFitting};
ghost use Rattle.tk_rings.specs.RingRoutes.{demands_of, ring_distance, ring_nodes, ring_of, ring_size};

use std::alloc::{AllocError, Global};
use tk_routes::Cvrp;

/// The ring of routes: a copy of the depot before each route, and one after the last. With R routes there are R + 1
/// copies, so that the last of them and the first have an empty route between them.
///
/// # Errors
/// `AllocError` if memory runs out.
pub fn ring_of(alloc: Global, cvrp: &Cvrp<'_>, routes: &[Vec<u32>]) -> Result<Vec<u32>, AllocError>
    requires { AreRoutes (instance_of cvrp.now) (lists_of routes.now) }
    ensures ring { IfOk result (λ v. v.items ≡ ring_of (instance_of cvrp.now) (lists_of routes.now)) }
    ensures tour { IfOk result (λ v. IsTour (ring_size (instance_of cvrp.now) (lists_of routes.now)) v.items) }
    ensures size { IfOk result (λ v. length v.items ≤ CITY_LIMIT) }
    ensures fits { IfOk result (λ v.
        IsFitting (instance_of cvrp.now).capacity (demands_of (instance_of cvrp.now)) v.items) }
    ensures cost { IfOk result (λ v.
        tour_length (ring_distance (instance_of cvrp.now) (length routes.now + 1)) v.items
        ≡ routes_cost (instance_of cvrp.now) (lists_of routes.now)) }
{
    let mut copy = cvrp.customers() + 1;
    let mut ring = Vec::new(alloc);
    ring.push(copy)?;
    for route in routes {
        copy += 1;
        ring.extend_from_slice(route)?;
        ring.push(copy)?;
    }
    Ok(ring)
}

/// The node of each element of a ring: those of the customers, and the depot's for each copy.
///
/// # Errors
/// `AllocError` if memory runs out.
pub fn ring_nodes(alloc: Global, cvrp: &Cvrp<'_>, copies: u32) -> Result<Vec<u32>, AllocError>
    ensures nodes { IfOk result (λ v. v.items ≡ ring_nodes (instance_of cvrp.now) copies) }
    ensures size { IfOk result (λ v. length v.items ≡ customer_count (instance_of cvrp.now) + copies) }
    ensures known { IfOk result (λ v. All (IsCity (instance_of cvrp.now).size) v.items) }
{
    let mut nodes = Vec::new(alloc);
    for k in 0..cvrp.customers() {
        nodes.push(cvrp.node(k + 1))?;
    }
    for j in 0..copies {
        nodes.push(cvrp.depot())?;
    }
    Ok(nodes)
}

/// The demands of the customers, by which a ring fits or not.
///
/// # Errors
/// `AllocError` if memory runs out.
pub fn ring_demands(alloc: Global, cvrp: &Cvrp<'_>) -> Result<Vec<u32>, AllocError>
    ensures { IfOk result (λ v. v.items ≡ demands_of (instance_of cvrp.now)) }
{
    let mut demands = Vec::new(alloc);
    for k in 0..cvrp.customers() {
        demands.push(cvrp.demand(k + 1))?;
    }
    Ok(demands)
}
