//! The routes of a ring.
ghost use Rattle.std.specs.Prelude.{◌≡◌, ◌+◌, ◌-◌, ◌<◌, ◌≤◌, IfOk, OnOk, All, [], length, vec_len};
ghost use Rattle.tk_lists.specs.Solution.{lists_of};
ghost use Rattle.tk_routes.specs.Cvrps.{instance_of};
ghost use Rattle.tk_routes.specs.Instance.{customer_count};
ghost use Rattle.tk_routes.specs.RouteVerdicts.{filled_of};
ghost use Rattle.tk_routes.specs.Routes.{AreRoutes, routes_cost};
ghost use Rattle.tk_tour.specs.Tour.{IsTour, tour_length};
ghost use Rattle.tk_rings.specs.Capacities.{IsFitting};
ghost use Rattle.tk_rings.specs.RingRoutes.{AreRoutesOf, behind_copy, demands_of, first_of, paths_of};
ghost use Rattle.tk_rings.specs.RingRoutes.{ring_distance, turned_route};
ghost use Rattle.tk_near.specs.Keeping.{insert_by};

use std::alloc::{AllocError, Global};
use tk_routes::Cvrp;

/// The elements of a ring behind its first copy of the depot, which is the last of them.
fn from_copy(alloc: Global, customers: u32, ring: &[u32]) -> Result<Vec<u32>, AllocError>
    ensures { IfOk result (λ v. v.items ≡ behind_copy customers [] ring.now) }
{
    let mut elements = Vec::with_capacity(alloc, ring.len())?;
    for k in 0..ring.len() {
        if ring[k] > customers {
            elements.extend_from_slice(&ring[k + 1..])?;
            elements.extend_from_slice(&ring[..k])?;
            elements.push(ring[k])?;
            return Ok(elements);
        }
    }
    elements.extend_from_slice(ring)?;
    Ok(elements)
}

/// A route, turned round if its first customer is greater than its last.
fn turned(mut route: Vec<u32>) -> Vec<u32>
    requires { 1 ≤ vec_len route }
    ensures { result.items ≡ turned_route route.items }
{
    if route[0] > route[route.len() - 1] {
        route.reverse();
    }
    route
}

/// Puts a route among others that are ordered by their first customers.
fn place(routes: &mut Vec<Vec<u32>>, route: Vec<u32>) -> Result<(), AllocError>
    requires some { 1 ≤ vec_len route }
    requires each { All (λ r. 1 ≤ length r) (lists_of routes.old.items) }
    ensures { OnOk result (lists_of routes.new.items ≡ insert_by first_of route.items (lists_of routes.old.items)) }
{
    for k in 0..routes.len() {
        if route[0] < routes[k][0] {
            routes.insert(k, route)?;
            return Ok(());
        }
    }
    routes.push(route)?;
    Ok(())
}

/// The routes of a ring: the customers between two copies of the depot, if there are any. Each route begins at its
/// smaller end, and they are ordered by first customer.
///
/// # Errors
/// `AllocError` if memory runs out.
pub fn routes_of(alloc: Global, cvrp: &Cvrp<'_>, ring: &[u32]) -> Result<Vec<Vec<u32>>, AllocError>
    requires ring { IsTour (length ring.now) ring.now }
    requires copies { customer_count (instance_of cvrp.now) < length ring.now }
    requires fits { IsFitting (instance_of cvrp.now).capacity (demands_of (instance_of cvrp.now)) ring.now }
    ensures read { IfOk result (λ v. AreRoutesOf (customer_count (instance_of cvrp.now)) ring.now (lists_of v.items)) }
    ensures routes { IfOk result (λ v. AreRoutes (instance_of cvrp.now) (lists_of v.items)) }
    ensures count { IfOk result (λ v. vec_len v
        ≡ length (filled_of (paths_of (customer_count (instance_of cvrp.now)) ring.now))) }
    ensures few { IfOk result (λ v. vec_len v + customer_count (instance_of cvrp.now) ≤ length ring.now) }
    ensures cost { IfOk result (λ v. routes_cost (instance_of cvrp.now) (lists_of v.items)
        ≡ tour_length (ring_distance (instance_of cvrp.now)
        (length ring.now - customer_count (instance_of cvrp.now))) ring.now) }
{
    let customers = cvrp.customers();
    let elements = from_copy(alloc, customers, ring)?;
    let mut routes = Vec::new(alloc);
    let mut route = Vec::new(alloc);
    for &c in &elements {
        if c <= customers {
            route.push(c)?;
        } else if !route.is_empty() {
            place(&mut routes, turned(route))?;
            route = Vec::new(alloc);
        }
    }
    Ok(routes)
}
