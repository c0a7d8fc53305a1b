//! Routes by the savings algorithm.
ghost use Rattle.std.specs.Prelude.{◌≡◌, IfOk, map};
ghost use Rattle.tk_near.specs.Near.{near_of};
ghost use Rattle.tk_routes.specs.Cvrps.{instance_of};
ghost use Rattle.tk_routes.specs.Instance.{customer_of};
ghost use Rattle.tk_routes.specs.RouteLists.{instance_of_routes, routes_of};
ghost use Rattle.tk_routes.specs.Routes.{AreRoutes};
ghost use Rattle.tk_routes.specs.SavingsRoutes.{AreSavingsRoutes};

use crate::cvrp::Cvrp;
use crate::routes::Routes;
use std::alloc::{AllocError, Global};
use tk_near::Near;
use tk_starts::savings_lists;

/// Replaces each node by the number of its customer.
fn number_customers(depot: u32, nodes: &mut [u32])
    ensures { nodes.new ≡ map (customer_of depot) nodes.old }
{
    for node in nodes.iter_mut() {
        if *node > depot {
            *node -= 1;
        }
    }
}

/// Replaces each node of each list by the number of its customer.
fn number_all(depot: u32, lists: &mut [Vec<u32>])
    ensures { map (λ r. r.items) lists.new ≡ map (map (customer_of depot)) (map (λ r. r.items) lists.old) }
{
    for list in lists.iter_mut() {
        number_customers(depot, list);
    }
}

/// The routes of the savings algorithm. Each customer begins on a route of its own. The pairs of near customers then
/// join routes at their ends, the largest saving first, if the total load is at most the capacity. Each route begins at
/// its smaller end, and the routes are ordered by first customer.
///
/// # Errors
/// `AllocError` if memory runs out.
pub fn savings<'a>(alloc: Global, cvrp: &Cvrp<'a>, near: &Near) -> Result<Routes<'a>, AllocError>
    requires { near.now.size ≡ (instance_of cvrp.now).size }
    ensures merged { IfOk result (λ v. AreSavingsRoutes (instance_of cvrp.now) (near_of near.now) (routes_of v)) }
    ensures instance { IfOk result (λ v. instance_of_routes v ≡ instance_of cvrp.now) }
    ensures routes { IfOk result (λ v. AreRoutes (instance_of cvrp.now) (routes_of v)) }
{
    let mut lists = savings_lists(
        alloc,
        &cvrp.table,
        cvrp.depot,
        cvrp.demands,
        cvrp.capacity as u64,
        near,
    )?;
    number_all(cvrp.depot, &mut lists);
    Ok(Routes { cvrp: *cvrp, lists })
}
