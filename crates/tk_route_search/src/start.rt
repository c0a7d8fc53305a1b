//! Routes, as a search begins with them.
ghost use Rattle.std.specs.Prelude.{◌≡◌, IfOk, pos};
ghost use Rattle.tk_lists.specs.Solution.{lists_of};
ghost use Rattle.tk_routes.specs.Cvrps.{instance_of};
ghost use Rattle.tk_routes.specs.RouteVerdicts.{filled_of};
ghost use Rattle.tk_routes.specs.Routes.{AreRoutes, routes_cost};

use std::alloc::{AllocError, Global};
use tk_routes::Cvrp;

/// A copy of the routes with a customer.
pub(crate) fn filled(alloc: Global, routes: &[Vec<u32>]) -> Result<Vec<Vec<u32>>, AllocError>
    ensures { IfOk result (λ v. lists_of v.items ≡ filled_of (lists_of routes.now)) }
{
    let mut copies = Vec::new(alloc);
    for route in routes {
        if !route.is_empty() {
            copies.push(route.clone()?)?;
        }
    }
    Ok(copies)
}

/// The cost of routes: the sum of their lengths.
pub(crate) fn cost_of(cvrp: &Cvrp<'_>, routes: &[Vec<u32>]) -> i64
    requires { AreRoutes (instance_of cvrp.now) (lists_of routes.now) }
    ensures { result ≡ pos (routes_cost (instance_of cvrp.now) (lists_of routes.now)) }
{
    let mut cost = 0;
    for route in routes {
        cost += cvrp.length(route);
    }
    cost
}
