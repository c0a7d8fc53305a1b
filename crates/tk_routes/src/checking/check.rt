//! The check of the routes of a solution.
ghost use Rattle.std.specs.Prelude.{◌≡◌, ◌≤◌, ◌+◌, ℕ, IfOk, List, [], MatchOption, ◌∷◌, ◌++◌, length, map, pos};
ghost use Rattle.std.specs.List.{All, concat};
ghost use Rattle.tk_problem.specs.declared.limits.TheConstants.{TABLE_LIMIT};
ghost use Rattle.tk_routes.specs.Cvrps.{instance_of};
ghost use Rattle.tk_routes.specs.Instance.{customer_count};
ghost use Rattle.tk_routes.specs.Routes.{IsLight, routes_cost};
ghost use Rattle.tk_routes.specs.Serving.{AreServed, IsLowestFree};
ghost use Rattle.tk_routes.specs.RouteVerdicts.{AreServedOnce, IsCustomerFault, IsFirstOverIn, IsRouteVerdict};
ghost use Rattle.tk_routes.specs.RouteVerdicts.{filled_of};

use crate::checking::verdict::RouteVerdict;
use crate::cvrp::Cvrp;
use std::alloc::{AllocError, Global};
use tk_lists::SolText;

/// Marks the customers of a route as served, up to the first fault, which it returns: a number that is not a customer,
/// or a customer that was marked before. `number` is the number of the route, counted from 1.
fn serve(number: u64, route: &[u32], served: &mut [bool]) -> Option<RouteVerdict>
    ensures { (before after : List (List ℕ)) → number ≡ length before + 1 → AreServed served.old (concat before) →
        MatchOption result (AreServed served.new (concat before ++ route.now))
        (IsCustomerFault (length served.old) (before ++ route.now ∷ after)) }
{
    for &customer in route {
        if customer == 0 || customer as usize > served.len() {
            return Some(RouteVerdict::BadCustomer(number, customer));
        }
        if served[customer as usize - 1] {
            return Some(RouteVerdict::ServedTwice(customer));
        }
        served[customer as usize - 1] = true;
    }
    None
}

/// Marks the customers of all routes as served, up to the first fault, which it returns.
fn serve_all(routes: &[Vec<u32>], served: &mut [bool]) -> Option<RouteVerdict>
    requires { AreServed served.old [] }
    ensures { MatchOption result (AreServed served.new (concat (map
        (λ r. r.items) routes.now))) (IsCustomerFault (length served.old) (map (λ r. r.items) routes.now)) }
{
    for (k, route) in routes.iter().enumerate() {
        if let Some(fault) = serve(k as u64 + 1, route, served) {
            return Some(fault);
        }
    }
    None
}

/// The verdict on the first route whose load exceeds the capacity, or `None`.
fn first_over(cvrp: &Cvrp<'_>, routes: &[Vec<u32>]) -> Option<RouteVerdict>
    requires { AreServedOnce (customer_count (instance_of cvrp.now)) (concat (map (λ r. r.items) routes.now)) }
    ensures { MatchOption result (All (IsLight (instance_of cvrp.now)) (map
        (λ r. r.items) routes.now)) (IsFirstOverIn (instance_of cvrp.now) (map (λ r. r.items) routes.now)) }
{
    for (k, route) in routes.iter().enumerate() {
        let load = cvrp.load(route);
        if load > cvrp.capacity() as u64 {
            return Some(RouteVerdict::OverCapacity(k as u64 + 1, load));
        }
    }
    None
}

/// The lowest customer that is not served, or `None`.
fn first_missing(served: &[bool]) -> Option<u32>
    requires { length served.now ≤ TABLE_LIMIT }
    ensures { IsLowestFree served.now result }
{
    for k in 0..served.len() {
        if !served[k] {
            return Some(k as u32 + 1);
        }
    }
    None
}

/// The cost of the routes: the sum of their lengths.
pub fn cost_of(cvrp: &Cvrp<'_>, routes: &[Vec<u32>]) -> i64
    requires { AreServedOnce (customer_count (instance_of cvrp.now)) (concat (map (λ r. r.items) routes.now)) }
    ensures { result ≡ pos (routes_cost (instance_of cvrp.now) (map (λ r. r.items) routes.now)) }
{
    let mut cost = 0;
    for route in routes {
        cost += cvrp.length(route);
    }
    cost
}

/// The number of routes with a customer.
fn count_filled(routes: &[Vec<u32>]) -> u64
    ensures { result ≡ length (filled_of (map (λ r. r.items) routes.now)) }
{
    let mut count = 0;
    for route in routes {
        if !route.is_empty() {
            count += 1;
        }
    }
    count
}

/// The verdict on routes without a customer fault: each number is a customer, and none occurs twice.
fn judge(cvrp: &Cvrp<'_>, served: &[bool], text: &SolText) -> RouteVerdict
    requires size { length served.now ≡ customer_count (instance_of cvrp.now) }
    requires served { AreServed served.now (concat (map (λ r. r.items) text.now.routes.items)) }
    ensures { IsRouteVerdict (instance_of cvrp.now) (map (λ r. r.items) text.now.routes.items) text.now.cost result }
{
    if let Some(fault) = first_over(cvrp, &text.routes) {
        return fault;
    }
    if let Some(customer) = first_missing(served) {
        return RouteVerdict::NotServed(customer);
    }
    let cost = cost_of(cvrp, &text.routes);
    if text.cost == cost {
        RouteVerdict::Valid {
            routes: count_filled(&text.routes),
            cost,
        }
    } else {
        RouteVerdict::WrongCost(text.cost, cost)
    }
}

/// Whether the routes of a solution are valid and have the cost that it states, or the first fault.
///
/// # Errors
/// `AllocError` if memory runs out.
pub fn check_routes(
    alloc: Global,
    cvrp: &Cvrp<'_>,
    text: &SolText,
) -> Result<RouteVerdict, AllocError>
    ensures { IfOk result (IsRouteVerdict (instance_of cvrp.now) (map
        (λ r. r.items) text.now.routes.items) text.now.cost) }
{
    let mut served = vec![in alloc; false; cvrp.customers() as usize]?;
    if let Some(fault) = serve_all(&text.routes, &mut served) {
        return Ok(fault);
    }
    Ok(judge(cvrp, &served, text))
}
