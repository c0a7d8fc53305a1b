//! The construction and improvement of routes.
ghost use Rattle.std.specs.Prelude.{◌≡◌, IfSome};
ghost use Rattle.tk_routes.specs.RouteLists.{instance_of_routes};
ghost use Rattle.tk_routes.specs.Cvrps.{instance_of};

use crate::host::Host;
use crate::lists::near_of;
use crate::{again, call};
use std::alloc::{AllocError, Global};
use tk_metric::Near;
use tk_routes::{Cvrp, RouteReport, RouteVerdict, Routes, check_routes, improve, savings};
use tk_text::{Problem, SolText};

/// A solution with the current routes and this cost.
fn claim(alloc: Global, routes: &Routes<'_>, cost: i64) -> Result<SolText, AllocError> {
    Ok(SolText {
        routes: routes.lists().to_vec(alloc)?,
        cost,
    })
}

/// The verdict on the current routes and this cost.
fn judge(
    alloc: Global,
    cvrp: &Cvrp<'_>,
    routes: &Routes<'_>,
    cost: i64,
) -> Result<RouteVerdict, AllocError> {
    check_routes(alloc, cvrp, &claim(alloc, routes, cost)?)
}

/// Prints the verdict on the current routes and this cost.
fn show_verdict(host: &Host<'_>, cvrp: &Cvrp<'_>, routes: &Routes<'_>, cost: i64) {
    call!(host, "check_routes", judge(host.alloc, cvrp, routes, cost));
}

/// Savings routes over these near lists.
fn saved<'a>(host: &Host<'_>, cvrp: &Cvrp<'a>, near: &Near) -> Option<Routes<'a>>
    requires size { near.now.size ≡ (instance_of cvrp.now).size }
    ensures instance { IfSome result (λ routes. instance_of_routes routes ≡ instance_of cvrp.now) }
{
    again!(host, "savings", savings(host.alloc, cvrp, near))
}

/// Savings routes over near lists of length k.
fn saved_over<'a>(host: &Host<'_>, cvrp: &Cvrp<'a>, k: u32) -> Option<Routes<'a>>
    ensures instance { IfSome result (λ routes. instance_of_routes routes ≡ instance_of cvrp.now) }
{
    let near = near_of(host, &cvrp.table(), k)?;
    saved(host, cvrp, &near)
}

/// Improves routes, with at most five candidates for each node and segments of at most three nodes.
fn shorten(
    alloc: Global,
    cvrp: &Cvrp<'_>,
    routes: &mut Routes<'_>,
) -> Result<RouteReport, AllocError>
    requires instance { instance_of_routes routes.old ≡ instance_of cvrp.now }
    ensures kept { instance_of_routes routes.new ≡ instance_of_routes routes.old }
{
    improve(alloc, cvrp, routes, 5, 3)
}

/// Improves the only savings route. If memory runs out, it must be unchanged, and is improved by another call.
fn improve_saved(host: &Host<'_>, cvrp: &Cvrp<'_>, routes: &mut Routes<'_>) -> Option<RouteReport>
    requires instance { instance_of_routes routes.old ≡ instance_of cvrp.now }
    ensures kept { instance_of_routes routes.new ≡ instance_of_routes routes.old }
{
    if let Ok(report) = shorten(host.alloc, cvrp, routes) {
        return Some(report);
    }
    if let Some(verdict) = host.value_of(judge(host.alloc, cvrp, routes, 60)) {
        host.tell_kept("improve", &verdict);
    }
    host.value_of(shorten(host.alloc, cvrp, routes))
}

/// Improves a route that no move can shorten.
fn improve_again(host: &Host<'_>, cvrp: &Cvrp<'_>, routes: &mut Routes<'_>)
    requires instance { instance_of_routes routes.old ≡ instance_of cvrp.now }
{
    call!(host, "improve again", shorten(host.alloc, cvrp, routes));
}

/// Prints a savings route, improves it, and prints its verdicts. Then improves it again, with no move left.
fn improve_twice(host: &Host<'_>, cvrp: &Cvrp<'_>, routes: &mut Routes<'_>)
    requires instance { instance_of_routes routes.old ≡ instance_of cvrp.now }
{
    host.tell("savings", &routes.lists());
    show_verdict(host, cvrp, routes, 60);
    host.tell_answer("improve", improve_saved(host, cvrp, routes));
    host.tell("improved", &routes.lists());
    show_verdict(host, cvrp, routes, 53);
    improve_again(host, cvrp, routes);
}

/// Makes a savings route of a problem with four customers, and improves it.
pub fn improve_one(host: &Host<'_>, problem: &Problem) {
    let Some(cvrp) = Cvrp::of(problem) else {
        return host.fail();
    };
    if let Some(mut routes) = saved_over(host, &cvrp, 4) {
        improve_twice(host, &cvrp, &mut routes);
    }
}

/// Improves two routes. If memory runs out, each of them is unchanged or improved; the first one is improved first.
fn improve_both(host: &Host<'_>, cvrp: &Cvrp<'_>, routes: &mut Routes<'_>) -> Option<RouteReport>
    requires instance { instance_of_routes routes.old ≡ instance_of cvrp.now }
{
    if let Ok(report) = shorten(host.alloc, cvrp, routes) {
        return Some(report);
    }
    host.tell_kept("improve two", &routes.lists());
    host.value_of(shorten(host.alloc, cvrp, routes))
}

/// Prints two savings routes, improves them, and prints their cost and the routes.
fn show_both_improved(host: &Host<'_>, cvrp: &Cvrp<'_>, routes: &mut Routes<'_>)
    requires instance { instance_of_routes routes.old ≡ instance_of cvrp.now }
{
    host.tell("savings", &routes.lists());
    if let Some(report) = improve_both(host, cvrp, routes) {
        println!(host; "improve two: cost {}", report.after);
    }
    host.tell("improved", &routes.lists());
}

/// Makes two savings routes of a problem, and improves them.
pub fn improve_two(host: &Host<'_>, problem: &Problem) {
    let Some(cvrp) = Cvrp::of(problem) else {
        return host.fail();
    };
    if let Some(mut routes) = saved_over(host, &cvrp, 3) {
        show_both_improved(host, &cvrp, &mut routes);
    }
}
