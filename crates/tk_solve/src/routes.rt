//! The routes of a CVRP: constructed by the savings algorithm, and then improved one by one.
ghost use Rattle.std.specs.Prelude.{IfOk};
ghost use Rattle.tk_routes.specs.RouteLists.{routes_of};
ghost use Rattle.tk_routes.specs.Cvrps.{instance_of};
ghost use Rattle.tk_solve.specs.SolvedRoutes.{AreSolved};

use crate::options::RouteOptions;
use std::alloc::{AllocError, Global};
use tk_near::near_lists;
use tk_routes::{Cvrp, RouteReport, Routes, improve, savings};

/// Routes of a CVRP: those of the savings algorithm over its near lists, each then improved on its own.
///
/// # Errors
/// `AllocError` if memory runs out.
pub fn solve_routes<'a>(
    alloc: Global,
    cvrp: &Cvrp<'a>,
    options: RouteOptions,
) -> Result<(Routes<'a>, RouteReport), AllocError>
    ensures { IfOk result (λ r. AreSolved (instance_of cvrp.now) options.candidates options.or_segment
        (routes_of r.0) r.1) }
{
    let table = cvrp.table();
    let near = near_lists(alloc, &table, options.candidates.min(cvrp.customers()))?;
    let mut routes = savings(alloc, cvrp, &near)?;
    let report = improve(
        alloc,
        cvrp,
        &mut routes,
        options.candidates,
        options.or_segment,
    )?;
    Ok((routes, report))
}
