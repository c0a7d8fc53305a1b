//! Starting tours.
ghost use Rattle.std.specs.Prelude.{◌≡◌, ◌≤◌};

use crate::call;
use crate::host::Host;
use crate::lists::near_of;
use tk_build::{nearest, savings_lists, savings_tour};
use tk_metric::{Metric, Near, Table};
use tk_text::Problem;

/// Constructs and prints a nearest-neighbour tour.
fn start_nearest<M: Metric>(host: &Host<'_>, metric: &M)
    requires { 1 ≤ M.size_of metric.now }
{
    call!(host, "nearest", nearest(host.alloc, metric, 1));
}

/// Constructs and prints a savings tour.
fn start_by_savings<M: Metric>(host: &Host<'_>, metric: &M, near: &Near)
    requires some { 1 ≤ M.size_of metric.now }
    requires size { near.now.size ≡ M.size_of metric.now }
{
    call!(host, "savings_tour", savings_tour(host.alloc, metric, near));
}

/// Constructs and prints savings lists of a problem with five cities.
fn join<M: Metric>(host: &Host<'_>, metric: &M, near: &Near)
    requires cities { M.size_of metric.now ≡ 5 }
    requires size { near.now.size ≡ M.size_of metric.now }
{
    let loads = [0, 1, 1, 1, 1];
    call!(
        host,
        "savings_lists",
        savings_lists(host.alloc, metric, 1, &loads, 4, near)
    );
}

/// Constructs a nearest-neighbour tour and a savings tour of a problem.
pub fn make_tours(host: &Host<'_>, problem: &Problem) {
    let table = Table::of(problem);
    let Some(near) = near_of(host, &table, 3) else {
        return;
    };
    if table.size() < 1 {
        return host.fail();
    }
    start_nearest(host, &table);
    start_by_savings(host, &table, &near);
}

/// Joins the cities of a problem with five cities into lists.
pub fn make_lists(host: &Host<'_>, problem: &Problem) {
    let table = Table::of(problem);
    let Some(near) = near_of(host, &table, 4) else {
        return;
    };
    if table.size() != 5 {
        return host.fail();
    }
    join(host, &table, &near);
}
