//! Near lists.
ghost use Rattle.std.specs.Prelude.{◌≡◌, ◌<◌, IfSome};

use crate::again;
use crate::host::Host;
use tk_metric::{
    BothAxes, Metric, Near, Planar, Table, near_among, near_scan, near_sweep, near_tree,
    near_tree_among,
};
use tk_text::{CANDIDATE_LIMIT, Problem};

/// Near lists by a scan, whose number and length are printed.
pub fn near_of<M: Metric>(host: &Host<'_>, metric: &M, k: u32) -> Option<Near>
    ensures size { IfSome result (λ near. near.size ≡ M.size_of metric.now) }
{
    if k < 1 || k > CANDIDATE_LIMIT || k >= metric.size() {
        host.fail();
        return None;
    }
    let near = again!(host, "near_scan", near_scan(host.alloc, metric, k));
    if let Some(near) = &near {
        show_sizes(host, near);
    }
    near
}

/// Prints the number and the length of near lists by a scan.
fn show_sizes(host: &Host<'_>, near: &Near) {
    println!(host; "near_scan: {} lists of {}", near.size(), near.width());
}

/// Prints the near lists that a call returns, if it returns any.
fn show_answer(host: &Host<'_>, name: &str, answer: Option<Near>) {
    if let Some(near) = &answer {
        show(host, name, near);
    }
}

/// Prints near lists.
fn show(host: &Host<'_>, name: &str, near: &Near) {
    print!(host; "{name}:");
    for k in 0..near.size() {
        print!(host; " {:?}", near.of(k + 1));
    }
    host.println("");
}

/// Finds near lists of two cities by a scan.
fn scan<P: Planar>(host: &Host<'_>, places: &P)
    requires { 2 < P.size_of places.now }
{
    let near = again!(host, "near_scan", near_scan(host.alloc, places, 2));
    show_answer(host, "near_scan", near);
}

/// Finds near lists of two of the first three cities.
fn scan_part<P: Planar>(host: &Host<'_>, places: &P)
    requires { 2 < P.size_of places.now }
{
    let near = again!(host, "near_among", near_among(host.alloc, places, 3, 2));
    show_answer(host, "near_among", near);
}

/// Near lists of two cities by a sweep, which are printed.
fn sweep<P: Planar>(host: &Host<'_>, places: &P) -> Option<Near>
    requires { 2 < P.size_of places.now }
    ensures { IfSome result (λ near. near.width ≡ 2) }
{
    let near = again!(host, "near_sweep", near_sweep(host.alloc, places, 2));
    if let Some(near) = &near {
        show(host, "near_sweep", near);
    }
    near
}

/// Finds near lists of two cities by a tree.
fn search_tree<P: BothAxes>(host: &Host<'_>, places: &P)
    requires { 2 < P.size_of places.now }
{
    let near = again!(host, "near_tree", near_tree(host.alloc, places, 2));
    show_answer(host, "near_tree", near);
}

/// Finds near lists of two of the first three cities by a tree.
fn search_tree_part<P: BothAxes>(host: &Host<'_>, places: &P)
    requires { 2 < P.size_of places.now }
{
    let near = again!(
        host,
        "near_tree_among",
        near_tree_among(host.alloc, places, 3, 2)
    );
    show_answer(host, "near_tree_among", near);
}

/// Shortens near lists of two cities to one city.
fn shorten<P: Planar>(host: &Host<'_>, places: &P)
    requires { 2 < P.size_of places.now }
{
    if let Some(near) = sweep(host, places) {
        let shortened = again!(host, "Near::shortened", near.shortened(host.alloc, 1));
        show_answer(host, "Near::shortened", shortened);
    }
}

/// Finds the near lists of points in the plane in each way.
fn find_each<P: BothAxes>(host: &Host<'_>, places: &P)
    requires { 2 < P.size_of places.now }
{
    scan(host, places);
    scan_part(host, places);
    let _ = sweep(host, places);
    search_tree(host, places);
    search_tree_part(host, places);
    shorten(host, places);
}

/// Finds the near lists of a problem in the plane in each way.
pub fn make_calls(host: &Host<'_>, problem: &Problem) {
    match Table::of(problem) {
        Table::Planes(planes) if planes.size() > 2 => find_each(host, &planes),
        _ => host.fail(),
    }
}
