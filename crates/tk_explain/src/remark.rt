//! Remarks on files without a fault, by their contents.
ghost use Rattle.std.specs.Prelude.{◌≡◌, option_map};
ghost use Rattle.tk_explain.specs.Remarks as Remarks;

use crate::valid::Valid;
use tk_diagnosis::Remark;
use tk_params::Params;

/// What is probably wrong with the contents of a file that has no fault.
pub fn remark_on(sound: &Valid) -> Option<Remark>
    ensures { result ≡ Remarks.remark_on sound.now }
{
    match sound {
        Valid::Problem(_) => None,
        Valid::Tour(tour) => on_cities(&tour.cities),
        Valid::Solution(solution) => on_routes(&solution.routes),
        Valid::Parameters(params) => on_names(params),
    }
}

/// Like `remark_on`, for the cities of a tour.
fn on_cities(cities: &[u32]) -> Option<Remark>
    ensures { result ≡ Remarks.on_cities cities.now }
{
    if cities.contains(&0) {
        Some(Remark::City0)
    } else {
        None
    }
}

/// Like `remark_on`, for the routes of a solution.
fn on_routes(routes: &[Vec<u32>]) -> Option<Remark>
    ensures { result ≡ Remarks.on_routes routes.now }
{
    if has_zero(routes) {
        Some(Remark::Customer0)
    } else if has_closed(routes) {
        Some(Remark::Closed)
    } else {
        None
    }
}

/// Whether 0 is on a route.
fn has_zero(routes: &[Vec<u32>]) -> bool
    ensures { result ≡ Remarks.has_zero routes.now }
{
    for i in 0..routes.len() {
        if routes[i].contains(&0) {
            return true;
        }
    }
    false
}

/// Whether a route begins and ends with the same number.
fn has_closed(routes: &[Vec<u32>]) -> bool
    ensures { result ≡ Remarks.has_closed routes.now }
{
    for i in 0..routes.len() {
        if is_closed(&routes[i]) {
            return true;
        }
    }
    false
}

/// Whether the first of several numbers is equal to the last one.
fn is_closed(route: &[u32]) -> bool
    ensures { result ≡ Remarks.is_closed route.now }
{
    route.len() > 1 && route[0] == route[route.len() - 1]
}

/// Like `remark_on`, for the file names of a parameter file.
fn on_names(params: &Params) -> Option<Remark>
    ensures { result ≡ Remarks.on_names params.now }
{
    if has_colon(Some(params.problem_file()))
        || has_colon(params.tour_file())
        || has_colon(params.solution_file())
        || has_colon(params.initial_tour_file())
    {
        Some(Remark::Colon)
    } else {
        None
    }
}

/// Whether a file name begins with a colon.
fn has_colon(name: Option<&str>) -> bool
    ensures { result ≡ Remarks.has_colon (option_map (λ s. s.now) name.entry) }
{
    match name {
        Some(name) => begins_with_colon(name.as_bytes()),
        None => false,
    }
}

/// Whether these bytes begin with a colon.
fn begins_with_colon(bytes: &[u8]) -> bool
    ensures { result ≡ Remarks.begins_with_colon bytes.now }
{
    match bytes {
        [b':', ..] => true,
        _ => false,
    }
}
