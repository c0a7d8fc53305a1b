//! The picture of a problem, with a tour or routes of it.
ghost use Rattle.std.specs.Prelude.{◌≡◌, ◌⊎◌, IfErr, IfNone, IfOk, IfSome, OnErr, None, Some, map, option_map};
ghost use Rattle.tk_problem_text.specs.ProblemOf.{problem_is};
ghost use Rattle.tk_writers.specs.Puts.{Writes};
ghost use Rattle.tk_writers.specs.Sinks.{IsBroken};
ghost use Rattle.tk_distance.specs.Cities.{IsCity};
ghost use Rattle.tk_tour.specs.Verdict.{IsVerdict};
ghost use Rattle.tk_routes.specs.Cvrps.{instance_of};
ghost use Rattle.tk_routes.specs.Instance.{IsInstanceOf};
ghost use Rattle.tk_routes.specs.RouteVerdicts.{IsRouteVerdict};
ghost use Rattle.tk_engines.specs.Engine.{AtWrite, BeforeSecond, EndsByProblem, HasRead, IsUnread};
ghost use Rattle.tk_engines.specs.Engine.{UnlessWrite};
ghost use Rattle.tk_picture.specs.Pictures.{Fits, drawing_of};
ghost use Rattle.tk_engines.specs.declared.fault.Fault.TheVariants.{NoPlaces};
ghost use Rattle.tk_plot.specs.Plot.{AreUntouched, WritesOutput, WritesSome, demands_in, origin_of, undrawable};
ghost use Rattle.tk_plot.specs.Plot.{without_places};
ghost use Rattle.tk_plot.specs.Plot.{ArePointsOf, IsPicture, IsRouteOutput, IsTourOutput, IsViewOf};
ghost use Rattle.tk_plot.specs.Plot.{Plots, PlotsClaim, ReadsClaim, plot_task};

use crate::plotted::Plotted;
use std::alloc::Global;
use tk_engines::Fault;
use tk_lists::{SolText, read_solution, read_tour};
use tk_outcomes::{TourOutcome, length_of, write_route_verdict, write_tour_outcome};
use tk_picture::{OutputFormat, Picture, Subject, View, write_picture};
use tk_problem::{Points, Problem, Weights};
use tk_problem_text::{PlacedProblem, PlacesOrigin, read_placed_problem};
use tk_routes::{Cvrp, RouteVerdict, check_routes};
use tk_tour::{Verdict, check};
use tk_words::Source;
use tk_writers::{Sink, WriteFault};

/// The depot of a problem; `None` for a TSP.
fn depot_of(problem: &Problem) -> Option<u32>
    ensures value { result ≡ option_map (λ r. r.depot) problem.now.routing }
    ensures known { IfSome result (IsCity problem.now.n) }
{
    let routing = problem.routing.as_ref()?;
    Some(routing.depot)
}

/// The demands of the nodes of a problem; empty for a TSP.
fn demands_of(problem: &Problem) -> &[u32]
    ensures { result.now ≡ demands_in (problem_is problem.now).routing }
{
    match &problem.routing {
        Some(routing) => &routing.demand,
        None => &[],
    }
}

/// The points of all cities of a problem: those that the distances depend on, otherwise those that the text gives;
/// `None` if there are none.
fn points_of(placed: &PlacedProblem) -> Option<&Points>
    ensures some { IfSome result (λ points. ArePointsOf placed.now.places (problem_is placed.now.problem) points.now) }
    ensures none { IfNone result
        (without_places (problem_is placed.now.problem).weights placed.now.places ≡ Some NoPlaces) }
{
    match &placed.problem.weights {
        Weights::Points(_, points) => Some(points),
        Weights::Lower(_) => match &placed.places {
            Some(given) => Some(&given.points),
            None => None,
        },
    }
}

/// A view of all cities of a problem, to draw it in a format.
///
/// # Errors
/// `NoPlaces` if the cities have no places, or `WrongNames` if the format has names, but not one for each city.
fn view_of<'a>(placed: &'a PlacedProblem, form: &OutputFormat<'_>) -> Result<View<'a>, Fault>
    ensures view { IfOk result (IsViewOf form.now placed.now.places (problem_is placed.now.problem)) }
    ensures misfit { IfErr result (λ fault.
        undrawable form.now placed.now.places (problem_is placed.now.problem) ≡ Some fault) }
{
    let Some(points) = points_of(placed) else {
        return Err(Fault::NoPlaces);
    };
    let n = placed.problem.n;
    if !form.names_fit(n) {
        return Err(Fault::WrongNames(n));
    }
    Ok(View::over(points.places()))
}

/// The section that has the places of the cities, if the distances do not depend on them.
fn origin_of(placed: &PlacedProblem) -> Option<PlacesOrigin>
    ensures { result ≡ origin_of placed.now.places }
{
    let given = placed.places.as_ref()?;
    Some(given.origin)
}

/// A picture of a problem.
fn picture_of<'a>(placed: &'a PlacedProblem, view: View<'a>, subject: Subject<'a>) -> Picture<'a>
    ensures name { result.name.now ≡ placed.now.problem.name.items }
    ensures origin { result.origin ≡ origin_of placed.now.places }
    ensures view { result.view ≡ view.entry }
    ensures subject { result.subject ≡ subject.entry }
    ensures depot { result.depot ≡ option_map (λ r. r.depot) placed.now.problem.routing }
    ensures known { IfSome result.depot (IsCity placed.now.problem.n) }
    ensures demands { result.demands.now ≡ demands_in (problem_is placed.now.problem).routing }
{
    let problem = &placed.problem;
    Picture {
        name: &problem.name,
        origin: origin_of(placed),
        view,
        subject,
        depot: depot_of(problem),
        demands: demands_of(problem),
    }
}

/// Draws a problem, and a tour or routes of it.
fn draw<W: Sink>(
    out: &mut W,
    placed: &PlacedProblem,
    view: &View<'_>,
    subject: Subject<'_>,
    form: &OutputFormat<'_>,
) -> Result<(), WriteFault>
    requires view { IsViewOf form.now placed.now.places (problem_is placed.now.problem) view.now }
    requires fits { Fits placed.now.problem.n subject }
    ensures text { WritesSome
        (IsPicture form.now placed.now.places (problem_is placed.now.problem) (drawing_of subject.entry))
        (Writes W.Sink out.old out.new result) }
    ensures failed { OnErr result (IsBroken W.Sink out.new) }
{
    write_picture(out, &picture_of(placed, *view, subject), *form)
}

/// Draws a tour, or writes the line with its fault to `reported`.
fn show_tour<W: Sink, T: Sink>(
    out: &mut W,
    reported: &mut T,
    placed: &PlacedProblem,
    view: &View<'_>,
    cities: &[u32],
    verdict: Verdict,
    form: &OutputFormat<'_>,
) -> Result<(), WriteFault>
    requires view { IsViewOf form.now placed.now.places (problem_is placed.now.problem) view.now }
    requires verdict { IsVerdict placed.now.problem.n cities.now verdict }
    ensures text { WritesSome
        (IsTourOutput form.now placed.now.places (problem_is placed.now.problem) cities.now verdict)
        (WritesOutput W.Sink T.Sink out.old out.new reported.old reported.new result) }
    ensures failed { OnErr result (IsBroken W.Sink out.new ⊎ IsBroken T.Sink reported.new) }
{
    match verdict {
        Verdict::Tour => {
            let length = length_of(&placed.problem, cities);
            draw(out, placed, view, Subject::Tour { cities, length }, form)
        }
        _ => write_tour_outcome(reported, &TourOutcome::of(&placed.problem, cities, verdict)),
    }
}

/// Draws routes, or writes the line with their fault to `reported`.
fn show_routes<W: Sink, T: Sink>(
    out: &mut W,
    reported: &mut T,
    placed: &PlacedProblem,
    view: &View<'_>,
    cvrp: &Cvrp<'_>,
    solution: &SolText,
    verdict: RouteVerdict,
    form: &OutputFormat<'_>,
) -> Result<(), WriteFault>
    requires view { IsViewOf form.now placed.now.places (problem_is placed.now.problem) view.now }
    requires instance { IsInstanceOf placed.now.problem (instance_of cvrp.now) }
    requires verdict { IsRouteVerdict (instance_of cvrp.now) (map (λ r. r.items) solution.now.routes.items)
        solution.now.cost verdict }
    ensures text { WritesSome (IsRouteOutput form.now placed.now.places (problem_is placed.now.problem)
        (instance_of cvrp.now) (map (λ r. r.items) solution.now.routes.items) verdict)
        (WritesOutput W.Sink T.Sink out.old out.new reported.old reported.new result) }
    ensures failed { OnErr result (IsBroken W.Sink out.new ⊎ IsBroken T.Sink reported.new) }
{
    match verdict {
        RouteVerdict::Valid { routes, cost } => {
            let subject = Subject::Routes {
                cvrp: *cvrp,
                routes: &solution.routes,
                count: routes,
                cost: cost.unsigned_abs(),
            };
            draw(out, placed, view, subject, form)
        }
        _ => write_route_verdict(reported, verdict),
    }
}

/// Reads a tour, and draws it or writes the line with its fault to `reported`.
fn plot_tour<C: Source, W: Sink, T: Sink>(
    alloc: Global,
    placed: &PlacedProblem,
    view: &View<'_>,
    claim: &mut C,
    form: &OutputFormat<'_>,
    out: &mut W,
    reported: &mut T,
) -> Result<Plotted, Fault>
    requires view { IsViewOf form.now placed.now.places (problem_is placed.now.problem) view.now }
    requires tsp { placed.now.problem.routing ≡ None }
    ensures { PlotsClaim C.Source W.Sink T.Sink form.now placed.now.places (problem_is placed.now.problem)
        (claim.old, out.old, reported.old) (claim.new, out.new, reported.new) result }
{
    let tour = match read_tour(alloc, claim) {
        Ok(tour) => tour,
        Err(fault) => return Err(Fault::Tour(fault)),
    };
    let cities = tour.cities.as_slice();
    let Ok(verdict) = check(alloc, placed.problem.n, cities) else {
        return Err(Fault::NoMemory);
    };
    match show_tour(out, reported, placed, view, cities, verdict, form) {
        Ok(()) => Ok(Plotted::Tour(verdict)),
        Err(fault) => Err(Fault::Write(fault)),
    }
}

/// Reads routes, and draws them or writes the line with their fault to `reported`.
fn plot_routes<C: Source, W: Sink, T: Sink>(
    alloc: Global,
    placed: &PlacedProblem,
    view: &View<'_>,
    cvrp: &Cvrp<'_>,
    claim: &mut C,
    form: &OutputFormat<'_>,
    out: &mut W,
    reported: &mut T,
) -> Result<Plotted, Fault>
    requires view { IsViewOf form.now placed.now.places (problem_is placed.now.problem) view.now }
    requires instance { IsInstanceOf placed.now.problem (instance_of cvrp.now) }
    ensures { PlotsClaim C.Source W.Sink T.Sink form.now placed.now.places (problem_is placed.now.problem)
        (claim.old, out.old, reported.old) (claim.new, out.new, reported.new) result }
{
    let solution = match read_solution(alloc, claim) {
        Ok(solution) => solution,
        Err(fault) => return Err(Fault::Solution(fault)),
    };
    let Ok(verdict) = check_routes(alloc, cvrp, &solution) else {
        return Err(Fault::NoMemory);
    };
    match show_routes(out, reported, placed, view, cvrp, &solution, verdict, form) {
        Ok(()) => Ok(Plotted::Routes(verdict)),
        Err(fault) => Err(Fault::Write(fault)),
    }
}

/// Reads a tour or routes of a problem, and draws them or writes the line with their fault to `reported`.
fn plot_claim<C: Source, W: Sink, T: Sink>(
    alloc: Global,
    placed: &PlacedProblem,
    view: &View<'_>,
    claim: &mut C,
    form: &OutputFormat<'_>,
    out: &mut W,
    reported: &mut T,
) -> Result<Plotted, Fault>
    requires view { IsViewOf form.now placed.now.places (problem_is placed.now.problem) view.now }
    ensures { PlotsClaim C.Source W.Sink T.Sink form.now placed.now.places (problem_is placed.now.problem)
        (claim.old, out.old, reported.old) (claim.new, out.new, reported.new) result }
{
    match Cvrp::of(&placed.problem) {
        Some(cvrp) => plot_routes(alloc, placed, view, &cvrp, claim, form, out, reported),
        None => plot_tour(alloc, placed, view, claim, form, out, reported),
    }
}

/// Draws a problem that has been read. Otherwise like `plot_engine`.
///
/// # Errors
/// Those of `plot_engine`, except a fault of the problem.
pub fn plot_problem<C: Source, W: Sink, T: Sink>(
    alloc: Global,
    placed: &PlacedProblem,
    claim: &mut C,
    has_claim: bool,
    form: &OutputFormat<'_>,
    out: &mut W,
    reported: &mut T,
) -> Result<Plotted, Fault>
    ensures ends { EndsByProblem (plot_task form.now placed.now.places has_claim)
        (HasRead (problem_is placed.now.problem))
        (ReadsClaim has_claim C.Source claim.old claim.new)
        (WritesOutput W.Sink T.Sink out.old out.new reported.old reported.new) result }
    ensures quiet { IfErr result (UnlessWrite (AreUntouched W.Sink T.Sink out.old out.new reported.old reported.new)) }
    ensures failed { IfErr result (AtWrite (IsBroken W.Sink out.new ⊎ IsBroken T.Sink reported.new)) }
    ensures unread { IfErr result (BeforeSecond (IsUnread C.Source claim.old claim.new)) }
{
    let view = match view_of(placed, form) {
        Ok(view) => view,
        Err(fault) => return Err(fault),
    };
    if !has_claim {
        let Err(fault) = draw(out, placed, &view, Subject::Cities, form) else {
            return Ok(Plotted::Cities);
        };
        return Err(Fault::Write(fault));
    }
    plot_claim(alloc, placed, &view, claim, form, out, reported)
}

/// Draws the cities of a problem and, if `has_claim` is true, the tour or the routes of another text. These are checked
/// first: if they have a fault, `reported` gets the line with it, and `out` gets nothing.
///
/// The picture is written in a format: as an SVG, or within an HTML page. All texts are read before a byte is written.
/// The other text is read as a solution if the problem has a routing, otherwise as a tour.
///
/// # Errors
/// The fault of either text, including that of its display data, or of a write, or `NoMemory` if memory runs out;
/// `NoPlaces` if the problem has explicit weights and its text does not place the cities; `WrongNames` if the page has
/// names, but not one for each node.
pub fn plot_engine<P: Source, C: Source, W: Sink, T: Sink>(
    alloc: Global,
    problem: &mut P,
    claim: &mut C,
    has_claim: bool,
    form: OutputFormat<'_>,
    out: &mut W,
    reported: &mut T,
) -> Result<Plotted, Fault>
    ensures ends { Plots P.Source C.Source W.Sink T.Sink form.entry has_claim
        (problem.old, claim.old, out.old, reported.old) (problem.new, claim.new, out.new, reported.new) result }
    ensures quiet { IfErr result (UnlessWrite (AreUntouched W.Sink T.Sink out.old out.new reported.old reported.new)) }
    ensures failed { IfErr result (AtWrite (IsBroken W.Sink out.new ⊎ IsBroken T.Sink reported.new)) }
    ensures unread { IfErr result (BeforeSecond (IsUnread C.Source claim.old claim.new)) }
{
    match read_placed_problem(alloc, problem) {
        Ok(placed) => plot_problem(alloc, &placed, claim, has_claim, &form, out, reported),
        Err(fault) => Err(Fault::Problem(fault)),
    }
}
