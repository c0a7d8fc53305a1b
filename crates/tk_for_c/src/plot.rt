//! Draws the problems of texts in memory.
ghost use Rattle.std.specs.Prelude.{◌≡◌, ◌≤◌, IfOk, IfErr};
ghost use Rattle.tk_plot.specs.Plot.{Output};
ghost use Rattle.tk_plot.specs.declared.plotted.Plotted.{Plotted};
ghost use Rattle.tk_picture.specs.declared.picture.OutputFormat.TheVariants.{Svg};
ghost use Rattle.tk_text.specs.Placed.{placed_texts};
ghost use Rattle.tk_for_c.specs.Answers.{IsRightRefusalIn, IsStopIn, NeverClashes};
ghost use Rattle.tk_for_c.specs.Outcomes.{with_status};
ghost use Rattle.tk_for_c.specs.Plotted.{HoldPage, HoldPlot, IsClaimRefused, IsNameless, IsPlotOf};
ghost use Rattle.tk_for_c.specs.Plotted.{IsSolutionFault, IsTourFault};
ghost use Rattle.tk_for_c.specs.Plotted.{line_in, picture_in, plot_misfit, plot_status};
ghost use Rattle.tk_for_c.specs.Texts.{IsSomeText};

use crate::answer::{Answer, stopped};
use crate::hand_out::hand_out;
use std::alloc::Global;
use tk_engines::Fault;
use tk_page::page_parts;
use tk_picture::{NodeNames, OutputFormat};
use tk_plot::{Plotted, plot_engine};
use tk_routes::RouteVerdict;
use tk_text::{FromRead, ToWrite};
use tk_tour::Verdict;

/// What was drawn, the picture, and the line that reports the fault of the tour or of the routes. One of the two texts
/// is empty.
fn plotted(
    alloc: Global,
    form: OutputFormat<'_>,
    problem: &[u8],
    claim: &[u8],
    has_claim: bool,
) -> Result<(Plotted, Vec<u8>, Vec<u8>), Fault>
    requires names { IsNameless form }
    ensures ok { IfOk result (λ r. (output : Output) × IsPlotOf form.entry has_claim problem.now claim.now r.0 output
        × (r.1.items ≡ picture_in output) × (r.2.items ≡ line_in output)) }
    ensures err { IfErr result (IsStopIn placed_texts plot_misfit NeverClashes (IsTourFault has_claim claim.now)
        (IsSolutionFault has_claim claim.now) problem.now) }
{
    let mut problem = FromRead::new(problem);
    let mut claim = FromRead::new(claim);
    let mut out = ToWrite::new(Vec::new(alloc));
    let mut reported = ToWrite::new(Vec::new(alloc));
    match plot_engine(
        alloc,
        &mut problem,
        &mut claim,
        has_claim,
        form,
        &mut out,
        &mut reported,
    ) {
        Ok(plotted) => Ok((plotted, out.inner, reported.inner)),
        Err(fault) => Err(fault),
    }
}

/// The status: 1 if the tour or the routes have a fault, otherwise 0.
fn status_of(plotted: Plotted) -> u32
    ensures { result ≡ plot_status plotted }
{
    match plotted {
        Plotted::Cities
        | Plotted::Tour(Verdict::Tour)
        | Plotted::Routes(RouteVerdict::Valid { .. }) => 0,
        _ => 1,
    }
}

/// Draws a problem in a format, and the tour or the routes of another text.
fn drawn(
    alloc: Global,
    form: OutputFormat<'_>,
    problem: &[u8],
    claim: &[u8],
    has_claim: bool,
    out: &mut [u8],
    reported: &mut [u8],
) -> Answer
    requires names { IsNameless form }
    ensures given { result.status ≤ 1
        → HoldPlot form.entry has_claim problem.now claim.now out.old out.new reported.old reported.new result }
    ensures known { result.status ≤ 3 }
    ensures refused { result.status ≡ 2
        → IsRightRefusalIn placed_texts plot_misfit NeverClashes (IsClaimRefused has_claim claim.now) 1 problem.now
        result }
    ensures memory { result.status ≡ 3 → result ≡ with_status 3 result.needed }
    ensures message { 2 ≤ result.status → IsSomeText reported.old reported.new result }
    ensures kept { 2 ≤ result.status → out.new ≡ out.old }
{
    match plotted(alloc, form, problem, claim, has_claim) {
        Ok((done, picture, line)) => {
            Answer::ended_twice(
                status_of(done),
                hand_out(&picture, out),
                hand_out(&line, reported),
            )
        }
        Err(fault) => stopped(alloc, 1, &fault, reported),
    }
}

/// Draws a problem, and if `has_claim` is true, the tour or the routes of another text: `out` gets the picture (SVG),
/// of `needed` bytes. If the tour or the routes have a fault, the status is 1, and `reported` gets the line that
/// reports it, of `needed_file` bytes. If a text is rejected, or the problem does not place its cities, `reported` gets
/// the message, of `needed` bytes.
pub fn tourkit_plot(
    alloc: Global,
    problem: &[u8],
    claim: &[u8],
    has_claim: bool,
    out: &mut [u8],
    reported: &mut [u8],
) -> Answer
    ensures given { result.status ≤ 1
        → HoldPlot Svg has_claim problem.now claim.now out.old out.new reported.old reported.new result }
    ensures known { result.status ≤ 3 }
    ensures refused { result.status ≡ 2
        → IsRightRefusalIn placed_texts plot_misfit NeverClashes (IsClaimRefused has_claim claim.now) 1 problem.now
        result }
    ensures memory { result.status ≡ 3 → result ≡ with_status 3 result.needed }
    ensures message { 2 ≤ result.status → IsSomeText reported.old reported.new result }
    ensures kept { 2 ≤ result.status → out.new ≡ out.old }
{
    drawn(
        alloc,
        OutputFormat::Svg,
        problem,
        claim,
        has_claim,
        out,
        reported,
    )
}

/// Like `tourkit_plot`, but `out` gets an HTML page with the picture.
pub fn tourkit_page(
    alloc: Global,
    problem: &[u8],
    claim: &[u8],
    has_claim: bool,
    out: &mut [u8],
    reported: &mut [u8],
) -> Answer
    ensures given { result.status ≤ 1
        → HoldPage has_claim problem.now claim.now out.old out.new reported.old reported.new result }
    ensures known { result.status ≤ 3 }
    ensures refused { result.status ≡ 2
        → IsRightRefusalIn placed_texts plot_misfit NeverClashes (IsClaimRefused has_claim claim.now) 1 problem.now
        result }
    ensures memory { result.status ≡ 3 → result ≡ with_status 3 result.needed }
    ensures message { 2 ≤ result.status → IsSomeText reported.old reported.new result }
    ensures kept { 2 ≤ result.status → out.new ≡ out.old }
{
    let parts = page_parts();
    let names = NodeNames { list: &[] };
    drawn(
        alloc,
        OutputFormat::Page(parts, names),
        problem,
        claim,
        has_claim,
        out,
        reported,
    )
}
