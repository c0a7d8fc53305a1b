//! Checks, near lists, matrices, pictures, explanations and numbers of texts.
ghost use Rattle.std.specs.Prelude.{◌≡◌, ◌≢◌, ◌≤◌, IsUtf8};
ghost use Rattle.tk_engines.specs.MatrixOf.{too_large};
ghost use Rattle.tk_for_c.specs.Answers.{IsRightRefusal, IsRightRefusalIn, NeverClashes, NoRefusal, fits_any};
ghost use Rattle.tk_for_c.specs.Checks.{IsCheckRefused, IsRouteCheckRefused};
ghost use Rattle.tk_for_c.specs.Ends.{IsTextEnd};
ghost use Rattle.tk_for_c.specs.Explained.{IsExplained};
ghost use Rattle.tk_for_c.specs.InfoStruct.{IsInfoWritten};
ghost use Rattle.tk_for_c.specs.Outcomes.{with_status};
ghost use Rattle.tk_for_c.specs.Plotted.{HoldPage, HoldPlot, IsClaimRefused, plot_misfit};
ghost use Rattle.tk_for_c.specs.Texts.{IsCheckWritten, IsMatrixTextOf, IsNearTextOf, IsRouteCheckWritten};
ghost use Rattle.tk_for_c.specs.Texts.{IsTextWritten};
ghost use Rattle.tk_near.specs.ListLengths.{IsListLength};
ghost use Rattle.tk_picture.specs.declared.picture.OutputFormat.TheVariants.{Svg};
ghost use Rattle.tk_problem.specs.declared.weights.Format.TheVariants.{FullMatrix};
ghost use Rattle.tk_text.specs.Placed.{placed_texts};

use std::alloc::Global;
use tk_for_c::{Answer, Info};

/// Checks the tour of a text against a problem.
#[unsafe(no_mangle)]
pub extern "C" fn tourkit_check(
    alloc: Global,
    problem: &[u8],
    tour: &[u8],
    out: &mut [u8],
    answer: &mut Answer,
)
    ensures { IsTextEnd (IsCheckWritten problem.now tour.now out.old out.new) (IsCheckRefused problem.now tour.now)
        out.old out.new answer.new }
{
    *answer = tk_for_c::tourkit_check(alloc, problem, tour, out);
}

/// Checks the routes of a text against a CVRP.
#[unsafe(no_mangle)]
pub extern "C" fn tourkit_checksol(
    alloc: Global,
    problem: &[u8],
    solution: &[u8],
    out: &mut [u8],
    answer: &mut Answer,
)
    ensures { IsTextEnd (IsRouteCheckWritten problem.now solution.now out.old out.new)
        (IsRouteCheckRefused problem.now solution.now) out.old out.new answer.new }
{
    *answer = tk_for_c::tourkit_checksol(alloc, problem, solution, out);
}

/// Writes the near list of each city on a line.
#[unsafe(no_mangle)]
pub extern "C" fn tourkit_near(
    alloc: Global,
    problem: &[u8],
    k: u32,
    out: &mut [u8],
    answer: &mut Answer,
)
    ensures end { IsTextEnd (IsTextWritten (IsNearTextOf k problem.now) out.old out.new)
        (λ a. IsListLength k → IsRightRefusal fits_any NeverClashes NoRefusal 1 problem.now a)
        out.old out.new answer.new }
    ensures outside { (IsListLength k → ⊥) → answer.new ≡ with_status 2 0 }
{
    *answer = tk_for_c::tourkit_near(alloc, problem, k, out);
}

/// Writes a problem as one with explicit weights, in a full matrix.
#[unsafe(no_mangle)]
pub extern "C" fn tourkit_matrix(alloc: Global, problem: &[u8], out: &mut [u8], answer: &mut Answer)
    ensures { IsTextEnd (IsTextWritten (IsMatrixTextOf FullMatrix problem.now) out.old out.new)
        (IsRightRefusal too_large NeverClashes NoRefusal 1 problem.now) out.old out.new answer.new }
{
    *answer = tk_for_c::tourkit_matrix(alloc, problem, out);
}

/// Draws a problem, and the tour or the routes of another text, as a picture (SVG).
#[unsafe(no_mangle)]
pub extern "C" fn tourkit_plot(
    alloc: Global,
    problem: &[u8],
    claim: &[u8],
    has_claim: bool,
    out: &mut [u8],
    reported: &mut [u8],
    answer: &mut Answer,
)
    ensures end { IsTextEnd (HoldPlot Svg has_claim problem.now claim.now out.old out.new reported.old reported.new)
        (IsRightRefusalIn placed_texts plot_misfit NeverClashes (IsClaimRefused has_claim claim.now) 1 problem.now)
        reported.old reported.new answer.new }
    ensures kept { 2 ≤ answer.new.status → out.new ≡ out.old }
{
    *answer = tk_for_c::tourkit_plot(alloc, problem, claim, has_claim, out, reported);
}

/// Draws a problem, and the tour or the routes of another text, in an HTML page.
#[unsafe(no_mangle)]
pub extern "C" fn tourkit_page(
    alloc: Global,
    problem: &[u8],
    claim: &[u8],
    has_claim: bool,
    out: &mut [u8],
    reported: &mut [u8],
    answer: &mut Answer,
)
    ensures end { IsTextEnd (HoldPage has_claim problem.now claim.now out.old out.new reported.old reported.new)
        (IsRightRefusalIn placed_texts plot_misfit NeverClashes (IsClaimRefused has_claim claim.now) 1 problem.now)
        reported.old reported.new answer.new }
    ensures kept { 2 ≤ answer.new.status → out.new ≡ out.old }
{
    *answer = tk_for_c::tourkit_page(alloc, problem, claim, has_claim, out, reported);
}

/// Explains a text, or one of its lines.
#[unsafe(no_mangle)]
pub extern "C" fn tourkit_explain(
    alloc: Global,
    text: &[u8],
    name: &[u8],
    line: u64,
    out: &mut [u8],
    answer: &mut Answer,
)
    ensures given { answer.new.status ≤ 1 → IsExplained text.now out.old out.new answer.new }
    ensures known { answer.new.status ≤ 3 }
    ensures failed { 2 ≤ answer.new.status → answer.new ≡ with_status answer.new.status 0 }
    ensures kept { 2 ≤ answer.new.status → out.new ≡ out.old }
    ensures justified { answer.new.status ≡ 2 → IsUtf8 name.now → ⊥ }
    ensures name { answer.new.status ≢ 2 → IsUtf8 name.now }
{
    *answer = tk_for_c::tourkit_explain(alloc, text, name, line, out);
}

/// Finds out what is known of a problem.
#[unsafe(no_mangle)]
pub extern "C" fn tourkit_info(
    alloc: Global,
    problem: &[u8],
    info: &mut Info,
    out: &mut [u8],
    answer: &mut Answer,
)
    ensures end { IsTextEnd (IsInfoWritten problem.now info.new out.old out.new)
        (IsRightRefusal fits_any NeverClashes NoRefusal 1 problem.now) out.old out.new answer.new }
    ensures kept { 2 ≤ answer.new.status → info.new ≡ info.old }
{
    *answer = tk_for_c::tourkit_info(alloc, problem, info, out);
}
