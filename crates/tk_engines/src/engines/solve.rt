//! The search for a tour or for routes, and its output.
ghost use Rattle.std.specs.Prelude.{◌≡◌, ◌≤◌, ◌⊎◌, IfErr, OnErr, is_some, length};
ghost use Rattle.tk_params.specs.Keys.{all_keys};
ghost use Rattle.tk_params.specs.SearchOf.{search_is};
ghost use Rattle.tk_writers.specs.Puts.{Writes};
ghost use Rattle.tk_writers.specs.Sinks.{IsBroken};
ghost use Rattle.tk_solve.specs.Watching.{WereShown};
ghost use Rattle.tk_engines.specs.Engine.{AtWrite, BeforeSecond, Ends, IsUnread, ReadsProblem, UnlessWrite};
ghost use Rattle.tk_engines.specs.Solve.{AreUntouched, BeforeSearch, ReadsInitial, WritesFiles, files_with};
ghost use Rattle.tk_engines.specs.Solve.{found_text, settings_task, solve_task};

use crate::engines::search::{search_outcome, settings_outcome};
use crate::fault::{Fault, end_of};
use std::alloc::Global;
use tk_outcomes::{SearchOutcome, write_search_lines};
use tk_params::{Key, Params, SearchSettings};
use tk_solve::Watch;
use tk_words::Source;
use tk_writers::{Sink, WriteFault, write_solution, write_tour};

/// Writes the text of the tour or of the solution that was found.
///
/// # Errors
/// A write failed; the fault contains the number of bytes that were written.
pub fn write_found<F: Sink>(file: &mut F, outcome: &SearchOutcome) -> Result<(), WriteFault>
    ensures text { Writes F.Sink file.old file.new result (found_text outcome.now) }
    ensures failed { OnErr result (IsBroken F.Sink file.new) }
{
    match outcome {
        SearchOutcome::Tour(found) => write_tour(
            file,
            &found.name,
            found.solved.length,
            &found.solved.cities,
        ),
        SearchOutcome::Routes(found) => write_solution(file, &found.routes, found.report.after),
        SearchOutcome::Between(found) => {
            write_solution(file, &found.solved.routes, found.solved.cost)
        }
    }
}

/// Writes the text of the tour or of the solution that was found, and then the lines on the search.
pub(crate) fn write_files<F: Sink, W: Sink>(
    file: &mut F,
    out: &mut W,
    ignored: &[Key],
    outcome: &SearchOutcome,
) -> Result<(), WriteFault>
    requires { length ignored.now ≤ length all_keys }
    ensures text { WritesFiles F.Sink W.Sink file.old file.new out.old out.new
        result (files_with ignored.now outcome.now) }
    ensures failed { OnErr result (IsBroken F.Sink file.new ⊎ IsBroken W.Sink out.new) }
{
    write_found(file, outcome)?;
    write_search_lines(out, ignored, outcome)
}

/// Runs the search that parameters specify, like [`search_outcome`]. `file` gets the text of the tour or of the
/// solution. Then `out` gets the keys that are not used, a line for each run or two for the routes, and the best
/// length. All texts are read before a byte is written.
///
/// # Errors
/// As for `search_outcome`, or the fault of a write.
pub fn solve_engine<P: Source, I: Source, F: Sink, W: Sink, V: Watch>(
    alloc: Global,
    params: &Params,
    problem: &mut P,
    initial: &mut I,
    file: &mut F,
    out: &mut W,
    watch: &mut V,
) -> Result<(), Fault>
    ensures ends { Ends (solve_task params.now (WereShown V.shows watch.old watch.new))
        (ReadsProblem P.Source problem.old problem.new)
        (ReadsInitial (is_some params.now.initial_tour_file) I.Source initial.old initial.new)
        (WritesFiles F.Sink W.Sink file.old file.new out.old out.new) result }
    ensures quiet { IfErr result (UnlessWrite (AreUntouched F.Sink W.Sink file.old file.new out.old out.new)) }
    ensures failed { IfErr result (AtWrite (IsBroken F.Sink file.new ⊎ IsBroken W.Sink out.new)) }
    ensures unread { IfErr result (BeforeSecond (IsUnread I.Source initial.old initial.new)) }
    ensures unwatched { IfErr result (BeforeSearch (watch.new ≡ watch.old)) }
{
    let outcome = search_outcome(alloc, params, problem, initial, watch)?;
    end_of(write_files(file, out, params.ignored(), &outcome))
}

/// Runs a search with these settings, like [`solve_engine`]. `initial` is read if `from_tour`.
///
/// # Errors
/// As for `solve_engine`, with `NotForType` if the runs begin with an initial tour and the problem is a CVRP.
pub fn search_engine<P: Source, I: Source, F: Sink, W: Sink, V: Watch>(
    alloc: Global,
    settings: &SearchSettings,
    from_tour: bool,
    problem: &mut P,
    initial: &mut I,
    file: &mut F,
    out: &mut W,
    watch: &mut V,
) -> Result<(), Fault>
    ensures ends { Ends (settings_task from_tour (search_is settings.now) (WereShown V.shows watch.old watch.new))
        (ReadsProblem P.Source problem.old problem.new) (ReadsInitial from_tour I.Source initial.old initial.new)
        (WritesFiles F.Sink W.Sink file.old file.new out.old out.new) result }
    ensures quiet { IfErr result (UnlessWrite (AreUntouched F.Sink W.Sink file.old file.new out.old out.new)) }
    ensures failed { IfErr result (AtWrite (IsBroken F.Sink file.new ⊎ IsBroken W.Sink out.new)) }
    ensures unread { IfErr result (BeforeSecond (IsUnread I.Source initial.old initial.new)) }
    ensures unwatched { IfErr result (BeforeSearch (watch.new ≡ watch.old)) }
{
    let outcome = settings_outcome(alloc, settings, from_tour, problem, initial, watch)?;
    end_of(write_files(file, out, &[], &outcome))
}
