//! Observers that end a search.
ghost use Rattle.std.specs.Prelude.{⊤};

use crate::engines::SQUARE;
use crate::given::{expect, expect_bytes};
use crate::searches::TWO_SIDES;
use std::alloc::Global;
use std::process::Abort;
use tk_engines::{
    Construction, Progress, RouteProgress, RouteRun, RouteWatch, RunReport, SearchOutcome,
    SearchSettings, Watch, between_outcome, read_params, search_outcome,
};
use tk_text::FromRead;

/// Nine cities, three in each of three rows.
const GRID: &[u8] =
    b"NAME : g\nTYPE : TSP\nDIMENSION : 9\nEDGE_WEIGHT_TYPE : EUC_2D\nNODE_COORD_SECTION\n1 0 0\n2 9 9\n3 0 20\n\
    4 10 0\n5 10 10\n6 10 20\n7 20 0\n8 20 10\n9 20 20\nEOF\n";

/// An observer that has these answers to the first questions, and answers yes to others. It notes what it is shown: `b`
/// for the name, `t` for a trial or first descent, `y` or `n` for an answer, and `e` for the end of a run.
#[derive(Drop)]
struct Ending<'a> {
    answers: &'a [bool],
    asked: usize,
    shown: Vec<u8>,
}

impl<'a> Ending<'a> {
    /// An observer that has been shown nothing.
    fn new(alloc: Global, answers: &'a [bool]) -> Ending<'a> {
        Ending {
            answers,
            asked: 0,
            shown: Vec::new(alloc),
        }
    }

    /// Notes an event.
    fn note(&mut self, event: u8) {
        let _ = self.shown.push(event);
    }

    /// Answers the next question.
    fn answer(&mut self) -> bool {
        let answer = self.answers.get(self.asked).copied().unwrap_or(true);
        self.asked = self.asked.saturating_add(1);
        self.note(if answer { b'y' } else { b'n' });
        answer
    }
}

impl Watch for Ending<'_> {
    ghost shows = { λ _ _ _. ⊤ };

    fn begin(&mut self, _name: &[u8]) {
        self.note(b'b');
    }

    fn trial(&mut self, _progress: &Progress, _best: &[u32]) {
        self.note(b't');
    }

    fn end_run(&mut self, _run: u32, _report: &RunReport) {
        self.note(b'e');
    }

    fn goes_on(&mut self) -> bool {
        self.answer()
    }
}

impl RouteWatch for Ending<'_> {
    ghost shows = { λ _ _ _. ⊤ };

    fn begin(&mut self, _name: &[u8]) {
        self.note(b'b');
    }

    fn trial(&mut self, _progress: &RouteProgress, _better: Option<&[Vec<u32>]>) {
        self.note(b't');
    }

    fn end_run(&mut self, _run: u32, _report: &RouteRun) {
        self.note(b'e');
    }

    fn goes_on(&mut self) -> bool {
        self.answer()
    }
}

/// The number of trials that the report of a run states; 0 if there is no such run.
fn trials_of(outcome: &SearchOutcome, run: usize) -> u128 {
    match outcome {
        SearchOutcome::Tour(found) => match found.solved.runs.get(run) {
            Some(report) => report.totals.trials,
            None => 0,
        },
        SearchOutcome::Between(found) => match found.solved.runs.get(run) {
            Some(report) => report.totals.trials as u128,
            None => 0,
        },
        SearchOutcome::Routes(_) => 0,
    }
}

/// Checks the trials that the reports of the first three runs state; 0 stands for a run that was not made.
fn expect_trials(rt: &impl Abort, outcome: &SearchOutcome, [first, second, third]: [u128; 3]) {
    expect(rt, trials_of(outcome, 0) == first);
    expect(rt, trials_of(outcome, 1) == second);
    expect(rt, trials_of(outcome, 2) == third);
}

/// Checks a search for a tour by these parameters whose observer has these answers: what it is shown, and the trials of
/// its runs.
fn expect_tour(
    rt: &impl Abort,
    alloc: Global,
    [params, problem]: [&[u8]; 2],
    answers: &[bool],
    shown: &[u8],
    trials: [u128; 3],
) {
    let params = read_params(alloc, &mut FromRead::new(params)).expect(rt, "parameters");
    let mut watch = Ending::new(alloc, answers);
    let outcome = search_outcome(
        alloc,
        &params,
        &mut FromRead::new(problem),
        &mut FromRead::new(b"".as_slice()),
        &mut watch,
    );
    expect_bytes(rt, &watch.shown, shown);
    expect_trials(rt, &outcome.expect(rt, "an outcome"), trials);
}

const THREE_RUNS: &[u8] = b"PROBLEM_FILE = p\nRUNS = 3\nMAX_TRIALS = 4\n";

/// An observer is asked before each trial but the first of a run, and before each run but the first.
#[test]
fn asks_between_trials_and_runs(rt: HostRuntime) {
    expect_tour(
        &rt,
        rt.alloc(),
        [THREE_RUNS, GRID],
        &[],
        b"btytytyteytytytyteytytytyte",
        [4, 4, 4],
    );
}

/// A no before a trial ends the run, and a no before a run ends the search.
#[test]
fn ends_runs_and_the_search(rt: HostRuntime) {
    expect_tour(
        &rt,
        rt.alloc(),
        [THREE_RUNS, GRID],
        &[true, false, true, false, false],
        b"btytneytnen",
        [2, 1, 0],
    );
}

/// With four cities there is one trial in each run. The first is always made.
#[test]
fn ends_after_the_first_run(rt: HostRuntime) {
    expect_tour(
        &rt,
        rt.alloc(),
        [THREE_RUNS, SQUARE],
        &[false],
        b"bten",
        [1, 0, 0],
    );
}

/// Checks a search between routes of two runs of three trials whose observer has these answers.
fn expect_routes(
    rt: &impl Abort,
    alloc: Global,
    answers: &[bool],
    shown: &[u8],
    trials: [u128; 3],
) {
    let settings = SearchSettings {
        runs: 2,
        max_trials: Some(3),
        seed: 1,
        max_candidates: 12,
        construction: Construction::Nearest,
        final_sweep: false,
        or_segment: 3,
    };
    let mut watch = Ending::new(alloc, answers);
    let outcome = between_outcome(
        alloc,
        &settings,
        false,
        &mut FromRead::new(TWO_SIDES),
        &mut FromRead::new(b"".as_slice()),
        &mut watch,
    );
    expect_bytes(rt, &watch.shown, shown);
    expect_trials(rt, &outcome.expect(rt, "an outcome"), trials);
}

/// An observer is asked before each trial, after the first descent, and before the second run.
#[test]
fn asks_before_trials_between_routes(rt: HostRuntime) {
    expect_routes(&rt, rt.alloc(), &[], b"btytytyteytytytyte", [3, 3, 0]);
}

/// A run can end after its first descent.
#[test]
fn ends_runs_between_routes(rt: HostRuntime) {
    let answers = [false, true, true, false];
    expect_routes(&rt, rt.alloc(), &answers, b"btneytytne", [0, 1, 0]);
    expect_routes(&rt, rt.alloc(), &[false, false], b"btnen", [0, 0, 0]);
}
