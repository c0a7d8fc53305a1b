//! The engines that no program calls, and what engines leave if the output file has no room. All other calls of engines
//! with enough memory are made by the library for C and by the program, on the cases of `tests/cases`.

use crate::counting::Counts;
use crate::given::{expect, expect_bytes};
use crate::searches::TWO_SIDES;
use std::process::Abort;
use tk_engines::{
    Construction, Fault, NoObserver, SearchSettings, between_engine, info_engine, read_params,
    solve_engine,
};
use tk_text::{FromRead, Sink, ToWrite, WriteFault};

/// The corners of a square.
pub const SQUARE: &[u8] =
    b"NAME : p\nTYPE : TSP\nDIMENSION : 4\nEDGE_WEIGHT_TYPE : EUC_2D\nNODE_COORD_SECTION\n1 0 0\n2 10 10\n3 10 0\n\
    4 0 10\nEOF\n";

#[test]
fn writes_what_was_read(rt: HostRuntime) {
    let mut out = ToWrite::new(Vec::new(rt.alloc()));
    let answer = info_engine(rt.alloc(), &mut FromRead::new(SQUARE), &mut out);
    expect(&rt, answer == Ok(()));
    expect_bytes(
        &rt,
        &out.inner,
        b"name: p\ntype: TSP\ndimension: 4\ndistances: EUC_2D\ncoordinates: whole\nx: 0 to 10\ny: 0 to 10\n",
    );
}

/// Checks that a text did not fit into the eight bytes of a file, and that nothing was printed.
fn expect_full<F: Sink>(
    rt: &impl Abort,
    answer: Result<(), Fault>,
    file: &F,
    out: &ToWrite<Vec<u8>>,
) {
    expect(rt, answer == Err(Fault::Write(WriteFault { written: 8 })));
    expect(rt, file.failed());
    expect(rt, out.inner.is_empty());
}

/// Nothing is printed if the tour could not be written.
#[test]
fn writes_the_tour_first(rt: HostRuntime) {
    let mut text = FromRead::new(b"PROBLEM_FILE = p\n".as_slice());
    let params = read_params(rt.alloc(), &mut text).expect(&rt, "parameters");
    let mut room = [0; 8];
    let mut file = ToWrite::new(room.as_mut_slice());
    let mut out = ToWrite::new(Vec::new(rt.alloc()));
    let answer = solve_engine(
        rt.alloc(),
        &params,
        &mut FromRead::new(SQUARE),
        &mut FromRead::new(b"".as_slice()),
        &mut file,
        &mut out,
        &mut NoObserver,
    );
    expect_full(&rt, answer, &file, &out);
}

/// Nothing is printed if the solution could not be written.
#[test]
fn writes_the_solution_first(rt: HostRuntime) {
    let settings = SearchSettings {
        runs: 1,
        max_trials: None,
        seed: 1,
        max_candidates: 12,
        construction: Construction::Nearest,
        or_segment: 3,
        final_sweep: false,
    };
    let mut counts = Counts {
        trials: 0,
        better: 0,
        runs: 0,
    };
    let mut room = [0; 8];
    let mut file = ToWrite::new(room.as_mut_slice());
    let mut out = ToWrite::new(Vec::new(rt.alloc()));
    let answer = between_engine(
        rt.alloc(),
        &settings,
        false,
        &mut FromRead::new(TWO_SIDES),
        &mut FromRead::new(b"".as_slice()),
        &mut file,
        &mut out,
        &mut counts,
    );
    expect_full(&rt, answer, &file, &out);
}
