//! Solution texts, read at once and byte by byte.

use crate::given::expect;
use crate::texts::fakes::Drip;
use crate::texts::repeated;
use std::alloc::Global;
use std::process::Abort;
use tk_text::{FromRead, SolText, TextFault, TextKind, read_solution};

fn read_whole(alloc: Global, text: &[u8]) -> Result<SolText, TextFault> {
    let mut source = FromRead::new(text);
    read_solution(alloc, &mut source)
}

fn read_dripping(alloc: Global, text: &[u8], fails: bool) -> Result<SolText, TextFault> {
    let mut source = Drip {
        bytes: text,
        most: 1,
        fails,
        failed: false,
    };
    read_solution(alloc, &mut source)
}

/// Whether the answer has these routes and this cost.
pub fn is_solution(answer: Result<SolText, TextFault>, routes: &[&[u32]], cost: i64) -> bool {
    match answer {
        Ok(solution) => solution.cost == cost && are_routes(solution.routes.as_slice(), routes),
        Err(_) => false,
    }
}

fn are_routes(read: &[Vec<u32>], routes: &[&[u32]]) -> bool {
    if read.len() != routes.len() {
        return false;
    }
    for (index, route) in routes.iter().enumerate() {
        if read[index].as_slice() != *route {
            return false;
        }
    }
    true
}

fn is_fault(answer: Result<SolText, TextFault>, line: u64, kind: TextKind) -> bool {
    match answer {
        Ok(_) => false,
        Err(fault) => fault == TextFault { line, kind },
    }
}

/// Whether the text, read at once and byte by byte, has these routes and this cost.
fn tells(alloc: Global, text: &[u8], routes: &[&[u32]], cost: i64) -> bool {
    is_solution(read_whole(alloc, text), routes, cost)
        && is_solution(read_dripping(alloc, text, false), routes, cost)
}

#[test]
fn routes_and_cost(rt: HostRuntime) {
    let a = rt.alloc();
    expect(
        &rt,
        tells(
            a,
            b"Route #1: 1 2\nRoute #2: 3 4\nCost 44\n",
            &[&[1, 2], &[3, 4]],
            44,
        ),
    );
    expect(
        &rt,
        tells(
            a,
            b" Route 0: 3\nRoute #1:\n Route +1:2 1\r\ncost : 18\nEOF\n",
            &[&[3], &[], &[2, 1]],
            18,
        ),
    );
    expect(&rt, tells(a, b"Cost 46\nVEHICLES #2: 1", &[], 46));
}

/// Texts from sources that fail, and their faults. The failure of a source is reported if the bytes before it do not
/// decide the answer.
static FAILING: [(&[u8], u64, TextKind); 3] = [
    (b"Route #1: 1\nCost 3", 2, TextKind::Read),
    (b"Cost 3\n", 2, TextKind::Read),
    (b"Roux", 1, TextKind::UnknownKeyword),
];

#[test]
fn failing_sources_of_solutions(rt: HostRuntime) {
    for (text, line, kind) in &FAILING {
        expect(
            &rt,
            is_fault(read_dripping(rt.alloc(), text, true), *line, *kind),
        );
    }
}

/// The number of routes of a text, or its fault.
fn count_routes(alloc: Global, text: &[u8]) -> Result<usize, TextFault> {
    let solution = read_whole(alloc, text)?;
    Ok(solution.routes.len())
}

/// Checks that a text of this line, repeated `times` times, and these last lines has this many routes, or this fault.
fn expect_count(
    rt: &impl Abort,
    alloc: Global,
    line: &[u8],
    times: usize,
    last: &[u8],
    wanted: Result<usize, TextFault>,
) {
    let text = repeated(rt, alloc, b"", line, times, last);
    expect(rt, count_routes(alloc, &text) == wanted);
}

#[test]
fn most_routes(rt: HostRuntime) {
    let over = TextFault {
        line: 100_001,
        kind: TextKind::OutOfLimit,
    };
    let line = b"Route 1:\n";
    expect_count(&rt, rt.alloc(), line, 100_000, b"Cost 0\n", Ok(100_000));
    expect_count(&rt, rt.alloc(), line, 100_000, b"Route x", Err(over));
}

#[test]
fn most_customers(rt: HostRuntime) {
    let over = TextFault {
        line: 50_001,
        kind: TextKind::OutOfLimit,
    };
    let line = b"Route 1: 7 7 7 7 7 7 7 7 7 7 7 7 7 7 7 7 7 7 7 7\n";
    expect_count(&rt, rt.alloc(), line, 50_000, b"Cost 0\n", Ok(50_000));
    expect_count(&rt, rt.alloc(), line, 50_000, b"Route 1: 7\n", Err(over));
}
