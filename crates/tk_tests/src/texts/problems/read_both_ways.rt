//! Problem texts, read at once, byte by byte and in small pieces.

use crate::given::expect;
use crate::texts::fakes::Drip;
use crate::texts::joined;
use crate::texts::problems::reported::{Reported, is_same_problem, reported_by};
use std::alloc::Global;
use std::process::Abort;
use tk_text::{FromRead, Problem, TextFault, TextKind, read_problem};

/// Reads a text in pieces of at most `most` bytes, from a source that fails after its last byte if `fails` is true.
fn read_pieces(alloc: Global, text: &[u8], most: usize, fails: bool) -> Result<Problem, TextFault> {
    let mut source = Drip {
        bytes: text,
        most,
        fails,
        failed: false,
    };
    read_problem(alloc, &mut source)
}

/// Reads a text byte by byte, from a source that fails after its last byte if `fails` is true.
pub fn read_dripping(alloc: Global, text: &[u8], fails: bool) -> Result<Problem, TextFault> {
    read_pieces(alloc, text, 1, fails)
}

/// Whether a text that is read in pieces of at most `most` bytes has the same answer as the whole text.
fn is_read_alike(
    alloc: Global,
    text: &[u8],
    most: usize,
    whole: &Result<Problem, TextFault>,
) -> bool {
    let pieces = read_pieces(alloc, text, most, false);
    is_same(whole, &pieces)
}

/// Reads a text at once, byte by byte and in pieces of 7 bytes, and checks that the answers are equal.
fn read<A: Abort>(rt: &A, alloc: Global, text: &[u8]) -> Result<Problem, TextFault> {
    let mut source = FromRead::new(text);
    let whole = read_problem(alloc, &mut source);
    expect(rt, is_read_alike(alloc, text, 1, &whole));
    expect(rt, is_read_alike(alloc, text, 7, &whole));
    whole
}

/// A fault, as the error of an answer.
pub fn fault(line: u64, kind: TextKind) -> Option<TextFault> {
    Some(TextFault { line, kind })
}

/// Checks that the text is read as this problem.
pub fn accept<A: Abort>(rt: &A, alloc: Global, text: &[u8], wanted: &Reported<'_>) {
    expect(rt, is_accepted(read(rt, alloc, text), wanted));
}

/// Checks that the first part, followed by each of the last parts, is read as this problem.
pub fn accept_each<A: Abort>(
    rt: &A,
    alloc: Global,
    first: &[u8],
    lasts: &[&[u8]],
    wanted: &Reported<'_>,
) {
    for last in lasts {
        let text = joined(rt, alloc, &[first, *last]);
        accept(rt, alloc, &text, wanted);
    }
}

fn is_accepted(answer: Result<Problem, TextFault>, wanted: &Reported<'_>) -> bool {
    match answer {
        Ok(problem) => is_same_problem(&reported_by(&problem), wanted),
        Err(_) => false,
    }
}

fn is_same(left: &Result<Problem, TextFault>, right: &Result<Problem, TextFault>) -> bool {
    match left {
        Ok(left) => match right {
            Ok(right) => is_same_problem(&reported_by(left), &reported_by(right)),
            Err(_) => false,
        },
        Err(left) => match right {
            Ok(_) => false,
            Err(right) => left == right,
        },
    }
}
